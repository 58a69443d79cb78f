/// A place in a method: the place of its class among the parts, its own among the methods, and the byte of its code.
#[derive(Clone, Copy, Debug)]
pub struct Place {
    /// The place of the class among the parts.
    pub class: u32,
    /// The place of the method among those of its class.
    pub method: u32,
    /// The place among the bytes of its code.
    pub at: u32,
}
