/// An item of a class file behind its pool. What names an entry puts it into the pool, unless an equal one is there.
#[derive(Clone, Copy)]
pub enum ClassFileItem<'a> {
    /// A number of one byte.
    U1(u8),
    /// A number of two bytes.
    U2(u16),
    /// A number of four bytes.
    U4(u32),
    /// The index of a text.
    Text(&'a [u8]),
    /// The index of a class.
    Class(&'a [u8]),
    /// The index of a class's field, by its name and its type.
    Field(&'a [u8], &'a [u8], &'a [u8]),
    /// The index of a class's method, by its name and its type.
    Method(&'a [u8], &'a [u8], &'a [u8]),
    /// The index of a string, in one byte.
    Str(&'a [u8]),
}
