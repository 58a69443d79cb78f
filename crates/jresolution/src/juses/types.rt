use crate::jprogram::ClassRef;

/// What arrays of one dimension hold (JVMS 4.3.2), its class by number. Arrays of float and double are left out.
#[derive(Clone, Copy, Debug, PartialEq, Eq)]
pub enum ElementRef {
    Boolean,
    Char,
    Byte,
    Short,
    Int,
    Long,
    /// Objects of a class or an interface.
    Class(ClassRef),
}

/// The type of an array: how many dimensions it has, at least 1, and what stands behind them.
#[derive(Clone, Copy, Debug, PartialEq, Eq)]
pub struct ArrayRef {
    pub depth: u32,
    pub element: ElementRef,
}

/// A verification type (JVMS 4.10.1.2), its class by number: it takes no memory of its own and is compared at once.
#[derive(Clone, Copy, Debug, PartialEq, Eq)]
pub enum TypeRef {
    /// Anything, so nothing can be done with it.
    Top,
    /// An int. A boolean, byte, char or short outside of arrays is one too.
    Int,
    Long,
    /// The null reference.
    Null,
    /// `this` in an `<init>`, before another `<init>` was called on it.
    UninitThis,
    /// What the `new` at this place of the code made, before its `<init>` was called.
    Uninit(u16),
    /// An object of a class or an interface, or null.
    Object(ClassRef),
    /// An array, or null.
    Array(ArrayRef),
    /// A security context, which moved methods take as one more parameter.
    Ctx,
}
