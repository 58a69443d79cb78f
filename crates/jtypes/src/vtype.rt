use jground::jbase::Seq;

/// The name of a class in its internal form, as bytes (JVMS 4.2.1).
#[derive(Debug, Drop)]
pub struct Name(pub Seq<u8>);

/// What arrays of one dimension hold (JVMS 4.3.2). Arrays of float and double are left out.
#[rattlefmt::skip]
#[derive(Debug, Drop)]
pub enum Element {
    Boolean, Char, Byte, Short, Int, Long,
    /// Objects of a class or an interface.
    Class(Name),
}

/// The type of an array: how many dimensions it has, at least 1, and what stands behind them.
#[rattlefmt::skip]
#[derive(Debug, Drop)]
pub struct ArrayType { pub depth: u32, pub element: Element }

/// A verification type: what is known of the value of a local or of an operand (JVMS 4.10.1.2).
#[derive(Debug, Drop)]
pub enum VType {
    /// Anything, so nothing can be done with it.
    Top,
    /// An int. A boolean, byte, char or short outside of arrays is one too.
    Int,
    Long,
    /// The null reference.
    Null,
    /// `this` in an `<init>`, before another `<init>` was called on it.
    UninitThis,
    /// What the `new` at this place of the code made, before its `<init>` was called.
    Uninit(u16),
    /// An object of a class or an interface, or null.
    Object(Name),
    /// An array, or null.
    Array(ArrayType),
    /// A security context, which moved methods take as one more parameter.
    Ctx,
}
