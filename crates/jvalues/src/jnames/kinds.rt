/// A kind of operand.
#[derive(Clone, Copy, Debug, PartialEq, Eq)]
pub enum Kind {
    Int,
    Long,
    /// The null reference, which stands for each reference and array.
    Null,
    /// A reference, to an array too.
    Ref,
    /// A reference to an array. Which elements it has is said by the instruction.
    Array,
    /// What `aload` and `astore` move: a reference, an object before its `<init>`, or a security context.
    Held,
}

/// Kinds of operands, the newest first.
#[rattlefmt::skip]
#[derive(Clone, Copy, Debug, PartialEq, Eq)]
pub enum Kinds { None, One(Kind), Two(Kind, Kind), Three(Kind, Kind, Kind) }

/// The kinds that an instruction takes from the stack, and the kind that it puts there.
#[rattlefmt::skip]
#[derive(Clone, Copy, Debug, PartialEq, Eq)]
pub struct Effect { pub takes: Kinds, pub gives: Option<Kind> }
