use crate::jcode::names::{
    Access, ArrayType, CallOp, CastOp, Element, FieldOp, LocalKind, RefTest, Returned,
};
use jvalues::jnames::{Compare, Division, OpOne, OpTwo, Shuffle};

/// What an instruction does, whichever of its spellings it has (JVMS 6.5): the short, the numbered and the wide ones are one
/// form. `S` is the switch that is held: a `&Switch` is that of the instruction itself.
#[derive(Clone, Copy, Debug)]
pub enum OpForm<S> {
    /// With operands alone.
    Simple(Simple),
    /// With a local.
    Local(LocalForm),
    /// Moves the newest items of the stack.
    Stack(Shuffle),
    /// Says where the method goes on.
    Flow(Flow<S>),
    /// With an array.
    Array(ArrayForm),
    /// By an entry of the pool.
    Pool(PoolForm),
}

/// A form that pushes a number or null, or computes with numbers.
#[derive(Clone, Copy, Debug, PartialEq, Eq)]
pub enum Simple {
    Nothing,
    /// The null reference.
    Null,
    Int(i32),
    Long(i64),
    Two(OpTwo),
    /// A division, which is refused where the divisor is 0.
    Divide(Division),
    One(OpOne),
}

/// A form with a local.
#[derive(Clone, Copy, Debug, PartialEq, Eq)]
pub enum LocalForm {
    Move(Access, LocalKind, u16),
    /// A local, and what is added to its int.
    Increment(u16, i16),
}

/// A form that says where the method goes on. A branch is the distance from the instruction's own place.
#[rattlefmt::skip]
#[derive(Clone, Copy, Debug)]
pub enum Flow<S> {
    /// An int against zero.
    If(Compare, i32),
    /// An int against another.
    IfInt(Compare, i32),
    IfRef(RefTest, i32), Goto(i32), Switch(S), Return(Returned), Throw,
}

/// A form with an array.
#[derive(Clone, Copy, Debug, PartialEq, Eq)]
pub enum ArrayForm {
    /// An array of numbers.
    New(ArrayType),
    /// An array of references, to a class of the pool.
    NewRef(u16),
    Load(Element),
    Store(Element),
    Length,
}

/// A form by an entry of the pool.
#[derive(Clone, Copy, Debug, PartialEq, Eq)]
pub enum PoolForm {
    /// A constant of one slot.
    Constant(u16),
    /// A long.
    LongConstant(u16),
    Field(FieldOp, u16),
    /// A special call is of a method or of an `<init>`: the entry tells them apart, where the pool is known.
    Call(CallOp, u16),
    /// A method, and the number of its argument slots.
    CallInterface(u16, u8),
    New(u16),
    Cast(CastOp, u16),
}
