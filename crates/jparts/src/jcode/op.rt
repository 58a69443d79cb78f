use crate::jcode::names::{
    Access, ArrayType, CallOp, CastOp, Element, FieldOp, LocalKind, ObjectOp, RefTest, Returned,
    Slot, SmallInt, SmallLong,
};
use crate::jcode::pointer::Boxed;
use jground::jbase::Seq;
use jvalues::jnames::{Compare, Division, OpOne, OpTwo, Shuffle};

/// An instruction as it is written (JVMS 6.5): which opcode of its row of the table it has, and its operands in order. Indices
/// are of the pool, and a branch is the distance from the instruction's own place.
#[rattlefmt::skip]
#[derive(Debug, Drop)]
pub enum Op {
    Nop, AconstNull,
    /// iconst, bipush, sipush
    IntConst(IntConst),
    LongConst(SmallLong),
    /// ldc, ldc_w
    Ldc(Ldc),
    Ldc2(u16), IntLocal(LocalOp), LongLocal(LocalOp), RefLocal(LocalOp), ArrayLoad(Element), ArrayStore(Element), Stack(Shuffle),
    Two(OpTwo),
    /// idiv, irem, ldiv, lrem
    Divide(Division),
    One(OpOne),
    /// A local, and what is added to it.
    Iinc(u8, i8),
    /// An int against zero, and a branch.
    If(Compare, i16),
    /// An int against another, and a branch.
    IfInt(Compare, i16),
    /// A reference, and a branch.
    IfRef(RefTest, i16),
    /// goto, goto_w
    Goto(Goto),
    /// tableswitch, lookupswitch
    Switch(Boxed<Switch>),
    Return(Returned), Field(FieldOp, u16),
    /// invokevirtual, invokespecial, invokestatic
    Call(CallOp, u16),
    /// A method, and the number of its argument slots.
    CallInterface(u16, u8),
    /// new, newarray, anewarray
    New(NewOp),
    /// arraylength, athrow
    Object(ObjectOp),
    /// checkcast, instanceof
    Cast(CastOp, u16),
    Wide(Wide),
}

/// An int that is pushed.
#[rattlefmt::skip]
#[derive(Clone, Copy, Debug, PartialEq, Eq)]
pub enum IntConst { Small(SmallInt), Byte(i8), Short(i16) }

/// An entry of the pool that is pushed, of one slot.
#[rattlefmt::skip]
#[derive(Clone, Copy, Debug, PartialEq, Eq)]
pub enum Ldc { Narrow(u8), Wide(u16) }

/// A local that is read or written: by its number, or by an opcode of its own.
#[rattlefmt::skip]
#[derive(Clone, Copy, Debug, PartialEq, Eq)]
pub enum LocalOp { At(Access, u8), Slot(Access, Slot) }

/// A branch that is always taken.
#[rattlefmt::skip]
#[derive(Clone, Copy, Debug, PartialEq, Eq)]
pub enum Goto { Narrow(i16), Wide(i32) }

/// What is made: an object or an array of a class, or an array of numbers.
#[rattlefmt::skip]
#[derive(Clone, Copy, Debug, PartialEq, Eq)]
pub enum NewOp { Object(u16), Array(ArrayType), RefArray(u16) }

/// A branch by an int.
#[rattlefmt::skip]
#[derive(Debug, Drop)]
pub enum Switch { Table(TableSwitch), Lookup(LookupSwitch) }

/// A branch for each int from `low` to `high`, and one for all others.
#[rattlefmt::skip]
#[derive(Debug, Drop)]
pub struct TableSwitch { pub default: i32, pub low: i32, pub high: i32, pub branches: Seq<i32> }

/// A branch for each key, and one for all other ints.
#[rattlefmt::skip]
#[derive(Debug, Drop)]
pub struct LookupSwitch { pub default: i32, pub cases: Seq<Case> }

/// An int, and its branch.
#[rattlefmt::skip]
#[derive(Clone, Copy, Debug, PartialEq, Eq)]
pub struct Case { pub key: i32, pub branch: i32 }

/// An instruction with a number of two bytes for its local.
#[derive(Clone, Copy, Debug, PartialEq, Eq)]
pub enum Wide {
    Local(LocalKind, Access, u16),
    /// A local, and what is added to it.
    Iinc(u16, i16),
}

/// An instruction and its place: the offset of its first byte.
#[rattlefmt::skip]
#[derive(Debug, Drop)]
pub struct Placed { pub at: u32, pub op: Op }

/// A handler of a method's code (JVMS 4.7.3): the range that it covers, from `start` up to `end`, its place, and the class that
/// it catches, 0 for any.
#[rattlefmt::skip]
#[derive(Clone, Copy, Debug, PartialEq, Eq)]
pub struct Handler { pub start: u32, pub end: u32, pub at: u32, pub class: u16 }

// An instruction with its place takes 24 bytes of memory.
const _: () = prove!(size_of::<Placed>() == 24);
