use crate::jcode::names::{
    Access, CallOp, CastOp, Element, FieldOp, LocalKind, ObjectOp, RefTest, Returned, Slot,
    SmallInt, SmallLong,
};
use jvalues::jnames::{Compare, Division, OpOne, OpTwo, Shuffle};

/// An opcode, by what stands behind it.
#[derive(Clone, Copy)]
pub enum Head {
    /// Nothing.
    Plain(OneByteOp),
    /// A number of one byte.
    Byte(ByteHead),
    /// An index into the pool.
    Index(IndexHead),
    /// A branch of two bytes.
    Branch(BranchHead),
    /// Operands like no other's.
    Other(OtherHead),
}

/// An opcode that is the whole instruction.
#[rattlefmt::skip]
#[derive(Clone, Copy)]
pub enum OneByteOp {
    Nop, AconstNull, IntConst(SmallInt), LongConst(SmallLong), Local(LocalKind, Access, Slot), ArrayLoad(Element), ArrayStore(Element),
    Stack(Shuffle), Two(OpTwo), Divide(Division), One(OpOne), Return(Returned), Object(ObjectOp),
}

/// An opcode with a number of one byte.
#[rattlefmt::skip]
#[derive(Clone, Copy)]
pub enum ByteHead { Ldc, Local(LocalKind, Access) }

/// An opcode with an index into the pool.
#[rattlefmt::skip]
#[derive(Clone, Copy)]
pub enum IndexHead { LdcWide, Ldc2, Field(FieldOp), Call(CallOp), New, NewRefArray, Cast(CastOp) }

/// An opcode with a branch of two bytes.
#[rattlefmt::skip]
#[derive(Clone, Copy)]
pub enum BranchHead { If(Compare), IfInt(Compare), IfRef(RefTest), Goto }

/// An opcode whose operands are like no other's.
#[rattlefmt::skip]
#[derive(Clone, Copy)]
pub enum OtherHead { Bipush, Sipush, Iinc, TableSwitch, LookupSwitch, CallInterface, NewArray, Wide, GotoWide }
