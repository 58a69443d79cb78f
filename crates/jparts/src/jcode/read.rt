ghost use Rattle.std.specs.Prelude.{◌≡◌};
ghost use Rattle.jground.specs.jbase.MemoryFailures.{Gives};
ghost use Rattle.jparts.specs.declared.jcode.head.Head.TheVariants as heads;
ghost use Rattle.jparts.specs.jcode.Instructions.{instruction, local_op, read_behind, op_from};

use crate::jcode::fault::CodeFault;
use crate::jcode::fault::CodeFault::Truncated;
use crate::jcode::head::{BranchHead, ByteHead, Head, IndexHead, OneByteOp, OtherHead};
use crate::jcode::names::LocalKind;
use crate::jcode::op::{Goto, IntConst, Ldc, LocalOp, NewOp, Op, Switch};
use crate::jcode::operands::{
    array_type_of, interface_call_of, lookup_switch_of, table_switch_of, wide_of,
};
use crate::jcode::pointer::Boxed;
use crate::jcode::table::head_of;
use jground::jbase::FaultOrMemory;
use jground::jformat::{ReadError, fault, i8_of, i16_of, i32_of, u8_of, u16_of};
use std::alloc::Global;

fn local_op(kind: LocalKind, op: LocalOp) -> Op
    ensures { result ≡ local_op kind op }
{
    match kind {
        LocalKind::Int => Op::IntLocal(op),
        LocalKind::Long => Op::LongLocal(op),
        LocalKind::Ref => Op::RefLocal(op),
    }
}

fn plain_op(head: OneByteOp) -> Op
    ensures { result ≡ op_from (heads.Plain head) tt }
{
    match head {
        OneByteOp::Nop => Op::Nop,
        OneByteOp::AconstNull => Op::AconstNull,
        OneByteOp::IntConst(n) => Op::IntConst(IntConst::Small(n)),
        OneByteOp::LongConst(n) => Op::LongConst(n),
        OneByteOp::Local(kind, access, slot) => local_op(kind, LocalOp::Slot(access, slot)),
        OneByteOp::ArrayLoad(element) => Op::ArrayLoad(element),
        OneByteOp::ArrayStore(element) => Op::ArrayStore(element),
        OneByteOp::Stack(op) => Op::Stack(op),
        OneByteOp::Two(op) => Op::Two(op),
        OneByteOp::Divide(op) => Op::Divide(op),
        OneByteOp::One(op) => Op::One(op),
        OneByteOp::Return(kind) => Op::Return(kind),
        OneByteOp::Object(op) => Op::Object(op),
    }
}

fn byte_op(head: ByteHead, n: u8) -> Op
    ensures { result ≡ op_from (heads.Byte head) n }
{
    match head {
        ByteHead::Ldc => Op::Ldc(Ldc::Narrow(n)),
        ByteHead::Local(kind, access) => local_op(kind, LocalOp::At(access, n)),
    }
}

fn index_op(head: IndexHead, n: u16) -> Op
    ensures { result ≡ op_from (heads.Index head) n }
{
    match head {
        IndexHead::LdcWide => Op::Ldc(Ldc::Wide(n)),
        IndexHead::Ldc2 => Op::Ldc2(n),
        IndexHead::Field(op) => Op::Field(op, n),
        IndexHead::Call(op) => Op::Call(op, n),
        IndexHead::New => Op::New(NewOp::Object(n)),
        IndexHead::NewRefArray => Op::New(NewOp::RefArray(n)),
        IndexHead::Cast(op) => Op::Cast(op, n),
    }
}

/// A branch behind its opcode.
#[tactic(auto, using(crate::proofs::JcodeProofs::OpcodeRows::read_branch))]
fn branch_of(at: u32, head: BranchHead, bytes: &[u8]) -> Result<(Op, &[u8]), ReadError<CodeFault>>
    ensures { Gives (λ x. (x.0, x.1.now)) result (read_behind at (heads.Branch head) bytes.now) }
{
    let (by, rest) = i16_of(Truncated, bytes)?;
    match head {
        BranchHead::If(test) => Ok((Op::If(test, by), rest)),
        BranchHead::IfInt(test) => Ok((Op::IfInt(test, by), rest)),
        BranchHead::IfRef(test) => Ok((Op::IfRef(test, by), rest)),
        BranchHead::Goto => Ok((Op::Goto(Goto::Narrow(by)), rest)),
    }
}

/// An instruction behind an opcode whose operands are like no other's.
#[tactic(auto, using(crate::proofs::JcodeProofs::OpcodeRows::read_others))]
fn other_of(
    alloc: Global,
    at: u32,
    head: OtherHead,
    bytes: &[u8],
) -> Result<(Op, &[u8]), ReadError<CodeFault>>
    ensures { Gives (λ x. (x.0, x.1.now)) result (read_behind at (heads.Other head) bytes.now) }
{
    match head {
        OtherHead::Bipush => {
            let (n, rest) = i8_of(Truncated, bytes)?;
            Ok((Op::IntConst(IntConst::Byte(n)), rest))
        }
        OtherHead::Sipush => {
            let (n, rest) = i16_of(Truncated, bytes)?;
            Ok((Op::IntConst(IntConst::Short(n)), rest))
        }
        OtherHead::Iinc => {
            let (local, rest) = u8_of(Truncated, bytes)?;
            let (by, rest) = i8_of(Truncated, rest)?;
            Ok((Op::Iinc(local, by), rest))
        }
        OtherHead::TableSwitch => {
            let (switch, rest) = table_switch_of(alloc, at, bytes)?;
            let switch = Boxed::new(alloc, Switch::Table(switch))?;
            Ok((Op::Switch(switch), rest))
        }
        OtherHead::LookupSwitch => {
            let (switch, rest) = lookup_switch_of(alloc, at, bytes)?;
            let switch = Boxed::new(alloc, Switch::Lookup(switch))?;
            Ok((Op::Switch(switch), rest))
        }
        OtherHead::CallInterface => {
            let ((method, slots), rest) = interface_call_of(bytes)?;
            Ok((Op::CallInterface(method, slots), rest))
        }
        OtherHead::NewArray => {
            let (element, rest) = array_type_of(bytes)?;
            Ok((Op::New(NewOp::Array(element)), rest))
        }
        OtherHead::Wide => {
            let (op, rest) = wide_of(bytes)?;
            Ok((Op::Wide(op), rest))
        }
        OtherHead::GotoWide => {
            let (by, rest) = i32_of(Truncated, bytes)?;
            Ok((Op::Goto(Goto::Wide(by)), rest))
        }
    }
}

/// An instruction behind its opcode.
#[tactic(auto, using(crate::proofs::JcodeProofs::OpcodeRows::read_heads))]
fn behind_opcode(
    alloc: Global,
    at: u32,
    head: Head,
    bytes: &[u8],
) -> Result<(Op, &[u8]), ReadError<CodeFault>>
    ensures { Gives (λ x. (x.0, x.1.now)) result (read_behind at head bytes.now) }
{
    match head {
        Head::Plain(head) => Ok((plain_op(head), bytes)),
        Head::Byte(head) => {
            let (n, rest) = u8_of(Truncated, bytes)?;
            Ok((byte_op(head, n), rest))
        }
        Head::Index(head) => {
            let (n, rest) = u16_of(Truncated, bytes)?;
            Ok((index_op(head, n), rest))
        }
        Head::Branch(head) => branch_of(at, head, bytes),
        Head::Other(head) => other_of(alloc, at, head, bytes),
    }
}

/// An instruction at a place, and the bytes behind it. A fault stands at the instruction's first byte.
#[tactic(auto, unfolding(crate::specs::jcode::Instructions::instruction))]
pub fn op_of(alloc: Global, at: u32, bytes: &[u8]) -> Result<(Op, &[u8]), ReadError<CodeFault>>
    ensures { Gives (λ x. (x.0, x.1.now)) result ((instruction at).read bytes.now) }
{
    let [opcode, rest @ ..] = bytes else {
        return Err(fault(Truncated, bytes));
    };
    let head = match head_of(*opcode) {
        Ok(head) => head,
        Err(kind) => return Err(fault(kind, bytes)),
    };
    match behind_opcode(alloc, at, head, rest) {
        Ok(found) => Ok(found),
        Err(FaultOrMemory::Memory) => Err(FaultOrMemory::Memory),
        Err(FaultOrMemory::Fault(found)) => Err(fault(found.kind, bytes)),
    }
}
