ghost use Rattle.std.specs.Prelude.{◌≡◌, ◌<◌, ◌≤◌, ◌^◌, length};
ghost use Rattle.jparts.specs.jcode.OperandFormats.{array_type, lookup_switch, table_switch, wide};
ghost use Rattle.jparts.specs.declared.jcode.op.Op.TheVariants as ops;
ghost use Rattle.jparts.specs.jcode.Instructions.{behind, size};

use crate::jcode::names::{Access, ArrayType, LocalKind};
use crate::jcode::op::{
    Goto, IntConst, Ldc, LocalOp, LookupSwitch, NewOp, Op, Switch, TableSwitch, Wide,
};

fn table_size(at: u32, switch: &TableSwitch) -> u32
    requires { length ((table_switch at).spell switch.now) < 2 ^ 32 }
    ensures { result ≡ length ((table_switch at).spell switch.now) }
{
    (3 - at % 4) + (12 + 4 * switch.branches.as_slice().len() as u32)
}

fn lookup_size(at: u32, switch: &LookupSwitch) -> u32
    requires { length ((lookup_switch at).spell switch.now) < 2 ^ 32 }
    ensures { result ≡ length ((lookup_switch at).spell switch.now) }
{
    (3 - at % 4) + (8 + 8 * switch.cases.as_slice().len() as u32)
}

#[tactic(auto, using(crate::proofs::JcodeProofs::OpcodeRows::switch_rows))]
fn switch_size(at: u32, switch: &Switch) -> u32
    requires { length (behind at (ops.Switch switch.now)) < 2 ^ 32 }
    ensures { result ≡ length (behind at (ops.Switch switch.now)) }
{
    match switch {
        Switch::Table(table) => table_size(at, table),
        Switch::Lookup(lookup) => lookup_size(at, lookup),
    }
}

/// The number of bytes behind an instruction's opcode.
#[tactic(auto, using(crate::proofs::JcodeProofs::OpcodeRows::rows), unfolding(crate::specs::jcode::OperandFormats::interface_call))]
fn size_behind(at: u32, op: &Op) -> u32
    requires { length (behind at op.now) < 2 ^ 32 }
    ensures { result ≡ length (behind at op.now) }
{
    match op {
        Op::IntConst(IntConst::Byte(_)) => 1,
        Op::IntConst(IntConst::Short(_)) => 2,
        Op::Ldc(Ldc::Narrow(_)) => 1,
        Op::Ldc(Ldc::Wide(_)) => 2,
        Op::Ldc2(_) => 2,
        Op::IntLocal(LocalOp::At(_, _)) => 1,
        Op::LongLocal(LocalOp::At(_, _)) => 1,
        Op::RefLocal(LocalOp::At(_, _)) => 1,
        Op::Iinc(_, _) => 2,
        Op::If(_, _) => 2,
        Op::IfInt(_, _) => 2,
        Op::IfRef(_, _) => 2,
        Op::Goto(Goto::Narrow(_)) => 2,
        Op::Goto(Goto::Wide(_)) => 4,
        Op::Switch(switch) => switch_size(at, switch.get()),
        Op::Field(_, _) => 2,
        Op::Call(_, _) => 2,
        Op::CallInterface(_, _) => 4,
        Op::New(NewOp::Object(_)) => 2,
        Op::New(NewOp::Array(element)) => array_type_size(*element),
        Op::New(NewOp::RefArray(_)) => 2,
        Op::Cast(_, _) => 2,
        Op::Wide(op) => wide_size(*op),
        Op::Nop
        | Op::AconstNull
        | Op::IntConst(IntConst::Small(_))
        | Op::LongConst(_)
        | Op::IntLocal(LocalOp::Slot(_, _))
        | Op::LongLocal(LocalOp::Slot(_, _))
        | Op::RefLocal(LocalOp::Slot(_, _))
        | Op::ArrayLoad(_)
        | Op::ArrayStore(_)
        | Op::Stack(_)
        | Op::Two(_)
        | Op::Divide(_)
        | Op::One(_)
        | Op::Return(_)
        | Op::Object(_) => 0,
    }
}

#[tactic(auto, unfolding(crate::specs::jcode::OperandFormats::array_type))]
fn array_type_size(element: ArrayType) -> u32
    ensures { result ≡ length (array_type.spell element) }
{
    match element {
        ArrayType::Boolean => 1,
        ArrayType::Char => 1,
        ArrayType::Byte => 1,
        ArrayType::Short => 1,
        ArrayType::Int => 1,
        ArrayType::Long => 1,
    }
}

#[tactic(auto, unfolding(crate::specs::jcode::OperandFormats::wide))]
fn wide_size(op: Wide) -> u32
    ensures { result ≡ length (wide.spell op) }
{
    match op {
        Wide::Local(LocalKind::Int, Access::Load, _) => 3,
        Wide::Local(LocalKind::Long, Access::Load, _) => 3,
        Wide::Local(LocalKind::Ref, Access::Load, _) => 3,
        Wide::Local(LocalKind::Int, Access::Store, _) => 3,
        Wide::Local(LocalKind::Long, Access::Store, _) => 3,
        Wide::Local(LocalKind::Ref, Access::Store, _) => 3,
        Wide::Iinc(_, _) => 5,
    }
}

/// The number of bytes of an instruction at a place, its padding included.
#[tactic(auto, unfolding(crate::specs::jcode::Instructions::size, crate::specs::jcode::Instructions::instruction))]
pub fn size_at(op: &Op, at: u32) -> u32
    requires { size at op.now ≤ 0xffff_ffff }
    ensures { result ≡ size at op.now }
{
    1 + size_behind(at, op)
}
