ghost use Rattle.std.specs.Prelude.{◌≡◌, ◌++◌, ◌∷◌, IsTrue, OnOk};
ghost use Rattle.std.specs.Int.{to_be_bytes, w16};
ghost use Rattle.jparts.specs.jcode.OperandFormats.{array_type, bounded, case_behind, i4, interface_call, key_of, lookup_switch, padding, table_switch, wide};
ghost use Rattle.jparts.specs.declared.jcode.op.Op.TheVariants as ops;
ghost use Rattle.jparts.specs.jcode.Instructions.{behind, behind_fits, instruction};

use crate::jcode::names::{Access, ArrayType, LocalKind};
use crate::jcode::op::{
    Case, Goto, IntConst, Ldc, LocalOp, LookupSwitch, NewOp, Op, Switch, TableSwitch, Wide,
};
use crate::jcode::opcode::opcode_of;
use jground::jbase::Seq;
use jground::jformat::{
    StateWriter, Writer, put_by, put_each, put_i8, put_i16, put_i32, put_u8, put_u16, put_u32,
};
use std::alloc::{AllocError, Global};

/// Fills up a switch's opcode at a place to a multiple of four.
#[tactic(auto, unfolding(crate::specs::jcode::OperandFormats::nils))]
fn put_padding(at: u32, out: &mut Seq<u8>) -> Result<(), AllocError>
    ensures { OnOk result (out.new ≡ out.old ++ (padding at).spell tt) }
{
    match 3 - at % 4 {
        0 => Ok(()),
        1 => put_u8(0, out),
        2 => {
            put_u8(0, out)?;
            put_u8(0, out)
        }
        _ => {
            put_u8(0, out)?;
            put_u8(0, out)?;
            put_u8(0, out)
        }
    }
}

struct Branches;

impl Writer for Branches {
    type Item = i32;

    ghost spells = { λ _. i4.spell };

    ghost fits = { λ _. i4.fits };

    fn write(&self, _alloc: Global, item: &i32, out: &mut Seq<u8>) -> Result<(), AllocError> {
        put_i32(*item, out)
    }
}

#[tactic(auto, unfolding(crate::specs::jcode::OperandFormats::bounded))]
fn put_bounded(alloc: Global, switch: &TableSwitch, out: &mut Seq<u8>) -> Result<(), AllocError>
    requires { IsTrue (bounded.fits ((switch.now.low, switch.now.high), switch.now.branches)) }
    ensures { OnOk result (out.new ≡ out.old ++ bounded.spell ((switch.now.low, switch.now.high), switch.now.branches)) }
{
    put_i32(switch.low, out)?;
    put_i32(switch.high, out)?;
    put_each(alloc, &Branches, switch.branches.as_slice(), out)
}

#[tactic(auto, unfolding(crate::specs::jcode::OperandFormats::table_switch))]
fn put_table(
    alloc: Global,
    at: u32,
    switch: &TableSwitch,
    out: &mut Seq<u8>,
) -> Result<(), AllocError>
    requires { IsTrue ((table_switch at).fits switch.now) }
    ensures { OnOk result (out.new ≡ out.old ++ (table_switch at).spell switch.now) }
{
    put_padding(at, out)?;
    put_i32(switch.default, out)?;
    put_bounded(alloc, switch, out)
}

struct Cases;

impl StateWriter for Cases {
    type State = Option<i32>;

    type Item = Case;

    ghost spells = { λ _ before. (case_behind before).spell };

    ghost fits = { λ _ before. (case_behind before).fits };

    ghost goes_to = { λ _. key_of };

    fn write(
        &self,
        _alloc: Global,
        _before: Option<i32>,
        one: &Case,
        out: &mut Seq<u8>,
    ) -> Result<(), AllocError> {
        put_i32(one.key, out)?;
        put_i32(one.branch, out)
    }

    fn next(&self, _before: Option<i32>, one: &Case) -> Option<i32> {
        Some(one.key)
    }
}

#[tactic(auto, unfolding(crate::specs::jcode::OperandFormats::lookup_switch))]
fn put_lookup(
    alloc: Global,
    at: u32,
    switch: &LookupSwitch,
    out: &mut Seq<u8>,
) -> Result<(), AllocError>
    requires { IsTrue ((lookup_switch at).fits switch.now) }
    ensures { OnOk result (out.new ≡ out.old ++ (lookup_switch at).spell switch.now) }
{
    let cases = switch.cases.as_slice();
    put_padding(at, out)?;
    put_i32(switch.default, out)?;
    put_u32(cases.len() as u32, out)?;
    put_by(alloc, &Cases, None, cases, out)
}

#[tactic(auto, unfolding(crate::specs::jcode::OperandFormats::array_type))]
fn put_array_type(element: ArrayType, out: &mut Seq<u8>) -> Result<(), AllocError>
    ensures { OnOk result (out.new ≡ out.old ++ array_type.spell element) }
{
    match element {
        ArrayType::Boolean => put_u8(4, out),
        ArrayType::Char => put_u8(5, out),
        ArrayType::Byte => put_u8(8, out),
        ArrayType::Short => put_u8(9, out),
        ArrayType::Int => put_u8(10, out),
        ArrayType::Long => put_u8(11, out),
    }
}

#[tactic(auto, unfolding(crate::specs::jcode::OperandFormats::wide))]
fn put_wide(op: Wide, out: &mut Seq<u8>) -> Result<(), AllocError>
    ensures { OnOk result (out.new ≡ out.old ++ wide.spell op) }
{
    match op {
        Wide::Local(LocalKind::Int, Access::Load, n) => put_wide_local(0x15, n, out),
        Wide::Local(LocalKind::Long, Access::Load, n) => put_wide_local(0x16, n, out),
        Wide::Local(LocalKind::Ref, Access::Load, n) => put_wide_local(0x19, n, out),
        Wide::Local(LocalKind::Int, Access::Store, n) => put_wide_local(0x36, n, out),
        Wide::Local(LocalKind::Long, Access::Store, n) => put_wide_local(0x37, n, out),
        Wide::Local(LocalKind::Ref, Access::Store, n) => put_wide_local(0x3a, n, out),
        Wide::Iinc(n, by) => {
            put_u8(0x84, out)?;
            put_u16(n, out)?;
            put_i16(by, out)
        }
    }
}

fn put_wide_local(opcode: u8, n: u16, out: &mut Seq<u8>) -> Result<(), AllocError>
    ensures { OnOk result (out.new ≡ out.old ++ opcode ∷ to_be_bytes w16 n) }
{
    put_u8(opcode, out)?;
    put_u16(n, out)
}

#[tactic(auto, unfolding(crate::specs::jcode::OperandFormats::interface_call))]
fn put_interface_call(method: u16, slots: u8, out: &mut Seq<u8>) -> Result<(), AllocError>
    ensures { OnOk result (out.new ≡ out.old ++ interface_call.spell (method, slots)) }
{
    put_u16(method, out)?;
    put_u8(slots, out)?;
    put_u8(0, out)
}

#[tactic(auto, using(crate::proofs::JcodeProofs::OpcodeRows::switch_rows))]
fn put_switch(alloc: Global, at: u32, switch: &Switch, out: &mut Seq<u8>) -> Result<(), AllocError>
    requires { IsTrue (behind_fits at (ops.Switch switch.now)) }
    ensures { OnOk result (out.new ≡ out.old ++ behind at (ops.Switch switch.now)) }
{
    match switch {
        Switch::Table(table) => put_table(alloc, at, table, out),
        Switch::Lookup(lookup) => put_lookup(alloc, at, lookup, out),
    }
}

/// Writes what stands behind an instruction's opcode.
#[tactic(auto, using(crate::proofs::JcodeProofs::OpcodeRows::rows))]
fn put_operands(alloc: Global, at: u32, op: &Op, out: &mut Seq<u8>) -> Result<(), AllocError>
    requires { IsTrue (behind_fits at op.now) }
    ensures { OnOk result (out.new ≡ out.old ++ behind at op.now) }
{
    match op {
        Op::IntConst(IntConst::Byte(n)) => put_i8(*n, out),
        Op::IntConst(IntConst::Short(n)) => put_i16(*n, out),
        Op::Ldc(Ldc::Narrow(n)) => put_u8(*n, out),
        Op::Ldc(Ldc::Wide(n)) => put_u16(*n, out),
        Op::Ldc2(n) => put_u16(*n, out),
        Op::IntLocal(LocalOp::At(_, n)) => put_u8(*n, out),
        Op::LongLocal(LocalOp::At(_, n)) => put_u8(*n, out),
        Op::RefLocal(LocalOp::At(_, n)) => put_u8(*n, out),
        Op::Iinc(n, by) => {
            put_u8(*n, out)?;
            put_i8(*by, out)
        }
        Op::If(_, by) => put_i16(*by, out),
        Op::IfInt(_, by) => put_i16(*by, out),
        Op::IfRef(_, by) => put_i16(*by, out),
        Op::Goto(Goto::Narrow(by)) => put_i16(*by, out),
        Op::Goto(Goto::Wide(by)) => put_i32(*by, out),
        Op::Switch(switch) => put_switch(alloc, at, switch.get(), out),
        Op::Field(_, n) => put_u16(*n, out),
        Op::Call(_, n) => put_u16(*n, out),
        Op::CallInterface(method, slots) => put_interface_call(*method, *slots, out),
        Op::New(NewOp::Object(n)) => put_u16(*n, out),
        Op::New(NewOp::Array(element)) => put_array_type(*element, out),
        Op::New(NewOp::RefArray(n)) => put_u16(*n, out),
        Op::Cast(_, n) => put_u16(*n, out),
        Op::Wide(op) => put_wide(*op, out),
        Op::Nop
        | Op::AconstNull
        | Op::IntConst(IntConst::Small(_))
        | Op::LongConst(_)
        | Op::IntLocal(LocalOp::Slot(_, _))
        | Op::LongLocal(LocalOp::Slot(_, _))
        | Op::RefLocal(LocalOp::Slot(_, _))
        | Op::ArrayLoad(_)
        | Op::ArrayStore(_)
        | Op::Stack(_)
        | Op::Two(_)
        | Op::Divide(_)
        | Op::One(_)
        | Op::Return(_)
        | Op::Object(_) => Ok(()),
    }
}

/// Writes an instruction at a place.
#[tactic(auto, unfolding(crate::specs::jcode::Instructions::instruction))]
pub fn put_op(alloc: Global, at: u32, op: &Op, out: &mut Seq<u8>) -> Result<(), AllocError>
    requires { IsTrue ((instruction at).fits op.now) }
    ensures { OnOk result (out.new ≡ out.old ++ (instruction at).spell op.now) }
{
    put_u8(opcode_of(op), out)?;
    put_operands(alloc, at, op, out)
}
