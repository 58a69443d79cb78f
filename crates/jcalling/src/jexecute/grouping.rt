ghost use Rattle.std.specs.Prelude.{ℕ};
ghost use Rattle.jready.specs.declared.instr.ArrayInstr.TheVariants as arrays;
ghost use Rattle.jready.specs.declared.instr.FlowInstr.TheVariants as flows;
ghost use Rattle.jready.specs.declared.instr.Instr.TheVariants as instrs;
ghost use Rattle.jcalling.specs.jexecute.FrameSteps.{IsOf};

use jparts::jcode::Element;
use jready::{ArrayInstr, FlowInstr, Instr, Push};
use jresolution::juses::Condition;

/// Where the row of an instruction is found.
#[derive(Clone, Copy, Debug, PartialEq, Eq)]
pub enum Group {
    /// There is none.
    Off,
    /// It loads a string constant, whose text stands at an index.
    Text(u16),
    /// It is one with references.
    References,
    /// Any other: one with numbers, a return, a call or a throw.
    Others,
}

/// The group of an instruction that pushes a constant of the pool.
#[inline]
fn push_group(f: Push) -> Group
    ensures { IsOf (instrs.Push f) result }
{
    match f {
        Push::Int(_) => Group::Others,
        Push::Long(_) => Group::Others,
        Push::Text(index) => Group::Text(index),
    }
}

/// That of a branch.
#[inline]
fn jump_group(when: Condition) -> Group
    ensures { (to : ℕ) → IsOf (instrs.Flow (flows.Jump when to)) result }
{
    match when {
        Condition::Always => Group::Others,
        Condition::If(_) => Group::Others,
        Condition::IfInt(_) => Group::Others,
        Condition::IfRef(_) => Group::References,
    }
}

/// That of one that says where the method goes on.
#[inline]
fn flow_group(f: FlowInstr) -> Group
    ensures { IsOf (instrs.Flow f) result }
{
    match f {
        FlowInstr::Jump(when, _) => jump_group(when),
        FlowInstr::Return(_) => Group::Others,
        FlowInstr::Throw => Group::Others,
    }
}

/// That of a store into an array.
#[inline]
fn store_group(e: Element) -> Group
    ensures { IsOf (instrs.Array (arrays.Store e)) result }
{
    match e {
        Element::Int => Group::Others,
        Element::Long => Group::Others,
        Element::Ref => Group::References,
        Element::Byte => Group::Others,
        Element::Char => Group::Others,
        Element::Short => Group::Others,
    }
}

/// That of one with an array.
#[inline]
fn array_group(f: ArrayInstr) -> Group
    ensures { IsOf (instrs.Array f) result }
{
    match f {
        ArrayInstr::New(_) => Group::Others,
        ArrayInstr::Load(_) => Group::Others,
        ArrayInstr::Store(e) => store_group(e),
        ArrayInstr::Length => Group::Others,
    }
}

/// The group of an instruction.
#[inline]
pub(crate) fn group_of(one: Instr) -> Group
    ensures { IsOf one result }
{
    match one {
        Instr::Off => Group::Off,
        Instr::Plain(_) => Group::Others,
        Instr::Push(f) => push_group(f),
        Instr::Local(_) => Group::Others,
        Instr::Stack(_) => Group::Others,
        Instr::Flow(f) => flow_group(f),
        Instr::Table(_) => Group::Others,
        Instr::Lookup(_) => Group::Others,
        Instr::Array(f) => array_group(f),
        Instr::Object(_) => Group::References,
        Instr::Field { .. } => Group::References,
        Instr::Call { .. } => Group::Others,
        Instr::Library { .. } => Group::Others,
    }
}
