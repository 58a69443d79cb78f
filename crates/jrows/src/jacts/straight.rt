ghost use Rattle.std.specs.Prelude.{◌≡◌, ◌<◌, ◌≤◌, ◌+◌, ◌^◌, ◌∷◌, [], IfOk, OnOk, drop, length};
ghost use Rattle.jresolution.specs.juses.IndexedInstructions as instructions;
ghost use Rattle.jparts.specs.declared.jcode.op_form.Simple.TheVariants as simples;
ghost use Rattle.jvalues.specs.declared.jops.value.Value.TheVariants as values;
ghost use Rattle.jsemantics.specs.jmachine.FrameOperations.{onward, standing};
ghost use Rattle.jruntime.specs.jstate.FrameLists.{with_newest};
ghost use Rattle.jrows.specs.jacts.RowOutcomes.{Does, Rests};
ghost use Rattle.jrows.specs.declared.jacts.way.Way.TheVariants as ways;

use crate::jacts::ops::{division_of, one_of, two_of};
use crate::jacts::way::Way;
use jlib::{LibClass, Thrown};
use jparts::jcode::Simple;
use jruntime::jstate::Frames;
use jvalues::jnames::{Division, OpOne, OpTwo};
use jvalues::jops::Value;
use std::alloc::AllocError;

/// The frame goes on behind its instruction with one more operand.
#[inline]
pub(crate) fn give<M: Copy>(frames: &mut Frames<M>, value: Value) -> Result<(), AllocError>
    requires { frames.old.newest.place + 1 < 2 ^ 32 }
    ensures { OnOk result (frames.new ≡ with_newest (onward frames.old.newest (value ∷ [])) frames.old) }
{
    frames.push(value)?;
    frames.go_on();
    Ok(())
}

/// The frame goes on behind its instruction with an operand in the place of so many. They are there, and it is at least one.
#[inline]
pub(crate) fn give_for<M: Copy>(frames: &mut Frames<M>, n: usize, value: Value)
    requires place { frames.old.newest.place + 1 < 2 ^ 32 }
    requires some { 0 < n }
    requires few { n ≤ length frames.old.newest.operands }
    ensures { frames.new ≡ with_newest
        (standing frames.old.newest (frames.old.newest.place + 1) (value ∷ drop n frames.old.newest.operands)) frames.old }
{
    frames.replace(n, value);
    frames.go_on();
}

/// The frame goes on with one more operand.
#[inline]
pub(crate) fn push<M: Copy>(frames: &mut Frames<M>, value: Value) -> Result<Way, AllocError>
    requires { frames.old.newest.place + 1 < 2 ^ 32 }
    ensures way { IfOk result (λ way. way ≡ ways.Went) }
    ensures frames { OnOk result (frames.new ≡ with_newest (onward frames.old.newest (value ∷ [])) frames.old) }
{
    give(frames, value)?;
    Ok(Way::Went)
}

#[inline]
fn push_int<M: Copy>(frames: &mut Frames<M>, n: i32) -> Result<Way, AllocError>
    requires { frames.old.newest.place + 1 < 2 ^ 32 }
    ensures way { IfOk result (λ way. way ≡ ways.Went) }
    ensures frames { OnOk result (frames.new ≡ with_newest (onward frames.old.newest (values.Int n ∷ [])) frames.old) }
{
    push(frames, Value::Int(n))
}

#[inline]
fn push_long<M: Copy>(frames: &mut Frames<M>, n: i64) -> Result<Way, AllocError>
    requires { frames.old.newest.place + 1 < 2 ^ 32 }
    ensures way { IfOk result (λ way. way ≡ ways.Went) }
    ensures frames { OnOk result (frames.new ≡ with_newest (onward frames.old.newest (values.Long n ∷ [])) frames.old) }
{
    push(frames, Value::Long(n))
}

#[inline]
#[tactic(auto, using(crate::proofs::JactsProofs::OperandInstructions::two_done, crate::proofs::JactsProofs::OperandInstructions::two_stuck, crate::proofs::JactsProofs::OperandInstructions::two_short,),)]
fn compute_two<M: Copy>(frames: &mut Frames<M>, op: OpTwo) -> Way
    requires { frames.old.newest.place + 1 < 2 ^ 32 }
    ensures row { Does (instructions.Simple (simples.Two op)) frames.old.newest result frames.new.newest }
    ensures below { frames.new.below ≡ frames.old.below }
    ensures rests { Rests result frames.old frames.new }
{
    if frames.count() < 2 {
        return Way::Stuck;
    }
    match two_of(op, frames.operand(1), frames.operand(0)) {
        None => Way::Stuck,
        Some(value) => {
            give_for(frames, 2, value);
            Way::Went
        }
    }
}

#[inline]
#[tactic(auto, using(crate::proofs::JactsProofs::OperandInstructions::one_done, crate::proofs::JactsProofs::OperandInstructions::one_stuck, crate::proofs::JactsProofs::OperandInstructions::one_short,),)]
fn compute_one<M: Copy>(frames: &mut Frames<M>, op: OpOne) -> Way
    requires { frames.old.newest.place + 1 < 2 ^ 32 }
    ensures row { Does (instructions.Simple (simples.One op)) frames.old.newest result frames.new.newest }
    ensures below { frames.new.below ≡ frames.old.below }
    ensures rests { Rests result frames.old frames.new }
{
    if frames.count() < 1 {
        return Way::Stuck;
    }
    match one_of(op, frames.operand(0)) {
        None => Way::Stuck,
        Some(value) => {
            give_for(frames, 1, value);
            Way::Went
        }
    }
}

#[inline]
#[tactic(auto, using(crate::proofs::JactsProofs::OperandInstructions::divided, crate::proofs::JactsProofs::OperandInstructions::by_zero, crate::proofs::JactsProofs::OperandInstructions::division_stuck, crate::proofs::JactsProofs::OperandInstructions::division_short,),)]
fn divide<M: Copy>(frames: &mut Frames<M>, op: Division) -> Way
    requires { frames.old.newest.place + 1 < 2 ^ 32 }
    ensures row { Does (instructions.Simple (simples.Divide op)) frames.old.newest result frames.new.newest }
    ensures below { frames.new.below ≡ frames.old.below }
    ensures rests { Rests result frames.old frames.new }
{
    if frames.count() < 2 {
        return Way::Stuck;
    }
    match division_of(op, frames.operand(1), frames.operand(0)) {
        None => Way::Stuck,
        Some(Ok(value)) => {
            give_for(frames, 2, value);
            Way::Went
        }
        Some(Err(_)) => Way::Raises(LibClass::Thrown(Thrown::ArithmeticException)),
    }
}

/// An instruction that pushes a number or null, or computes with numbers (JVMS 6.5). A division by 0 raises an exception.
#[inline]
#[tactic(auto, using(crate::proofs::JactsProofs::OperandInstructions::nothing_done, crate::proofs::JactsProofs::OperandInstructions::null_done, crate::proofs::JactsProofs::OperandInstructions::int_done, crate::proofs::JactsProofs::OperandInstructions::long_done,),)]
pub fn simple<M: Copy>(frames: &mut Frames<M>, form: Simple) -> Result<Way, AllocError>
    requires { frames.old.newest.place + 1 < 2 ^ 32 }
    ensures row { IfOk result (λ way. Does (instructions.Simple form) frames.old.newest way frames.new.newest) }
    ensures below { OnOk result (frames.new.below ≡ frames.old.below) }
    ensures rests { IfOk result (λ way. Rests way frames.old frames.new) }
{
    match form {
        Simple::Nothing => {
            frames.go_on();
            Ok(Way::Went)
        }
        Simple::Null => push(frames, Value::Ref(0)),
        Simple::Int(n) => push_int(frames, n),
        Simple::Long(n) => push_long(frames, n),
        Simple::Two(op) => Ok(compute_two(frames, op)),
        Simple::Divide(op) => Ok(divide(frames, op)),
        Simple::One(op) => Ok(compute_one(frames, op)),
    }
}
