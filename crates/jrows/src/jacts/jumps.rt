ghost use Rattle.std.specs.Prelude.{◌≡◌, ◌<◌, ◌≤◌, ◌+◌, ◌^◌, ℤ, ℕ, List, Some, drop, length, slice_get};
ghost use Rattle.jvalues.specs.jops.Operations;
ghost use Rattle.jvalues.specs.declared.jops.value.Value.TheVariants as values;
ghost use Rattle.jresolution.specs.juses.IndexedInstructions as instructions;
ghost use Rattle.jsemantics.specs.jmachine.BasicInstructions.{case_of};
ghost use Rattle.jruntime.specs.jstate.FrameLists.{with_newest};
ghost use Rattle.jrows.specs.jacts.RowOutcomes.{Does, NoKey, Rests, branched, int_in};

use crate::jacts::way::Way;
use jruntime::jstate::Frames;
use jvalues::jnames::Compare;
use jvalues::jops::{Value, test};

/// Whether a comparison of two ints holds.
#[inline]
#[tactic(auto, using(crate::proofs::JactsProofs::JumpRows::compares))]
fn holds(c: Compare, x: i32, y: i32) -> bool
    ensures { Some result ≡ Operations.test {K = ℕ} c (values.Int x) (values.Int y) }
{
    test(c, Value::Int(x), Value::Int(y))
}

/// The int that stands at a place among the newest frame's operands, counted from the newest, where there is one.
#[inline]
pub fn int_at<M: Copy>(frames: &Frames<M>, i: usize) -> Option<i32>
    ensures { result ≡ int_in (slice_get frames.now.newest.operands i) }
{
    if i >= frames.count() {
        return None;
    }
    match frames.operand(i) {
        Value::Int(x) => Some(x),
        Value::Long(_) => None,
        Value::Ref(_) => None,
        Value::Ctx(_) => None,
    }
}

/// The frame loses so many operands, which are there. It goes on at a number where a test holds, else behind its instruction.
#[inline]
pub fn branch<M: Copy>(frames: &mut Frames<M>, n: usize, holds: bool, to: u32)
    requires place { frames.old.newest.place + 1 < 2 ^ 32 }
    requires few { n ≤ length frames.old.newest.operands }
    ensures { frames.new ≡ with_newest (branched holds to frames.old.newest (drop n frames.old.newest.operands)) frames.old }
{
    frames.shrink(n);
    if holds {
        frames.go_to(to);
    } else {
        frames.go_on();
    }
}

/// goto (JVMS 6.5): the frame goes on at a number.
#[inline]
#[tactic(auto, using(crate::proofs::JactsProofs::JumpRows::always))]
pub fn goto<M: Copy>(frames: &mut Frames<M>, to: u32) -> Way
    ensures row { Does (instructions.Jump instructions.Always to) frames.old.newest result frames.new.newest }
    ensures below { frames.new.below ≡ frames.old.below }
    ensures rests { Rests result frames.old frames.new }
{
    frames.go_to(to);
    Way::Went
}

/// A branch that tests an int against 0 (JVMS 6.5: ifeq to ifle).
#[inline]
#[tactic(auto, using(crate::proofs::JactsProofs::JumpRows::if_done, crate::proofs::JactsProofs::JumpRows::if_stuck, crate::proofs::JactsProofs::JumpRows::has_one,),)]
pub fn jump_if<M: Copy>(frames: &mut Frames<M>, c: Compare, to: u32) -> Way
    requires { frames.old.newest.place + 1 < 2 ^ 32 }
    ensures row { Does (instructions.Jump (instructions.If c) to) frames.old.newest result frames.new.newest }
    ensures below { frames.new.below ≡ frames.old.below }
    ensures rests { Rests result frames.old frames.new }
{
    let Some(x) = int_at(frames, 0) else {
        return Way::Stuck;
    };
    branch(frames, 1, holds(c, x, 0), to);
    Way::Went
}

/// A branch that compares two ints (JVMS 6.5: if_icmpeq to if_icmple).
#[inline]
#[tactic(auto, using(crate::proofs::JactsProofs::JumpRows::if_int_done, crate::proofs::JactsProofs::JumpRows::if_int_stuck, crate::proofs::JactsProofs::JumpRows::if_int_alone, crate::proofs::JactsProofs::JumpRows::has_two,),)]
pub fn jump_if_int<M: Copy>(frames: &mut Frames<M>, c: Compare, to: u32) -> Way
    requires { frames.old.newest.place + 1 < 2 ^ 32 }
    ensures row { Does (instructions.Jump (instructions.IfInt c) to) frames.old.newest result frames.new.newest }
    ensures below { frames.new.below ≡ frames.old.below }
    ensures rests { Rests result frames.old frames.new }
{
    let Some(y) = int_at(frames, 0) else {
        return Way::Stuck;
    };
    let Some(x) = int_at(frames, 1) else {
        return Way::Stuck;
    };
    branch(frames, 2, holds(c, x, y), to);
    Way::Went
}

/// The key that a switch looks for, where there is one.
#[inline]
pub fn switch_key<M: Copy>(frames: &Frames<M>) -> Option<i32>
    ensures key { result ≡ int_in (slice_get frames.now.newest.operands 0) }
{
    int_at(frames, 0)
}

/// A switch, which goes on at the number of its key (JVMS 6.5: tableswitch, lookupswitch).
#[inline]
#[tactic(auto, using(crate::proofs::JactsProofs::JumpRows::switched, crate::proofs::JactsProofs::JumpRows::has_one))]
pub fn switch<M: Copy>(frames: &mut Frames<M>, key: i32, to: u32) -> Way
    requires { Some key ≡ int_in (slice_get frames.old.newest.operands 0) }
    ensures row { (cases : List (ℤ × ℕ)) (other : ℕ) → to ≡ case_of key cases other
        → Does (instructions.Switch cases other) frames.old.newest result frames.new.newest }
    ensures below { frames.new.below ≡ frames.old.below }
    ensures rests { Rests result frames.old frames.new }
{
    frames.shrink(1);
    frames.go_to(to);
    Way::Went
}

/// A switch that finds no key has no step. It has no body to run; its contract is the law.
#[tactic(auto, using(crate::proofs::JactsProofs::JumpRows::no_key))]
pub fn switch_laws<M>()
    ensures { NoKey M }
{}
