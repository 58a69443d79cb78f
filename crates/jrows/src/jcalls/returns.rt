ghost use Rattle.std.specs.Prelude.{◌≡◌, ◌<◌, ◌+◌, ◌++◌, ◌^◌, IfOk, OnOk, Some, length};
ghost use Rattle.std.specs.Option.{option_to_list};
ghost use Rattle.jvalues.specs.declared.jnames.kinds.Kinds.TheVariants as many;
ghost use Rattle.jparts.specs.declared.jcode.names.Returned.{Returned};
ghost use Rattle.jparts.specs.declared.jcode.names.Returned.TheVariants as kinds;
ghost use Rattle.jparts.specs.jcode.InstructionForms.{returned};
ghost use Rattle.jrows.specs.jcalls.FrameMarks.{Stand, resumed_by};
ghost use Rattle.jrows.specs.jcalls.Returns.{IsNumber, Leaves, Returns, ReturnsRef, StaysStanding};

use crate::jcalls::marks::unmark;
use crate::jcalls::ready::{Counts, is_reference};
use jmemory::jheap::Heap;
use jruntime::jstate::{Frames, heap_laws};
use jvalues::jnames::Kind;
use jvalues::jops::Value;
use std::alloc::AllocError;

/// What a return came to.
#[derive(Clone, Copy, Debug, PartialEq, Eq)]
pub enum Leaving {
    /// The frame below goes on behind its call, and is the newest.
    Resumed,
    /// It was the last frame of its thread, which has ended.
    Ends,
    /// What is to be returned isn't there: the state has no step.
    Stuck,
}

/// The newest frame goes on behind its call.
#[inline]
fn go_behind<M: Copy>(frames: &mut Frames<M>, marks: &[M])
    requires class { frames.old.newest.method.class < length marks.now }
    requires place { frames.old.newest.place + 1 < 2 ^ 32 }
    ensures { Some frames.new ≡ resumed_by marks.now frames.old (frames.old.newest.place + 1) frames.old.newest.operands }
{
    frames.go_on();
    unmark(frames, marks);
}

/// The newest frame goes on behind its call, with what its callee returned.
#[inline]
fn resume<M: Copy>(
    frames: &mut Frames<M>,
    marks: &[M],
    value: Option<Value>,
) -> Result<(), AllocError>
    requires class { frames.old.newest.method.class < length marks.now }
    requires place { frames.old.newest.place + 1 < 2 ^ 32 }
    ensures { OnOk result (Some frames.new
        ≡ resumed_by marks.now frames.old (frames.old.newest.place + 1) (option_to_list value ++ frames.old.newest.operands)) }
{
    match value {
        None => {
            go_behind(frames, marks);
            Ok(())
        }
        Some(given) => {
            frames.push(given)?;
            go_behind(frames, marks);
            Ok(())
        }
    }
}

/// The newest frame goes, and the one below goes on behind its call.
#[inline]
#[tactic(auto, using(crate::proofs::JcallsProofs::MethodReturns::ended_so, crate::proofs::JcallsProofs::FrameStability::last_stands, crate::proofs::JcallsProofs::FrameStability::resumed_stands,),)]
fn leave<M: Copy>(
    frames: &mut Frames<M>,
    marks: &[M],
    value: Option<Value>,
) -> Result<Leaving, AllocError>
    requires { Stand (length marks.now) frames.old.below }
    ensures row { IfOk result (λ way. Leaves (option_to_list value) marks.now frames.old way frames.new) }
    ensures stand { OnOk result (StaysStanding frames.old frames.new) }
{
    if !frames.leave() {
        return Ok(Leaving::Ends);
    }
    resume(frames, marks, value)?;
    Ok(Leaving::Resumed)
}

/// A return of nothing (JVMS 6.5: return). The frame below goes on behind its call and carries what those of its class do, by
/// `marks`. Where there is none below, the thread has ended, and its frames are not to be used.
#[inline]
pub fn return_nothing<M: Copy>(frames: &mut Frames<M>, marks: &[M]) -> Result<Leaving, AllocError>
    requires { Stand (length marks.now) frames.old.below }
    ensures row { IfOk result (λ way. Returns kinds.Nothing marks.now frames.old way frames.new) }
    ensures stand { OnOk result (StaysStanding frames.old frames.new) }
{
    leave(frames, marks, None)
}

/// A return of a number of a kind.
#[inline]
#[tactic(auto, using(crate::proofs::JcallsProofs::MethodReturns::number_short, crate::proofs::JcallsProofs::MethodReturns::number_other))]
fn return_number<M: Copy>(
    frames: &mut Frames<M>,
    marks: &[M],
    kind: Kind,
) -> Result<Leaving, AllocError>
    requires number { IsNumber kind }
    requires stand { Stand (length marks.now) frames.old.below }
    ensures row { IfOk result (λ way. (what : Returned) → returned what ≡ many.One kind → Returns what marks.now frames.old way frames.new) }
    ensures stand { OnOk result (StaysStanding frames.old frames.new) }
{
    if frames.count() < 1 {
        return Ok(Leaving::Stuck);
    }
    let value = frames.operand(0);
    if !value.is_of(kind) {
        return Ok(Leaving::Stuck);
    }
    leave(frames, marks, Some(value))
}

/// A return of an int (JVMS 6.5: ireturn), as one of nothing.
#[inline]
pub fn return_int<M: Copy>(frames: &mut Frames<M>, marks: &[M]) -> Result<Leaving, AllocError>
    requires { Stand (length marks.now) frames.old.below }
    ensures row { IfOk result (λ way. Returns kinds.Int marks.now frames.old way frames.new) }
    ensures stand { OnOk result (StaysStanding frames.old frames.new) }
{
    return_number(frames, marks, Kind::Int)
}

/// A return of a long (JVMS 6.5: lreturn), as one of nothing.
#[inline]
pub fn return_long<M: Copy>(frames: &mut Frames<M>, marks: &[M]) -> Result<Leaving, AllocError>
    requires { Stand (length marks.now) frames.old.below }
    ensures row { IfOk result (λ way. Returns kinds.Long marks.now frames.old way frames.new) }
    ensures stand { OnOk result (StaysStanding frames.old frames.new) }
{
    return_number(frames, marks, Kind::Long)
}

/// A return of a reference (JVMS 6.5: areturn), as one of nothing: to an object of a heap that may be used, or null.
#[inline]
#[tactic(auto, using(crate::proofs::JcallsProofs::MethodReturns::reference_short))]
pub fn return_ref<M: Copy>(
    frames: &mut Frames<M>,
    marks: &[M],
    heap: &Heap,
    counts: Counts,
) -> Result<Leaving, AllocError>
    requires { Stand (length marks.now) frames.old.below }
    ensures row { IfOk result (λ way. ReturnsRef heap.now counts marks.now frames.old way frames.new) }
    ensures stand { OnOk result (StaysStanding frames.old frames.new) }
{
    heap_laws();
    if frames.count() < 1 {
        return Ok(Leaving::Stuck);
    }
    let value = frames.operand(0);
    if !is_reference(heap, value, counts) {
        return Ok(Leaving::Stuck);
    }
    leave(frames, marks, Some(value))
}
