ghost use Rattle.std.specs.Prelude.{◌≡◌, IfOk, OnOk, Some, length};
ghost use Rattle.jresolution.specs.jprogram.ProgramClasses.{Program};
ghost use Rattle.jresolution.specs.juses.IndexedInstructions.{Return};
ghost use Rattle.jrows.specs.jcalls.FrameMarks.{Stand};
ghost use Rattle.jrows.specs.jcalls.Returns.{StaysStanding};
ghost use Rattle.jruntime.specs.jstate.FrameLists.{all};
ghost use Rattle.jstepping.specs.jstep.StepRelation.{Executes, ReturnsAs, StoodAs};

use crate::jstep::outcomes::{Stepped, left_of};
use crate::jstep::run_tables::RunTables;
use jmemory::jheap::Heap;
use jparts::jcode::Returned;
use jrows::jcalls::{Counts, Leaving, return_int, return_long, return_nothing, return_ref};
use jruntime::jstate::Frames;
use std::alloc::AllocError;

/// A return of a kind (JVMS 6.5: ireturn, lreturn, areturn, return).
#[inline]
fn return_kind<M: Copy>(
    frames: &mut Frames<M>,
    heap: &Heap,
    marks: &[M],
    counts: Counts,
    kind: Returned,
) -> Result<Leaving, AllocError>
    requires { Stand (length marks.now) frames.old.below }
    ensures row { IfOk result (λ way. ReturnsAs kind heap.now counts marks.now frames.old way frames.new) }
    ensures stand { OnOk result (StaysStanding frames.old frames.new) }
{
    match kind {
        Returned::Int => return_int(frames, marks),
        Returned::Long => return_long(frames, marks),
        Returned::Ref => return_ref(frames, marks, heap, counts),
        Returned::Nothing => return_nothing(frames, marks),
    }
}

/// A step that returns from a method.
#[inline]
pub(crate) fn step_return<M: Copy>(
    frames: &mut Frames<M>,
    heap: &Heap,
    fixed: &RunTables<'_, '_, M>,
    counts: Counts,
    kind: Returned,
) -> Result<Stepped, AllocError>
    requires stand { Stand (length fixed.now.marks.now) (all frames.old) }
    ensures row { (p : Program)
        → IfOk result (λ done. Executes p fixed.now counts (Some (Return kind)) frames.old heap.now done frames.new heap.now) }
    ensures stand { IfOk result (λ done. StoodAs (length fixed.now.marks.now) done frames.new) }
{
    let way = return_kind(frames, heap, fixed.marks, counts, kind)?;
    Ok(left_of(way))
}
