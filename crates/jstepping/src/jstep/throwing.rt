ghost use Rattle.std.specs.Prelude.{◌≡◌, IfOk, OnOk, Some, length, slice_get};
ghost use Rattle.jresolution.specs.juses.IndexedInstructions as instructions;
ghost use Rattle.jrows.specs.jobjs.ReferenceBranches.{ref_in};
ghost use Rattle.jruntime.specs.jstate.ObjectCells.{StayCelled};
ghost use Rattle.jruntime.specs.jstate.FrameLists.{all};
ghost use Rattle.jruntime.specs.jstate.HeapMeanings.{AreBuilt};
ghost use Rattle.jrows.specs.jcalls.FrameMarks.{Stand};
ghost use Rattle.jserving.specs.jcells.ObjectEquivalence.{NamesNoMore};
ghost use Rattle.jstepping.specs.jstep.StepRelation.{Executes, IsFixed, StoodAs};
ghost use Rattle.jstepping.specs.jstep.HeapOperands.{ServesThrown};

use crate::jstep::laws::behind_laws;
use crate::jstep::outcomes::Stepped;
use crate::jstep::raising::{settle_raised, settle_thrown};
use crate::jstep::run_tables::RunTables;
use jlib::Thrown;
use jmemory::jheap::Heap;
use jrows::jcalls::Counts;
use jruntime::jstate::{Frames, heap_laws};
use jserving::jinvoke::MethodLookup;
use jserving::jserve::{Objects, thrown_serves};
use jvalues::jops::Value;
use std::alloc::{AllocError, Global};

/// The number of the reference that is the newest operand.
#[inline]
fn newest_ref<M: Copy>(frames: &Frames<M>) -> Option<u32>
    ensures { result ≡ ref_in (slice_get frames.now.newest.operands 0) }
{
    if frames.count() < 1 {
        return None;
    }
    match frames.operand(0) {
        Value::Int(_) => None,
        Value::Long(_) => None,
        Value::Ctx(_) => None,
        Value::Ref(n) => Some(n),
    }
}

/// Whether the newest operand is null, or an object that can be thrown.
#[inline]
fn serves<M: Copy>(
    frames: &Frames<M>,
    heap: &Heap,
    fixed: &RunTables<'_, '_, M>,
    counts: Counts,
) -> bool
    ensures { ServesThrown fixed.now.ancestors.now fixed.now.shapes.now counts heap.now frames.now.newest.operands result }
{
    let x = Objects {
        shapes: fixed.shapes,
        heap,
        counts,
    };
    thrown_serves(fixed.ancestors, &x, frames)
}

/// A step that throws (JVMS 6.5: athrow).
#[tactic(auto, using(crate::proofs::JstepProofs::ObjectPreservation::same_celled, crate::proofs::JstepProofs::ObjectPreservation::same_names, crate::proofs::JstepProofs::ObjectPreservation::same_celled_if, crate::proofs::JstepProofs::ObjectPreservation::same_names_if,),)]
pub(crate) fn step_throw<M: Copy>(
    alloc: Global,
    frames: &mut Frames<M>,
    heap: &mut Heap,
    fixed: &RunTables<'_, '_, M>,
    known: &MethodLookup<'_>,
    counts: Counts,
) -> Result<Stepped, AllocError>
    requires fixed { IsFixed known.now fixed.now }
    requires stand { Stand (length fixed.now.marks.now) (all frames.old) }
    requires built { AreBuilt heap.old.objects }
    ensures row { IfOk result (λ done. Executes known.now fixed.now counts (Some instructions.Throw) frames.old heap.old done frames.new heap.new) }
    ensures built { OnOk result (AreBuilt heap.new.objects) }
    ensures celled { OnOk result (StayCelled heap.old.objects heap.new.objects) }
    ensures alike { OnOk result (NamesNoMore heap.old.objects heap.new.objects) }
    ensures stand { IfOk result (λ done. StoodAs (length fixed.now.marks.now) done frames.new) }
{
    behind_laws::<M>();
    heap_laws();
    known.array_law();
    if !serves(frames, heap, fixed, counts) {
        return Ok(Stepped::Stuck);
    }
    let Some(n) = newest_ref(frames) else {
        return Ok(Stepped::Stuck);
    };
    if n == 0 {
        return settle_raised(
            alloc,
            frames,
            heap,
            Thrown::NullPointerException,
            fixed.marks,
            known,
        );
    }
    settle_thrown(frames, heap, n, fixed.marks, known)
}
