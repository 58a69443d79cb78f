ghost use Rattle.std.specs.Prelude.{◌≡◌, ◌<◌, ◌+◌, ◌^◌, ℕ, IfOk, List, OnOk, length};
ghost use Rattle.jruntime.specs.jstate.ObjectCells.{AreCelled};
ghost use Rattle.jruntime.specs.jstate.FrameLists.{all};
ghost use Rattle.jruntime.specs.jstate.HeapMeanings.{AreBuilt, Things};
ghost use Rattle.jrows.specs.jcalls.FrameMarks.{Stand};
ghost use Rattle.jrows.specs.jcalls.Readiness.{AreCounted};
ghost use Rattle.jstepping.specs.jrefs.ReferenceRows.{IsHere, IsLasting};
ghost use Rattle.jstepping.specs.jstep.StepRelation.{IsFixed, StepsAlike, StoodAs};
ghost use Rattle.jcalling.specs.jexecute.FrameSteps.{Advances, Fetches, lasting_by};

use jmemory::jheap::Heap;
use jready::Instr;
use jrows::jcalls::Counts;
use jruntime::jstate::Frames;
use jserving::jinvoke::{MethodLookup, step_laws};
use jstepping::jrefs::Lasting;
use jstepping::jstep::{RunTables, Stepped, behind_laws, settle};
use std::alloc::{AllocError, Global};

/// A step with references.
pub(crate) fn step_refs<M: Copy>(
    alloc: Global,
    frames: &mut Frames<M>,
    heap: &mut Heap,
    fixed: &RunTables<'_, '_, M>,
    known: &MethodLookup<'_>,
    counts: Counts,
    one: Instr,
) -> Result<Stepped, AllocError>
    requires fixed { IsFixed known.now fixed.now }
    requires lasting { IsLasting (lasting_by fixed.now) }
    requires here { IsHere one }
    requires fetches { Fetches known.now fixed.now frames.old.newest one }
    requires stand { Stand (length fixed.now.marks.now) (all frames.old) }
    requires built { AreBuilt heap.old.objects }
    requires celled { AreCelled fixed.now.shapes.now heap.old.objects }
    ensures row { IfOk result (λ done. (constants : List (List ℕ × ℕ)) → Advances known.now fixed.now counts
        constants frames.old heap.old done constants frames.new heap.new) }
    ensures stand { IfOk result (λ done. StoodAs (length fixed.now.marks.now) done frames.new) }
    ensures built { OnOk result (AreBuilt heap.new.objects) }
    ensures celled { OnOk result (AreCelled fixed.now.shapes.now heap.new.objects) }
    ensures alike { IfOk result (λ done. (things : Things) → AreCounted counts things
        → StepsAlike known.now fixed.now.shapes.now things done heap.old.objects heap.new.objects) }
{
    step_laws::<M>();
    behind_laws::<M>();
    let x = Lasting {
        ready: fixed.ready,
        shapes: fixed.shapes,
        ancestors: fixed.ancestors,
    };
    let way = jstepping::jrefs::run(alloc, frames, heap, &x, counts, one)?;
    settle(alloc, frames, heap, way, fixed.marks, known)
}
