ghost use Rattle.std.specs.Prelude.{◌≡◌, ◌≤◌, ◌<◌, ◌+◌, ◌^◌, ◌∷◌, [], Some, IfOk, OnOk, drop, length, true};
ghost use Rattle.jsemantics.specs.jmachine.FrameOperations.{onward};
ghost use Rattle.jresolution.specs.jprogram.ProgramClasses.{Program};
ghost use Rattle.jruntime.specs.declared.jstate.shapes.Shapes.{Shapes};
ghost use Rattle.jruntime.specs.jstate.ObjectCells.{StayCelled};
ghost use Rattle.jruntime.specs.jstate.FrameLists.{holding, with_newest};
ghost use Rattle.jruntime.specs.jstate.HeapMeanings.{AreBuilt, Things, place_in};
ghost use Rattle.jrows.specs.jcalls.Throws.{LeavesStanding};
ghost use Rattle.jlibcalls.specs.jcontexts.KeptContexts.{AreKept, IsKeptAt, StayHeld, with_kept};
ghost use Rattle.jlibcalls.specs.jcontexts.Snapshots.{MakesContext, Snapshots};

use jground::jbase::Seq;
use jlib::LibClass;
use jmemory::jheap::{Heap, Kind};
use jruntime::jstate::{Frames, built_laws, celled_laws, heap_laws, library_number};
use jvalues::jops::Value;
use std::alloc::{AllocError, Global};

/// Whether a number is the last of those that are kept.
#[tactic(auto, using(crate::proofs::JcontextsProofs::SnapshotStability::last_is))]
fn is_last(kept: &[u64], number: u64) -> bool
    ensures { result ≡ true → place_in kept.now (length kept.now) ≡ Some number }
{
    let count = kept.len();
    if count == 0 {
        return false;
    }
    kept[count - 1] == number
}

/// The place, from 1, of a number among those that are kept, which it is put behind if it isn't the last of them.
#[tactic(auto, using(crate::proofs::JcontextsProofs::SnapshotStability::stays_there, crate::proofs::JcontextsProofs::SnapshotStability::stands_behind),)]
fn keep(kept: &mut Seq<u64>, number: u64) -> Result<u32, AllocError>
    ensures { IfOk result (λ place. IsKeptAt number kept.old place kept.new) }
{
    let count = kept.as_slice().len();
    if count >= 0xffff_ffff {
        return Err(AllocError);
    }
    if is_last(kept.as_slice(), number) {
        return Ok(count as u32);
    }
    kept.push(number)?;
    Ok(count as u32 + 1)
}

/// Makes an AccessControlContext that holds a place. The cells for it are left.
#[tactic(auto, using(crate::proofs::JcontextsProofs::ContextCreation::makings))]
fn make_context(alloc: Global, heap: &mut Heap, place: u32) -> Result<u32, AllocError>
    requires built { AreBuilt heap.old.objects }
    requires room { 2 ≤ heap.old.left }
    ensures made { IfOk result (λ o. MakesContext place heap.old o heap.new) }
    ensures built { OnOk result (AreBuilt heap.new.objects) }
    ensures celled { OnOk result (StayCelled heap.old.objects heap.new.objects) }
{
    heap_laws();
    built_laws();
    celled_laws();
    let number = library_number(LibClass::AccessControlContext);
    let Some(object) = heap.make(Kind::Object(number), 1) else {
        unreachable!()
    };
    heap.set_cell(object, 0, Value::Ref(place));
    Ok(object)
}

/// The frame goes on behind its call with a value in the place of so many operands.
pub(crate) fn give<M: Copy>(
    frames: &mut Frames<M>,
    count: usize,
    value: Value,
) -> Result<(), AllocError>
    requires few { count ≤ length frames.old.newest.operands }
    requires place { frames.old.newest.place + 1 < 2 ^ 32 }
    ensures { OnOk result
        (frames.new ≡ with_newest (onward (holding (drop count frames.old.newest.operands) frames.old).newest (value ∷ [])) frames.old) }
{
    frames.shrink(count);
    frames.push(value)?;
    frames.go_on();
    Ok(())
}

/// Makes an AccessControlContext that keeps a number, as getContext does, in the place of so many operands of its call. The answer is no
/// where the heap has too few cells for it, and then nothing has changed. After an error nothing is said.
#[tactic(auto, using(crate::proofs::JcontextsProofs::SnapshotStability::stay_kept, crate::proofs::JcontextsProofs::SnapshotOutcomes::snappings))]
pub fn snapshot<M: Copy>(
    alloc: Global,
    frames: &mut Frames<M>,
    heap: &mut Heap,
    kept: &mut Seq<u64>,
    number: u64,
    count: usize,
) -> Result<bool, AllocError>
    requires few { count ≤ length frames.old.newest.operands }
    requires place { frames.old.newest.place + 1 < 2 ^ 32 }
    requires built { AreBuilt heap.old.objects }
    ensures row { IfOk result (λ room. Snapshots number count frames.old kept.old heap.old room frames.new kept.new heap.new) }
    ensures kept { OnOk result ((p : Program) (shapes : Shapes) (things : Things) → things.kept ≡ kept.old → AreKept p shapes things heap.old.objects
        → AreKept p shapes (with_kept kept.new things) heap.new.objects) }
    ensures held { OnOk result (StayHeld heap.old.objects heap.new.objects) }
    ensures below { OnOk result (frames.new.below ≡ frames.old.below) }
    ensures stand { OnOk result (LeavesStanding frames.old frames.new) }
    ensures built { OnOk result (AreBuilt heap.new.objects) }
    ensures celled { OnOk result (StayCelled heap.old.objects heap.new.objects) }
{
    if heap.left() < 2 {
        return Ok(false);
    }
    let place = keep(kept, number)?;
    let object = make_context(alloc, heap, place)?;
    give(frames, count, Value::Ref(object))?;
    Ok(true)
}
