ghost use Rattle.std.specs.Prelude.{◌≡◌, ◌<◌, ◌+◌, ◌^◌};
ghost use Rattle.jparts.specs.declared.jcode.names.Element.TheVariants as items;
ghost use Rattle.jparts.specs.declared.jcode.op_form.ArrayForm.TheVariants as forms;
ghost use Rattle.jresolution.specs.juses.IndexedInstructions as instructions;
ghost use Rattle.jruntime.specs.jstate.ObjectCells.{AreCelled};
ghost use Rattle.jruntime.specs.jstate.HeapMeanings.{AreBuilt};
ghost use Rattle.jrows.specs.jobjs.RowFrames.{Stays};
ghost use Rattle.jstepping.specs.jrefs.RowInvariance.{SeenActs};
ghost use Rattle.jrows.specs.jacts.RowOutcomes.{Rests};

use crate::jrefs::lasting::Lasting;
use crate::jrefs::serving::{holds_stored, serves_store};
use jmemory::jheap::Heap;
use jrows::jacts::Way;
use jrows::jcalls::Counts;
use jrows::jobjs::store_ref;
use jruntime::jstate::Frames;

/// A store of a reference into an array (JVMS 6.5: aastore).
#[inline]
pub(crate) fn store<M: Copy>(
    frames: &mut Frames<M>,
    heap: &mut Heap,
    x: &Lasting<'_, '_>,
    counts: Counts,
) -> Way
    requires place { frames.old.newest.place + 1 < 2 ^ 32 }
    requires built { AreBuilt heap.old.objects }
    requires celled { AreCelled x.now.shapes.now heap.old.objects }
    ensures row { SeenActs x.now counts (instructions.Array (forms.Store items.Ref)) frames.old.newest heap.old result frames.new.newest heap.new }
    ensures stays { Stays result frames.old.newest frames.new.newest }
    ensures below { frames.new.below ≡ frames.old.below }
    ensures rests { Rests result frames.old frames.new }
    ensures kept { Rests result heap.old heap.new }
    ensures built { AreBuilt heap.new.objects }
    ensures celled { AreCelled x.now.shapes.now heap.new.objects }
{
    let serve = serves_store(frames, heap, x, counts);
    let is = holds_stored(frames, heap, x, counts);
    store_ref(frames, heap, serve, is)
}
