ghost use Rattle.std.specs.Prelude.{◌≡◌, ◌<◌, ◌+◌, ◌^◌};
ghost use Rattle.jresolution.specs.juses.IndexedInstructions as instructions;
ghost use Rattle.jrows.specs.jobjs.RowFrames.{Stays};
ghost use Rattle.jstepping.specs.jrefs.RowInvariance.{SeenActs};
ghost use Rattle.jrows.specs.jacts.RowOutcomes.{Rests};

use crate::jrefs::lasting::Lasting;
use crate::jrefs::serving::serves_test;
use jmemory::jheap::Heap;
use jparts::jcode::RefTest;
use jrows::jacts::Way;
use jrows::jcalls::Counts;
use jrows::jobjs::{if_null, if_same};
use jruntime::jstate::Frames;

/// A branch that tests references (JVMS 6.5: ifnull, ifnonnull, if_acmpeq, if_acmpne).
#[inline]
pub(crate) fn branch<M: Copy>(
    frames: &mut Frames<M>,
    heap: &Heap,
    x: &Lasting<'_, '_>,
    counts: Counts,
    test: RefTest,
    to: u32,
) -> Way
    requires place { frames.old.newest.place + 1 < 2 ^ 32 }
    ensures row { SeenActs x.now counts
        (instructions.Jump (instructions.IfRef test) to) frames.old.newest heap.now result frames.new.newest heap.now }
    ensures stays { Stays result frames.old.newest frames.new.newest }
    ensures below { frames.new.below ≡ frames.old.below }
    ensures rests { Rests result frames.old frames.new }
{
    let serve = serves_test(frames, heap, x, counts, test);
    match test {
        RefTest::Null => if_null(frames, true, to, serve),
        RefTest::NonNull => if_null(frames, false, to, serve),
        RefTest::Same => if_same(frames, true, to, serve),
        RefTest::Other => if_same(frames, false, to, serve),
    }
}
