ghost use Rattle.std.specs.Prelude.{◌≡◌, ◌<◌, ◌+◌, ◌^◌, None, Some};
ghost use Rattle.jparts.specs.declared.jcode.op_form.PoolForm.TheVariants as forms;
ghost use Rattle.jresolution.specs.juses.IndexedInstructions as instructions;
ghost use Rattle.jresolution.specs.juses.InstructionMeanings as meanings;
ghost use Rattle.jresolution.specs.juses.PoolTables.{pool_at};
ghost use Rattle.jresolution.specs.juses.InternedTypes.{named};
ghost use Rattle.jtypes.specs.declared.vtype.VType.{VType};
ghost use Rattle.jrows.specs.declared.jacts.way.Way.TheVariants as ways;
ghost use Rattle.jrows.specs.jobjs.RowFrames.{Stays};
ghost use Rattle.jstepping.specs.jrefs.ReferenceRows.{IsLasting};
ghost use Rattle.jstepping.specs.jrefs.RowInvariance.{SeenActs};
ghost use Rattle.jrows.specs.jacts.RowOutcomes.{Rests};

use crate::jrefs::lasting::Lasting;
use crate::jrefs::looking::cast_used;
use crate::jrefs::serving::{is_of, serves_cast};
use jmemory::jheap::Heap;
use jparts::jcode::CastOp;
use jresolution::juses::TypeRef;
use jrows::jacts::Way;
use jrows::jcalls::Counts;
use jrows::jobjs::{check_cast, instance_of};
use jruntime::jstate::Frames;

/// A cast of a reference to a type, or a test for it (JVMS 6.5: checkcast, instanceof).
#[inline]
pub(crate) fn cast<M: Copy>(
    frames: &mut Frames<M>,
    heap: &Heap,
    x: &Lasting<'_, '_>,
    counts: Counts,
    op: CastOp,
    t: TypeRef,
) -> Way
    requires place { frames.old.newest.place + 1 < 2 ^ 32 }
    ensures row { SeenActs x.now counts
        (instructions.Used (meanings.Cast op (named x.now.ancestors.now t))) frames.old.newest heap.now result frames.new.newest heap.now }
    ensures stays { Stays result frames.old.newest frames.new.newest }
    ensures below { frames.new.below ≡ frames.old.below }
    ensures rests { Rests result frames.old frames.new }
{
    let serve = serves_cast(frames, heap, x, counts);
    let is = is_of(frames, heap, x, counts, t);
    match op {
        CastOp::CheckCast => check_cast(frames, serve, is),
        CastOp::InstanceOf => instance_of(frames, serve, is),
    }
}

/// The same of the type that an entry of the pool names.
pub(crate) fn cast_named<M: Copy>(
    frames: &mut Frames<M>,
    heap: &Heap,
    x: &Lasting<'_, '_>,
    counts: Counts,
    op: CastOp,
    pool: u16,
) -> Way
    requires place { frames.old.newest.place + 1 < 2 ^ 32 }
    requires lasting { IsLasting x.now }
    ensures row { (t : VType) → meanings.meant x.now.ancestors.now (pool_at x.now.ancestors.now frames.old.newest.method.class) (forms.Cast op pool)
        ≡ Some (meanings.Cast op t)
        → SeenActs x.now counts (instructions.Used (meanings.Cast op t)) frames.old.newest heap.now result frames.new.newest heap.now }
    ensures missing { meanings.meant x.now.ancestors.now (pool_at x.now.ancestors.now frames.old.newest.method.class) (forms.Cast op pool) ≡ None
        → result ≡ ways.Stuck }
    ensures stays { Stays result frames.old.newest frames.new.newest }
    ensures below { frames.new.below ≡ frames.old.below }
    ensures rests { Rests result frames.old frames.new }
{
    let Some(t) = cast_used(x, frames.method().class, op, pool) else {
        return Way::Stuck;
    };
    cast(frames, heap, x, counts, op, t)
}
