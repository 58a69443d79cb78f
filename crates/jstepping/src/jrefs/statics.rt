ghost use Rattle.std.specs.Prelude.{◌≡◌, ◌<◌, ◌+◌, ◌^◌, IfOk, OnOk};
ghost use Rattle.jparts.specs.declared.jcode.names.FieldOp.TheVariants as ops;
ghost use Rattle.jresolution.specs.juses.IndexedInstructions as instructions;
ghost use Rattle.jresolution.specs.juses.InstructionMeanings as meanings;
ghost use Rattle.jresolution.specs.juses.InstructionMeanings.{FieldMeaning};
ghost use Rattle.jrows.specs.declared.jcalls.ready.Counts.{Counts as CountsOf};
ghost use Rattle.jrows.specs.jobjs.RowFrames.{Stays};
ghost use Rattle.jstepping.specs.jrefs.NamedEntries.{NamesField};
ghost use Rattle.jstepping.specs.jrefs.ReferenceRows.{IsLasting};
ghost use Rattle.jstepping.specs.jrefs.RowInvariance.{SeenActs};
ghost use Rattle.jrows.specs.jacts.RowOutcomes.{Rests};

use crate::jrefs::fields::element_of;
use crate::jrefs::lasting::Lasting;
use crate::jrefs::looking::{FieldAt, held_of};
use crate::jrefs::serving::serves_static;
use jmemory::jheap::Heap;
use jrows::jacts::Way;
use jrows::jcalls::Counts;
use jrows::jobjs::{get_static, put_static};
use jruntime::jstate::{Frames, cell_laws};
use std::alloc::AllocError;

/// A read of a user's static (JVMS 6.5: getstatic).
#[inline]
pub(crate) fn read_static<M: Copy>(
    frames: &mut Frames<M>,
    heap: &Heap,
    x: &Lasting<'_, '_>,
    a: FieldAt,
) -> Result<Way, AllocError>
    requires place { frames.old.newest.place + 1 < 2 ^ 32 }
    requires lasting { IsLasting x.now }
    requires op { a.op ≡ ops.GetStatic }
    ensures row { IfOk result (λ way. (counts : CountsOf) (f : FieldMeaning) → NamesField x.now.ancestors.now frames.old.newest.method.class a f
        → SeenActs x.now counts (instructions.Used (meanings.Field a.op f)) frames.old.newest heap.now way frames.new.newest heap.now) }
    ensures stays { IfOk result (λ way. Stays way frames.old.newest frames.new.newest) }
    ensures below { OnOk result (frames.new.below ≡ frames.old.below) }
    ensures rests { IfOk result (λ way. Rests way frames.old frames.new) }
{
    cell_laws();
    if a.slot as usize >= heap.static_count() {
        return Ok(Way::Stuck);
    }
    get_static(frames, heap, a.slot, a.cell)
}

/// A write of a user's static (JVMS 6.5: putstatic).
#[inline]
pub(crate) fn write_static<M: Copy>(
    frames: &mut Frames<M>,
    heap: &mut Heap,
    x: &Lasting<'_, '_>,
    counts: Counts,
    a: FieldAt,
) -> Way
    requires place { frames.old.newest.place + 1 < 2 ^ 32 }
    requires lasting { IsLasting x.now }
    requires op { a.op ≡ ops.PutStatic }
    ensures row { (f : FieldMeaning) → NamesField x.now.ancestors.now frames.old.newest.method.class a f
        → SeenActs x.now counts (instructions.Used (meanings.Field a.op f)) frames.old.newest heap.old result frames.new.newest heap.new }
    ensures stays { Stays result frames.old.newest frames.new.newest }
    ensures below { frames.new.below ≡ frames.old.below }
    ensures rests { Rests result frames.old frames.new }
    ensures kept { Rests result heap.old heap.new }
    ensures objects { heap.new.objects ≡ heap.old.objects }
{
    cell_laws();
    let Some(held) = held_of(x, frames.method().class, a) else {
        return Way::Stuck;
    };
    if a.slot as usize >= heap.static_count() {
        return Way::Stuck;
    }
    let serve = serves_static(frames, heap, x, counts, held);
    put_static(frames, heap, a.slot, element_of(a.narrow), serve)
}
