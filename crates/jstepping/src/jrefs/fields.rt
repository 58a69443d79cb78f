ghost use Rattle.std.specs.Prelude.{◌≡◌, ◌<◌, ◌+◌, ◌^◌, ℕ, Some};
ghost use Rattle.jparts.specs.declared.jcode.names.FieldOp.TheVariants as ops;
ghost use Rattle.jsemantics.specs.jmachine.Narrowing.{narrowed};
ghost use Rattle.jvalues.specs.declared.jops.value.Value.{Value as ValueOf};
ghost use Rattle.jresolution.specs.jprogram.ProgramClasses.{Program};
ghost use Rattle.jresolution.specs.juses.IndexedInstructions as instructions;
ghost use Rattle.jresolution.specs.juses.InstructionMeanings as meanings;
ghost use Rattle.jresolution.specs.juses.InstructionMeanings.{FieldMeaning};
ghost use Rattle.jresolution.specs.juses.InternedTypes.{element_named};
ghost use Rattle.jready.specs.InlineOperands as exact;
ghost use Rattle.jruntime.specs.jstate.ObjectCells.{AreCelled};
ghost use Rattle.jruntime.specs.jstate.HeapMeanings.{AreBuilt};
ghost use Rattle.jrows.specs.jobjs.RowFrames.{Stays};
ghost use Rattle.jstepping.specs.jrefs.NamedEntries.{NamesField};
ghost use Rattle.jstepping.specs.jrefs.ReferenceRows.{IsLasting};
ghost use Rattle.jstepping.specs.jrefs.RowInvariance.{SeenActs};
ghost use Rattle.jrows.specs.jacts.RowOutcomes.{Rests};

use crate::jrefs::lasting::Lasting;
use crate::jrefs::looking::{FieldAt, held_of, owner_of};
use crate::jrefs::serving::{serves_read, serves_write};
use jmemory::jheap::Heap;
use jready::Narrow;
use jresolution::juses::ElementRef;
use jrows::jacts::Way;
use jrows::jcalls::Counts;
use jrows::jobjs::{get_field, put_field};
use jruntime::jstate::{Frames, heap_laws};

/// What is left of an int in a field is what an array of such elements keeps of it.
#[inline]
pub(crate) fn element_of(narrow: Narrow) -> ElementRef
    ensures { (p : Program) (v : ValueOf ℕ) → exact.narrow narrow v ≡ narrowed (Some (element_named p result)) v }
{
    match narrow {
        Narrow::Boolean => ElementRef::Boolean,
        Narrow::Byte => ElementRef::Byte,
        Narrow::Char => ElementRef::Char,
        Narrow::Short => ElementRef::Short,
        Narrow::Whole => ElementRef::Int,
    }
}

/// A read of a user's field of an object (JVMS 6.5: getfield).
#[inline]
pub(crate) fn read<M: Copy>(
    frames: &mut Frames<M>,
    heap: &Heap,
    x: &Lasting<'_, '_>,
    counts: Counts,
    a: FieldAt,
) -> Way
    requires place { frames.old.newest.place + 1 < 2 ^ 32 }
    requires lasting { IsLasting x.now }
    requires op { a.op ≡ ops.GetField }
    ensures row { (f : FieldMeaning) → NamesField x.now.ancestors.now frames.old.newest.method.class a f
        → SeenActs x.now counts (instructions.Used (meanings.Field a.op f)) frames.old.newest heap.now result frames.new.newest heap.now }
    ensures stays { Stays result frames.old.newest frames.new.newest }
    ensures below { frames.new.below ≡ frames.old.below }
    ensures rests { Rests result frames.old frames.new }
{
    heap_laws();
    let Some(owner) = owner_of(x, frames.method().class, a) else {
        return Way::Stuck;
    };
    if !serves_read(frames, heap, x, counts, owner) {
        return Way::Stuck;
    }
    get_field(frames, heap, a.slot, a.cell, true)
}

/// A write of a user's field of an object (JVMS 6.5: putfield).
#[inline]
pub(crate) fn write<M: Copy>(
    frames: &mut Frames<M>,
    heap: &mut Heap,
    x: &Lasting<'_, '_>,
    counts: Counts,
    a: FieldAt,
) -> Way
    requires place { frames.old.newest.place + 1 < 2 ^ 32 }
    requires lasting { IsLasting x.now }
    requires op { a.op ≡ ops.PutField }
    requires built { AreBuilt heap.old.objects }
    requires celled { AreCelled x.now.shapes.now heap.old.objects }
    ensures row { (f : FieldMeaning) → NamesField x.now.ancestors.now frames.old.newest.method.class a f
        → SeenActs x.now counts (instructions.Used (meanings.Field a.op f)) frames.old.newest heap.old result frames.new.newest heap.new }
    ensures stays { Stays result frames.old.newest frames.new.newest }
    ensures below { frames.new.below ≡ frames.old.below }
    ensures rests { Rests result frames.old frames.new }
    ensures kept { Rests result heap.old heap.new }
    ensures built { AreBuilt heap.new.objects }
    ensures celled { AreCelled x.now.shapes.now heap.new.objects }
{
    heap_laws();
    let class = frames.method().class;
    let Some(owner) = owner_of(x, class, a) else {
        return Way::Stuck;
    };
    let Some(held) = held_of(x, class, a) else {
        return Way::Stuck;
    };
    if !serves_write(frames, heap, x, counts, a, owner, held) {
        return Way::Stuck;
    }
    put_field(frames, heap, a.slot, element_of(a.narrow), true)
}
