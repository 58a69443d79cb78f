ghost use Rattle.std.specs.Prelude.{◌≡◌, ◌<◌, ◌+◌, ◌^◌, IfOk, OnOk, Some};
ghost use Rattle.jparts.specs.declared.jcode.op_form.PoolForm.TheVariants as forms;
ghost use Rattle.jresolution.specs.declared.jprogram.part.ClassRef.TheVariants as refs;
ghost use Rattle.jresolution.specs.juses.IndexedInstructions as instructions;
ghost use Rattle.jresolution.specs.juses.InstructionMeanings as meanings;
ghost use Rattle.jresolution.specs.juses.PoolTables.{pool_at};
ghost use Rattle.jresolution.specs.juses.InternedTypes.{class_named};
ghost use Rattle.jtypes.specs.declared.vtype.VType.{VType};
ghost use Rattle.jready.specs.InlineOperands.{MakesArray};
ghost use Rattle.jruntime.specs.jstate.ObjectCells.{AreCelled};
ghost use Rattle.jruntime.specs.jstate.HeapMeanings.{AreBuilt};
ghost use Rattle.jrows.specs.declared.jcalls.ready.Counts.{Counts as CountsOf};
ghost use Rattle.jrows.specs.jobjs.RowFrames.{Stays};
ghost use Rattle.jstepping.specs.jrefs.ReferenceRows.{IsLasting};
ghost use Rattle.jstepping.specs.jrefs.RowInvariance.{SeenActs};
ghost use Rattle.jrows.specs.jacts.RowOutcomes.{Rests};

use crate::jrefs::lasting::Lasting;
use jlib::LibClass;
use jmemory::jheap::Heap;
use jrows::jacts::Way;
use jrows::jobjs::{new_library, new_object, new_refs};
use jruntime::jstate::Frames;
use std::alloc::{AllocError, Global};

/// A new object of a user's class (JVMS 6.5: new).
#[inline]
pub(crate) fn make_user<M: Copy>(
    alloc: Global,
    frames: &mut Frames<M>,
    heap: &mut Heap,
    x: &Lasting<'_, '_>,
    pool: u16,
    class: u32,
) -> Result<Way, AllocError>
    requires place { frames.old.newest.place + 1 < 2 ^ 32 }
    requires lasting { IsLasting x.now }
    requires exact { meanings.meant x.now.ancestors.now (pool_at x.now.ancestors.now frames.old.newest.method.class) (forms.New pool)
        ≡ Some (meanings.Make (class_named x.now.ancestors.now (refs.User class))) }
    requires built { AreBuilt heap.old.objects }
    requires celled { AreCelled x.now.shapes.now heap.old.objects }
    ensures row { IfOk result
        (λ way. (counts : CountsOf) → SeenActs x.now counts (instructions.Used (meanings.Make (class_named x.now.ancestors.now (refs.User class))))
        frames.old.newest heap.old way frames.new.newest heap.new) }
    ensures stays { IfOk result (λ way. Stays way frames.old.newest frames.new.newest) }
    ensures below { OnOk result (frames.new.below ≡ frames.old.below) }
    ensures rests { IfOk result (λ way. Rests way frames.old frames.new) }
    ensures kept { IfOk result (λ way. Rests way heap.old heap.new) }
    ensures built { OnOk result (AreBuilt heap.new.objects) }
    ensures celled { OnOk result (AreCelled x.now.shapes.now heap.new.objects) }
{
    new_object(alloc, frames, heap, x.shapes, class)
}

/// A new object of a class of the library.
#[inline]
pub(crate) fn make_library<M: Copy>(
    alloc: Global,
    frames: &mut Frames<M>,
    heap: &mut Heap,
    x: &Lasting<'_, '_>,
    pool: u16,
    class: LibClass,
) -> Result<Way, AllocError>
    requires place { frames.old.newest.place + 1 < 2 ^ 32 }
    requires lasting { IsLasting x.now }
    requires exact { meanings.meant x.now.ancestors.now (pool_at x.now.ancestors.now frames.old.newest.method.class) (forms.New pool)
        ≡ Some (meanings.Make (class_named x.now.ancestors.now (refs.Lib class))) }
    requires built { AreBuilt heap.old.objects }
    requires celled { AreCelled x.now.shapes.now heap.old.objects }
    ensures row { IfOk result
        (λ way. (counts : CountsOf) → SeenActs x.now counts (instructions.Used (meanings.Make (class_named x.now.ancestors.now (refs.Lib class))))
        frames.old.newest heap.old way frames.new.newest heap.new) }
    ensures stays { IfOk result (λ way. Stays way frames.old.newest frames.new.newest) }
    ensures below { OnOk result (frames.new.below ≡ frames.old.below) }
    ensures rests { IfOk result (λ way. Rests way frames.old frames.new) }
    ensures kept { IfOk result (λ way. Rests way heap.old heap.new) }
    ensures built { OnOk result (AreBuilt heap.new.objects) }
    ensures celled { OnOk result (AreCelled x.now.shapes.now heap.new.objects) }
{
    new_library(alloc, frames, heap, class)
}

/// A new array of references (JVMS 6.5: anewarray), of the type of a number.
#[inline]
pub(crate) fn make_array<M: Copy>(
    alloc: Global,
    frames: &mut Frames<M>,
    heap: &mut Heap,
    x: &Lasting<'_, '_>,
    array: u32,
) -> Result<Way, AllocError>
    requires place { frames.old.newest.place + 1 < 2 ^ 32 }
    requires lasting { IsLasting x.now }
    requires built { AreBuilt heap.old.objects }
    requires celled { AreCelled x.now.shapes.now heap.old.objects }
    ensures row { IfOk result (λ way. (counts : CountsOf) (t : VType) → MakesArray x.now.ancestors.now x.now.ready.now.methods.tables t array
        → SeenActs x.now counts (instructions.Used (meanings.MakeArray t)) frames.old.newest heap.old way frames.new.newest heap.new) }
    ensures stays { IfOk result (λ way. Stays way frames.old.newest frames.new.newest) }
    ensures below { OnOk result (frames.new.below ≡ frames.old.below) }
    ensures rests { IfOk result (λ way. Rests way frames.old frames.new) }
    ensures kept { IfOk result (λ way. Rests way heap.old heap.new) }
    ensures built { OnOk result (AreBuilt heap.new.objects) }
    ensures celled { OnOk result (AreCelled x.now.shapes.now heap.new.objects) }
{
    new_refs(alloc, frames, heap, array)
}
