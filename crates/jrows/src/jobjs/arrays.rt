ghost use Rattle.std.specs.Prelude.{◌≡◌, ◌<◌, ◌+◌, ◌^◌, [], ℕ, List, IfOk, OnOk};
ghost use Rattle.jresolution.specs.jprogram.ProgramClasses.{Program};
ghost use Rattle.jtypes.specs.declared.vtype.VType.TheVariants as types;
ghost use Rattle.jresolution.specs.juses.IndexedInstructions as instructions;
ghost use Rattle.jresolution.specs.juses.InstructionMeanings as meanings;
ghost use Rattle.jresolution.specs.juses.InternedTypes.{array_named};
ghost use Rattle.jruntime.specs.jstate.ObjectCells.{StayCelled};
ghost use Rattle.jruntime.specs.jstate.HeapMeanings.{AreBuilt, Things, array_at as shape_at, store_by};
ghost use Rattle.jruntime.specs.declared.jstate.shapes.Shapes.{Shapes};
ghost use Rattle.jrows.specs.jacts.RowOutcomes.{Acts, Rests, leaves};
ghost use Rattle.jrows.specs.jobjs.RowFrames.{Stays};

use crate::jacts::{Way, count_of, make_array, switch_key};
use jlib::{LibClass, Thrown};
use jmemory::jheap::Heap;
use jruntime::jstate::{Frames, built_laws, celled_laws, heap_laws};
use std::alloc::{AllocError, Global};

/// A new array of references (JVMS 6.5: anewarray), of the heap's number for its type: of so many items as an operand says, each null.
#[inline]
pub fn new_refs<M: Copy>(
    alloc: Global,
    frames: &mut Frames<M>,
    heap: &mut Heap,
    number: u32,
) -> Result<Way, AllocError>
    requires place { frames.old.newest.place + 1 < 2 ^ 32 }
    requires built { AreBuilt heap.old.objects }
    ensures row { IfOk result (λ way. (p : Program) (shapes : Shapes) (things : Things) (constants : List (List ℕ × ℕ)) →
        Acts (instructions.Used (meanings.MakeArray (types.Array (array_named p (shape_at shapes number))))) frames.old.newest (store_by p shapes things constants heap.old)
        (leaves way [] frames.new.newest (store_by p shapes things constants heap.new))) }
    ensures stays { IfOk result (λ way. Stays way frames.old.newest frames.new.newest) }
    ensures below { OnOk result (frames.new.below ≡ frames.old.below) }
    ensures rests { IfOk result (λ way. Rests way frames.old frames.new) }
    ensures kept { IfOk result (λ way. Rests way heap.old heap.new) }
    ensures built { OnOk result (AreBuilt heap.new.objects) }
    ensures celled { OnOk result (StayCelled heap.old.objects heap.new.objects) }
{
    heap_laws();
    built_laws();
    celled_laws();
    let Some(n) = switch_key(frames) else {
        return Ok(Way::Stuck);
    };
    match count_of(n) {
        None => Ok(Way::Raises(LibClass::Thrown(Thrown::NegativeArraySizeException))),
        Some(count) => make_array(alloc, frames, heap, number, count),
    }
}
