ghost use Rattle.std.specs.Prelude.{◌≡◌, ◌<◌, ◌+◌, ◌^◌, [], ℕ, IfOk, List, OnOk, length};
ghost use Rattle.jresolution.specs.jprogram.ProgramClasses.{Program};
ghost use Rattle.jready.specs.DecodedInstructions.{array_instr};
ghost use Rattle.jruntime.specs.jstate.ObjectCells.{StayCelled};
ghost use Rattle.jruntime.specs.jstate.HeapMeanings.{AreBuilt, Things, store_by};
ghost use Rattle.jrows.specs.jacts.RowOutcomes.{Acts, Rests, leaves};
ghost use Rattle.jserving.specs.jcells.ArrayTypeNumbers.{AreRows};
ghost use Rattle.jstepping.specs.jstep.InstructionRows.{StoresNumber};

use jmemory::jheap::Heap;
use jready::ArrayInstr;
use jrows::jacts::{Way, array_length, array_load, array_store, new_array};
use jruntime::jstate::{Frames, Shapes};
use jserving::jcells::NumberArrays;
use std::alloc::{AllocError, Global};

/// An instruction with an array, but a store of a reference (JVMS 6.5).
#[inline]
#[tactic(auto, using(jrows::proofs::JactsProofs::ArrayFailures::same, crate::proofs::JstepProofs::ObjectPreservation::same_celled))]
pub fn array<M: Copy>(
    alloc: Global,
    frames: &mut Frames<M>,
    heap: &mut Heap,
    shapes: &Shapes,
    numbers: NumberArrays,
    f: ArrayInstr,
) -> Result<Way, AllocError>
    requires place { frames.old.newest.place + 1 < 2 ^ 32 }
    requires built { AreBuilt heap.old.objects }
    requires numbers { AreRows shapes.now numbers }
    requires number { StoresNumber f }
    ensures row { IfOk result (λ way. (p : Program) (things : Things) (constants : List (List ℕ × ℕ)) →
        Acts (array_instr f) frames.old.newest (store_by p shapes.now things constants heap.old)
        (leaves way [] frames.new.newest (store_by p shapes.now things constants heap.new))) }
    ensures below { OnOk result (frames.new.below ≡ frames.old.below) }
    ensures rests { IfOk result (λ way. Rests way frames.old frames.new) }
    ensures kept { IfOk result (λ way. Rests way heap.old heap.new) }
    ensures built { OnOk result (AreBuilt heap.new.objects) }
    ensures celled { OnOk result (StayCelled heap.old.objects heap.new.objects) }
{
    match f {
        ArrayInstr::New(kind) => new_array(alloc, frames, heap, numbers.of(kind)),
        ArrayInstr::Load(e) => Ok(array_load(frames, heap, shapes, e)),
        ArrayInstr::Store(e) => Ok(array_store(frames, heap, shapes, e)),
        ArrayInstr::Length => {
            heap.small();
            Ok(array_length(frames, heap))
        }
    }
}
