ghost use Rattle.std.specs.Prelude.{◌≡◌, [], ℕ, List, IfOk, None, OnOk};
ghost use Rattle.jresolution.specs.jprogram.ProgramClasses.{Program};
ghost use Rattle.jmemory.specs.declared.jheap.cell.Kind.TheVariants as kinds;
ghost use Rattle.jresolution.specs.juses.InstructionMeanings as meanings;
ghost use Rattle.jsemantics.specs.jmachine.ObjectInstructions.{push, units_of as units_held};
ghost use Rattle.jsemantics.specs.jmachine.Store.{constant_at};
ghost use Rattle.jruntime.specs.declared.jstate.shapes.Shapes.{Shapes};
ghost use Rattle.jruntime.specs.jstate.ObjectCells.{StayCelled};
ghost use Rattle.jruntime.specs.jstate.HeapMeanings.{AreBuilt, Things, store_by};
ghost use Rattle.jrows.specs.jtexts.MadeStrings.{LoadsKnown, MakesText, constants_with, loaded};
ghost use Rattle.jrows.specs.jtexts.HeapTexts.{Puts};
ghost use Rattle.jrows.specs.jtexts.TextCallOutcomes.{Comes, leaves};

use crate::jtexts::making::put_units;
use jmemory::jheap::{Heap, Kind};
use jruntime::jstate::piece_laws;
use std::alloc::{AllocError, Global};

/// A new string of these units: its number. None exactly where the cells for it aren't left, and then nothing changes.
pub fn make_text(alloc: Global, heap: &mut Heap, units: &[u16]) -> Result<Option<u32>, AllocError>
    requires { AreBuilt heap.old.objects }
    ensures made { IfOk result (λ o. (p : Program) (shapes : Shapes) (things : Things) (constants : List (List ℕ × ℕ)) →
        MakesText units.now (store_by p shapes things constants heap.old) o (store_by p shapes things constants heap.new)) }
    ensures puts { IfOk result (λ o. Puts kinds.Text units.now heap.old heap.new o) }
    ensures statics { OnOk result (heap.new.statics ≡ heap.old.statics) }
    ensures built { OnOk result (AreBuilt heap.new.objects) }
    ensures celled { OnOk result (StayCelled heap.old.objects heap.new.objects) }
{
    piece_laws();
    let made = put_units(alloc, heap, Kind::Text, units)?;
    Ok(made)
}

/// A string constant of these units that wasn't made yet (JVMS 6.5: ldc): the number of its object. None exactly where the cells for it
/// aren't left, and then nothing changes. `M` is what frames carry, which no constant looks at.
pub fn make_constant<M>(
    alloc: Global,
    heap: &mut Heap,
    units: &[u16],
) -> Result<Option<u32>, AllocError>
    requires { AreBuilt heap.old.objects }
    ensures row { IfOk result (λ o. (p : Program) (shapes : Shapes) (things : Things) (constants : List (List ℕ × ℕ)) (bytes : List ℕ) →
        units_held bytes ≡ units.now → constant_at constants units.now ≡ None →
        let s = store_by p shapes things constants heap.old in
        Comes {E = M} s (push s (meanings.Text bytes) []) (leaves (loaded o) [] (store_by p shapes things (constants_with o units.now constants) heap.new))) }
    ensures puts { IfOk result (λ o. Puts kinds.Text units.now heap.old heap.new o) }
    ensures statics { OnOk result (heap.new.statics ≡ heap.old.statics) }
    ensures built { OnOk result (AreBuilt heap.new.objects) }
    ensures celled { OnOk result (StayCelled heap.old.objects heap.new.objects) }
{
    piece_laws();
    let made = put_units(alloc, heap, Kind::Text, units)?;
    Ok(made)
}

/// The law of string constants that were made. It has no body to run; its contract is the law.
pub fn constant_laws<M>()
    ensures { LoadsKnown M }
{}
