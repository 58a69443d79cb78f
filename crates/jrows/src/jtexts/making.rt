ghost use Rattle.std.specs.Prelude.{◌≡◌, ◌<◌, ◌^◌, [], ℕ, List, IfOk, OnOk, Some, length as len};
ghost use Rattle.jmemory.specs.jheap.Heaps.{cells_at};
ghost use Rattle.jresolution.specs.jprogram.ProgramClasses.{Program};
ghost use Rattle.jsemantics.specs.jmachine.ObjectInstructions as making;
ghost use Rattle.jruntime.specs.declared.jstate.shapes.Shapes.{Shapes};
ghost use Rattle.jruntime.specs.jstate.ObjectCells.{StayCelled};
ghost use Rattle.jruntime.specs.jstate.HeapMeanings.{AreBuilt, Things, store_by};
ghost use Rattle.jrows.specs.jtexts.HeapTexts.{HoldsUnits, Puts, written};
ghost use Rattle.jrows.specs.jtexts.TextCallOutcomes.{Comes, leaves};

use crate::jtexts::ran::Ran;
use jmemory::jheap::{Heap, Kind};
use jruntime::jstate::{celled_laws, piece_laws};
use jvalues::jops::Value;
use std::alloc::{AllocError, Global};

/// Writes units into the cells of a text or a piece, of which there are as many.
#[tactic(auto, unfolding(crate::specs::jtexts::HeapTexts::written))]
fn write_units(heap: &mut Heap, o: u32, units: &[u16])
    requires many { len (cells_at heap.old o) ≡ len units.now }
    requires few { len units.now < 2 ^ 32 }
    ensures { heap.new ≡ written heap.old o 0 units.now }
{
    let mut i: u32 = 0;
    for unit in units {
        heap.set_unit(o, i, *unit);
        i += 1;
    }
}

/// Makes a text or a piece of these units, where the cells for it are left. Where they aren't, nothing changes.
pub(crate) fn put_units(
    alloc: Global,
    heap: &mut Heap,
    kind: Kind,
    units: &[u16],
) -> Result<Option<u32>, AllocError>
    requires holds { HoldsUnits kind }
    requires built { AreBuilt heap.old.objects }
    ensures puts { IfOk result (λ o. Puts kind units.now heap.old heap.new o) }
    ensures built { OnOk result (AreBuilt heap.new.objects) }
    ensures celled { OnOk result (StayCelled heap.old.objects heap.new.objects) }
{
    piece_laws();
    celled_laws();
    if units.len() >= heap.left() as usize {
        return Ok(None);
    }
    let made = heap.make(kind, units.len() as u32);
    if let Some(o) = made {
        write_units(heap, o, units);
    }
    Ok(made)
}

/// A new string of these units.
pub(crate) fn text_made<M>(alloc: Global, heap: &mut Heap, units: &[u16]) -> Result<Ran, AllocError>
    requires { AreBuilt heap.old.objects }
    ensures row { IfOk result (λ ran. (p : Program) (shapes : Shapes) (things : Things) (constants : List (List ℕ × ℕ)) →
        let s = store_by p shapes things constants heap.old in
        Comes {E = M} s (Some (making.text_made s units.now)) (leaves ran [] (store_by p shapes things constants heap.new))) }
    ensures built { OnOk result (AreBuilt heap.new.objects) }
    ensures celled { OnOk result (StayCelled heap.old.objects heap.new.objects) }
{
    piece_laws();
    match put_units(alloc, heap, Kind::Text, units)? {
        None => Ok(Ran::Full),
        Some(o) => Ok(Ran::Gave(Value::Ref(o))),
    }
}
