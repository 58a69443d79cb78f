ghost use Rattle.std.specs.Prelude.{◌≡◌, ℕ, List, IfOk};
ghost use Rattle.jresolution.specs.jprogram.ProgramClasses.{Program};
ghost use Rattle.jsemantics.specs.jmachine.TextCalls.{units as units_of};
ghost use Rattle.jruntime.specs.declared.jstate.shapes.Shapes.{Shapes};
ghost use Rattle.jruntime.specs.jstate.HeapMeanings.{Things, store_by};

use crate::jtexts::texts::{read_onto, text_of};
use jground::jtext::Units;
use jmemory::jheap::Heap;
use jruntime::jstate::heap_laws;
use jvalues::jops::Value;
use std::alloc::{AllocError, Global};

/// The units of the string that a value names. None where it names none, as null does.
pub fn text_units(alloc: Global, heap: &Heap, value: Value) -> Result<Option<Units>, AllocError>
    ensures { IfOk result (λ units. (p : Program) (shapes : Shapes) (things : Things) (constants : List (List ℕ × ℕ)) →
        units_of (store_by p shapes things constants heap.now) value ≡ units) }
{
    heap_laws();
    let Some(o) = text_of(heap, value) else {
        return Ok(None);
    };
    let mut units = Vec::new(alloc);
    read_onto(heap, o, &mut units)?;
    Ok(Some(Units::from_vec(units)))
}
