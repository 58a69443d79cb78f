ghost use Rattle.std.specs.Prelude.{◌≡◌, ◌∷◌, [], ℕ, List, IfOk, Some};
ghost use Rattle.jvalues.specs.declared.jops.value.Value.{Value as Held};
ghost use Rattle.jresolution.specs.jprogram.ProgramClasses.{Program};
ghost use Rattle.jsemantics.specs.jmachine.Store.{Store};
ghost use Rattle.jsemantics.specs.jmachine.TextCalls.{print as row_of, print_end as end_row};
ghost use Rattle.jruntime.specs.declared.jstate.shapes.Shapes.{Shapes};
ghost use Rattle.jruntime.specs.jstate.HeapMeanings.{Things, store_by};
ghost use Rattle.jrows.specs.jtexts.PrintEvents.{Prints};

use crate::jtexts::shown::shown;
use jground::jtext::Units;
use jlib::PrintedType;
use jmemory::jheap::Heap;
use jruntime::jstate::heap_laws;
use jvalues::jops::Value;
use std::alloc::{AllocError, Global};

/// PrintStream's `print` and `println` of a value: the text that is told, which the thread's event holds. None where the state has no step.
pub fn print<M>(
    alloc: Global,
    heap: &Heap,
    piece: PrintedType,
    value: Value,
) -> Result<Option<Units>, AllocError>
    ensures { IfOk result (λ text. (p : Program) (shapes : Shapes) (things : Things) (constants : List (List ℕ × ℕ)) (thread : ℕ) (stream : Held ℕ) →
        let s = store_by p shapes things constants heap.now in Prints {E = M} s (row_of s thread piece (value ∷ stream ∷ [])) thread text) }
{
    heap_laws();
    let text = shown(alloc, heap, piece, value)?;
    Ok(text)
}

/// PrintStream's `println` of nothing: the empty text.
pub fn print_end<M>(alloc: Global) -> Units
    ensures { (s : Store ℕ) (thread : ℕ) (stream : Held ℕ) → Prints {E = M} s (end_row s thread (stream ∷ [])) thread (Some result) }
{
    Units::new(alloc)
}
