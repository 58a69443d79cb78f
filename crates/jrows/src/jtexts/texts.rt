ghost use Rattle.std.specs.Prelude.{◌≡◌, ◌++◌, OnOk, is_some, true};
ghost use Rattle.jmemory.specs.jheap.Heaps.{cells_at, object_at};
ghost use Rattle.jruntime.specs.jstate.HeapMeanings.{units_of};
ghost use Rattle.jrows.specs.jtexts.HeapTexts.{names_nothing, text_number};

use jmemory::jheap::{Heap, Kind};
use jvalues::jops::Value;
use std::alloc::AllocError;

/// Whether a value is null.
#[inline]
pub fn is_null(value: Value) -> bool
    ensures { result ≡ names_nothing value }
{
    match value {
        Value::Int(_) => false,
        Value::Long(_) => false,
        Value::Ctx(_) => false,
        Value::Ref(o) => o == 0,
    }
}

/// The number of the text that a value names, where it names one.
#[inline]
pub(crate) fn text_of(heap: &Heap, value: Value) -> Option<u32>
    ensures { result ≡ text_number heap.now value }
{
    match value {
        Value::Int(_) => None,
        Value::Long(_) => None,
        Value::Ctx(_) => None,
        Value::Ref(o) => match heap.found(o) {
            Some(Kind::Text) => Some(o),
            Some(Kind::Object(_)) => None,
            Some(Kind::Array(_)) => None,
            Some(Kind::Piece) => None,
            None => None,
        },
    }
}

/// Puts the units of a text or a piece behind others.
pub(crate) fn read_onto(heap: &Heap, o: u32, units: &mut Vec<u16>) -> Result<(), AllocError>
    requires { is_some (object_at heap.now o) ≡ true }
    ensures { OnOk result (units.new.items ≡ units.old.items ++ units_of (cells_at heap.now o)) }
{
    for i in 0..heap.len(o) {
        units.push(heap.unit(o, i))?;
    }
    Ok(())
}
