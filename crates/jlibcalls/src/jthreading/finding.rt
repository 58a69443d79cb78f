ghost use Rattle.std.specs.Prelude.{◌≡◌, is_some, true};
ghost use Rattle.jmemory.specs.jheap.Heaps.{cells_at, object_at};
ghost use Rattle.jruntime.specs.jstate.HeapMeanings.{first, number_in};
ghost use Rattle.jlibcalls.specs.jthreading.ThreadObjects.{thread_in};

use jlib::LibClass;
use jmemory::jheap::{CellType, Heap, Kind};
use jresolution::jprogram::ClassRef;
use jruntime::jstate::class_numbered;
use jvalues::jops::Value;

/// The number in the first cell of an object that is there, 0 where it has none.
fn first_cell(heap: &Heap, o: u32) -> u64
    requires { is_some (object_at heap.now o) ≡ true }
    ensures { result ≡ first (cells_at heap.now o) }
{
    if heap.len(o) == 0 {
        return 0;
    }
    match heap.cell(o, 0, CellType::Ctx) {
        Value::Ctx(n) => n,
        _ => unreachable!(),
    }
}

/// The thread for which an object of Thread stands, if it does.
fn number_of(heap: &Heap, o: u32) -> Option<u64>
    requires { is_some (object_at heap.now o) ≡ true }
    ensures { result ≡ number_in (first (cells_at heap.now o)) }
{
    first_cell(heap, o).checked_sub(1)
}

/// The thread for which the object stands that a value names, if it does.
pub(crate) fn thread_in(heap: &Heap, value: Value) -> Option<u64>
    ensures { result ≡ thread_in heap.now value }
{
    let Value::Ref(o) = value else {
        return None;
    };
    match heap.found(o) {
        Some(Kind::Object(n)) => match class_numbered(n) {
            ClassRef::Lib(LibClass::Thread) => number_of(heap, o),
            _ => None,
        },
        _ => None,
    }
}
