ghost use Rattle.std.specs.Prelude.{◌≡◌, ◌<◌, ◌^◌, [], IfOk, OnOk, length, option_map, replicate, slice_set, unwrap_or};
ghost use Rattle.jmemory.specs.jheap.Heaps.{with_statics};
ghost use Rattle.jmemory.specs.jheap.RawValues;
ghost use Rattle.jvalues.specs.declared.jops.value.Value.TheVariants as values;
ghost use Rattle.jready.specs.Statics as held;
ghost use Rattle.jstepping.specs.jopen.StaticRows.{row_value, values_of};
ghost use Rattle.jstepping.specs.jopen.OpeningTexts.{HasSet};

use jlibcalls::jconstants::Constants;
use jmemory::jheap::{CellType, Heap, raw_laws};
use jready::{First, StaticRow};
use jvalues::jops::Value;
use std::alloc::{AllocError, Global};

/// What a cell holds before anything is put there: 0 or null.
fn nothing(cell: CellType) -> Value
    ensures { result ≡ held.nothing cell }
{
    match cell {
        CellType::Int => Value::Int(0),
        CellType::Long => Value::Long(0),
        CellType::Ref => Value::Ref(0),
        CellType::Ctx => Value::Ref(0),
    }
}

/// The reference to an object, or what such a cell holds before anything is put there.
fn named(object: Option<u32>, cell: CellType) -> Value
    ensures { result ≡ unwrap_or (option_map values.Ref object) (held.nothing cell) }
{
    match object {
        Some(object) => Value::Ref(object),
        None => nothing(cell),
    }
}

/// What a static holds at first.
fn value_of(alloc: Global, constants: &Constants<'_>, row: StaticRow) -> Result<Value, AllocError>
    ensures { IfOk result (λ v. v ≡ row_value constants.now.program constants.now.constants row) }
{
    match row.first {
        First::Known(v) => Ok(v),
        First::Text(index) => {
            let object = constants.find(alloc, row.class, index)?;
            Ok(named(object, row.cell))
        }
    }
}

/// Puts a value into a static. Its cell gives it back.
fn put(heap: &mut Heap, i: u32, value: Value)
    requires { i < length heap.old.statics }
    ensures sets { heap.new ≡ with_statics heap.old (slice_set heap.old.statics i (RawValues.raw value)) }
    ensures back { RawValues.of_raw (RawValues.type_of value) (RawValues.raw value) ≡ value }
{
    raw_laws();
    heap.set_static(i, value);
}

/// Puts into the statics, of which there are as many, what they hold at first.
fn put_each(
    alloc: Global,
    constants: &Constants<'_>,
    rows: &[StaticRow],
    heap: &mut Heap,
) -> Result<(), AllocError>
    requires few { length rows.now < 2 ^ 32 }
    requires none { heap.old.statics ≡ replicate (length rows.now) 0 }
    ensures { OnOk result (HasSet (values_of constants.now.program constants.now.constants rows.now) 0 heap.old heap.new) }
{
    for (i, row) in rows.iter().enumerate() {
        let value = value_of(alloc, constants, *row)?;
        put(heap, i as u32, value);
    }
    Ok(())
}

/// Makes the statics, and puts into them what they hold at first.
pub(crate) fn put_statics(
    alloc: Global,
    constants: &Constants<'_>,
    rows: &[StaticRow],
    heap: &mut Heap,
) -> Result<(), AllocError>
    requires { heap.old.statics ≡ [] }
    ensures { OnOk result (HasSet (values_of constants.now.program constants.now.constants rows.now) 0 heap.old heap.new) }
{
    if rows.len() > u32::MAX as usize {
        return Err(AllocError);
    }
    heap.add_statics(alloc, rows.len() as u32)?;
    put_each(alloc, constants, rows, heap)
}
