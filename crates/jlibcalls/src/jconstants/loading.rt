ghost use Rattle.std.specs.Prelude.{◌≡◌, IfOk, None, OnOk};
ghost use Rattle.jresolution.specs.jprogram.NameTable.{place_at};
ghost use Rattle.jsemantics.specs.jmachine.Store.{constant_at};
ghost use Rattle.jruntime.specs.jstate.ObjectCells.{StayCelled};
ghost use Rattle.jruntime.specs.jstate.HeapMeanings.{AreBuilt};
ghost use Rattle.jlibcalls.specs.jconstants.ConstantLoads.{Loads};
ghost use Rattle.jlibcalls.specs.jconstants.StringConstants.{IsObject, IsTable, constants_in, made_in, units_at};

use crate::jconstants::known::note;
use crate::jconstants::table::{MadeText, Table, object_of, put};
use crate::jconstants::texts::units_of;
use jground::jtext::Units;
use jmemory::jheap::Heap;
use jrows::jtexts::{constant_laws, make_constant};
use std::alloc::{AllocError, Global};

/// Makes the constant at an index of a class's pool. There is none of its units.
fn make<M>(
    alloc: Global,
    table: &mut Table<'_>,
    heap: &mut Heap,
    class: u32,
    index: u16,
    units: Units,
) -> Result<Option<u32>, AllocError>
    requires built { AreBuilt heap.old.objects }
    requires units { units ≡ units_at table.old.program.now class index }
    requires new { place_at table.old.objects units ≡ None }
    requires table { IsTable table.old }
    ensures row { IfOk result (λ o. Loads M class index (made_in table.old) heap.old o (made_in table.new) heap.new) }
    ensures object { IfOk result (IsObject table.new.program.now (constants_in table.new) class index) }
    ensures table { IsTable table.new }
    ensures same { table.new.program.now ≡ table.old.program.now }
    ensures statics { OnOk result (heap.new.statics ≡ heap.old.statics) }
    ensures built { OnOk result (AreBuilt heap.new.objects) }
    ensures celled { OnOk result (StayCelled heap.old.objects heap.new.objects) }
{
    let Some(object) = make_constant::<M>(alloc, heap, units.as_slice())? else {
        return Ok(None);
    };
    let one = MadeText {
        class,
        index,
        object,
    };
    put(table, one, units)?;
    Ok(Some(object))
}

/// The object of the constant at an index of a class's pool, by its units.
fn object_for<M>(
    alloc: Global,
    table: &mut Table<'_>,
    heap: &mut Heap,
    class: u32,
    index: u16,
    units: Units,
) -> Result<Option<u32>, AllocError>
    requires built { AreBuilt heap.old.objects }
    requires units { units ≡ units_at table.old.program.now class index }
    requires table { IsTable table.old }
    ensures row { IfOk result (λ o. Loads M class index (made_in table.old) heap.old o (made_in table.new) heap.new) }
    ensures object { IfOk result (IsObject table.new.program.now (constants_in table.new) class index) }
    ensures table { IsTable table.new }
    ensures same { table.new.program.now ≡ table.old.program.now }
    ensures statics { OnOk result (heap.new.statics ≡ heap.old.statics) }
    ensures built { OnOk result (AreBuilt heap.new.objects) }
    ensures celled { OnOk result (StayCelled heap.old.objects heap.new.objects) }
{
    constant_laws::<M>();
    if let Some(object) = object_of(&table.objects, units.as_slice()) {
        return Ok(Some(object));
    }
    make::<M>(alloc, table, heap, class, index, units)
}

/// The object of the constant at an index of a class's pool, which isn't known by its index. From now on it is.
pub(crate) fn first_get<M>(
    alloc: Global,
    table: &mut Table<'_>,
    heap: &mut Heap,
    class: u32,
    index: u16,
) -> Result<Option<u32>, AllocError>
    requires built { AreBuilt heap.old.objects }
    requires table { IsTable table.old }
    ensures row { IfOk result (λ o. Loads M class index (made_in table.old) heap.old o (made_in table.new) heap.new) }
    ensures table { IsTable table.new }
    ensures same { table.new.program.now ≡ table.old.program.now }
    ensures statics { OnOk result (heap.new.statics ≡ heap.old.statics) }
    ensures built { OnOk result (AreBuilt heap.new.objects) }
    ensures celled { OnOk result (StayCelled heap.old.objects heap.new.objects) }
{
    let units = units_of(alloc, table.program, class, index)?;
    let object = object_for::<M>(alloc, table, heap, class, index, units)?;
    note(&mut table.known, class, index, object);
    Ok(object)
}

/// The object of the constant at an index of a class's pool, where it was made.
pub(crate) fn found(
    alloc: Global,
    table: &Table<'_>,
    class: u32,
    index: u16,
) -> Result<Option<u32>, AllocError>
    requires { IsTable table.now }
    ensures { IfOk result (λ o. o ≡ constant_at (constants_in table.now) (units_at table.now.program.now class index)) }
{
    let units = units_of(alloc, table.program, class, index)?;
    let object = object_of(&table.objects, units.as_slice());
    Ok(object)
}
