ghost use Rattle.std.specs.Prelude.{◌≡◌, ℕ, List, option_map};
ghost use Rattle.jmemory.specs.jheap.Heaps;
ghost use Rattle.jvalues.specs.declared.jops.value.Value.TheVariants as values;
ghost use Rattle.jresolution.specs.jprogram.ProgramClasses.{Program};
ghost use Rattle.jruntime.specs.declared.jstate.shapes.Shapes.{Shapes};
ghost use Rattle.jruntime.specs.jstate.HeapMeanings.{Things, place_in, store_by};
ghost use Rattle.jlibcalls.specs.jchecks.PermissionQueries.{Asks, number_held};

use jmemory::jheap::{Heap, Kind};
use jperm::Permission;
use jrows::jcalls::{Needs, first_cell, needs_of};
use jruntime::jstate::heap_laws;
use jvalues::jops::Value;

/// What a check of a permission asks.
#[derive(Clone, Copy)]
pub enum Asked<'a> {
    /// Nothing: its operand is null.
    Null,
    /// This permission.
    Permission(&'a Permission),
    /// There is no step.
    Stuck,
}

/// The number of the permission that an object holds, 0 for none.
fn number_held(heap: &Heap, o: u32) -> u64
    ensures { result ≡ number_held (Heaps.object_at heap.now o) }
{
    match heap.found(o) {
        Some(Kind::Object(class)) => match needs_of(class) {
            Needs::Permission => first_cell(heap, o),
            Needs::Nothing => 0,
            Needs::Units => 0,
            Needs::Context => 0,
            Needs::Thread => 0,
        },
        Some(Kind::Array(_)) => 0,
        Some(Kind::Text) => 0,
        Some(Kind::Piece) => 0,
        None => 0,
    }
}

/// The permission of a number, which count from 1.
fn permission_at(permissions: &[Permission], number: u64) -> Option<&Permission>
    ensures { option_map (λ one. one.now) result ≡ place_in permissions.now number }
{
    if number == 0 {
        return None;
    }
    permissions.get((number - 1) as usize)
}

/// What a check of the object of a number asks.
fn asked_of<'a, M>(heap: &Heap, permissions: &'a [Permission], o: u32) -> Asked<'a>
    ensures { (p : Program) (shapes : Shapes) (things : Things) (constants : List (List ℕ × ℕ)) → things.permissions ≡ permissions.now
        → Asks M (store_by p shapes things constants heap.now) (values.Ref o) result }
{
    heap_laws();
    if o == 0 {
        return Asked::Null;
    }
    match permission_at(permissions, number_held(heap, o)) {
        None => Asked::Stuck,
        Some(one) => Asked::Permission(one),
    }
}

/// What a check of an operand asks, where these are the permissions that the machine keeps. `M` is what frames carry, which isn't looked at.
pub fn asks_for<'a, M>(heap: &Heap, permissions: &'a [Permission], operand: Value) -> Asked<'a>
    ensures { (p : Program) (shapes : Shapes) (things : Things) (constants : List (List ℕ × ℕ)) → things.permissions ≡ permissions.now
        → Asks M (store_by p shapes things constants heap.now) operand result }
{
    match operand {
        Value::Int(_) => Asked::Stuck,
        Value::Long(_) => Asked::Stuck,
        Value::Ctx(_) => Asked::Stuck,
        Value::Ref(o) => asked_of::<M>(heap, permissions, o),
    }
}
