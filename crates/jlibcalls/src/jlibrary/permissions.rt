ghost use Rattle.std.specs.Prelude.{◌≡◌, ◌≤◌, ◌∷◌, [], ℕ, List, IfOk, None, OnOk, length, take};
ghost use Rattle.jsemantics.specs.jmachine.PermissionCalls.{init as init_row, text as text_of};
ghost use Rattle.jresolution.specs.jprogram.ProgramClasses.{Program};
ghost use Rattle.jruntime.specs.declared.jstate.shapes.Shapes.{Shapes};
ghost use Rattle.jruntime.specs.jstate.ObjectCells.{StayCelled};
ghost use Rattle.jruntime.specs.jstate.HeapMeanings.{AreBuilt, Things, store_by};
ghost use Rattle.jlibcalls.specs.jlibrary.HeldPermissions.{AreHeld, HasHolder};
ghost use Rattle.jlibcalls.specs.jlibrary.LibraryOutcomes.{Constructs};
ghost use Rattle.jlibcalls.specs.jlibrary.CallOperands.{one_in};

use crate::jlibrary::making::construct;
use crate::jlibrary::taken::{one, three, two};
use jground::jbase::Seq;
use jground::jtext::Units;
use jlib::PermissionInit;
use jmemory::jheap::Heap;
use jperm::Permission;
use jrows::jtexts::{Ran, is_null, reference, text_units};
use jruntime::jstate::Frames;
use jvalues::jops::Value;
use std::alloc::{AllocError, Global};

/// The units of the string that a value names, or that it is null; none where it is something else.
fn text(alloc: Global, heap: &Heap, value: Value) -> Result<Option<Option<Units>>, AllocError>
    ensures { IfOk result (λ text. (p : Program) (shapes : Shapes) (things : Things) (constants : List (List ℕ × ℕ)) →
        text_of (store_by p shapes things constants heap.now) value ≡ text) }
{
    if is_null(value) {
        return Ok(Some(None));
    }
    match text_units(alloc, heap, value)? {
        None => Ok(None),
        Some(units) => Ok(Some(Some(units))),
    }
}

/// A constructor that is given nothing.
fn bare<M>(
    alloc: Global,
    heap: &mut Heap,
    permissions: &mut Seq<Permission>,
    cwd: &Units,
    init: PermissionInit,
    object: Value,
) -> Result<Ran, AllocError>
    requires built { AreBuilt heap.old.objects }
    requires cell { (o : ℕ) → HasHolder heap.old o }
    ensures row { IfOk result
        (λ ran. Constructs {E = M} (λ s. init_row s cwd.now init (object ∷ [])) permissions.old heap.old ran permissions.new heap.new) }
    ensures held { OnOk result
        ((p : Program) (shapes : Shapes) → AreHeld p shapes permissions.old heap.old.objects → AreHeld p shapes permissions.new heap.new.objects) }
    ensures built { OnOk result (AreBuilt heap.new.objects) }
    ensures celled { OnOk result (StayCelled heap.old.objects heap.new.objects) }
{
    match reference(object) {
        None => Ok(Ran::Stuck),
        Some(o) => construct::<M>(alloc, heap, permissions, cwd, init, None, None, o),
    }
}

/// A constructor that is given a name.
fn named<M>(
    alloc: Global,
    heap: &mut Heap,
    permissions: &mut Seq<Permission>,
    cwd: &Units,
    init: PermissionInit,
    name: Value,
    object: Value,
) -> Result<Ran, AllocError>
    requires built { AreBuilt heap.old.objects }
    requires cell { (o : ℕ) → HasHolder heap.old o }
    ensures row { IfOk result
        (λ ran. Constructs {E = M} (λ s. init_row s cwd.now init (name ∷ object ∷ [])) permissions.old heap.old ran permissions.new heap.new) }
    ensures held { OnOk result
        ((p : Program) (shapes : Shapes) → AreHeld p shapes permissions.old heap.old.objects → AreHeld p shapes permissions.new heap.new.objects) }
    ensures built { OnOk result (AreBuilt heap.new.objects) }
    ensures celled { OnOk result (StayCelled heap.old.objects heap.new.objects) }
{
    let Some(o) = reference(object) else {
        return Ok(Ran::Stuck);
    };
    let given = text(alloc, heap, name)?;
    let Some(given) = given else {
        return Ok(Ran::Stuck);
    };
    construct::<M>(alloc, heap, permissions, cwd, init, given, None, o)
}

/// A constructor that is given a name and actions.
fn named_with<M>(
    alloc: Global,
    heap: &mut Heap,
    permissions: &mut Seq<Permission>,
    cwd: &Units,
    init: PermissionInit,
    actions: Value,
    name: Value,
    object: Value,
) -> Result<Ran, AllocError>
    requires built { AreBuilt heap.old.objects }
    requires cell { (o : ℕ) → HasHolder heap.old o }
    ensures row { IfOk result
        (λ ran. Constructs {E = M}
        (λ s. init_row s cwd.now init (actions ∷ name ∷ object ∷ [])) permissions.old heap.old ran permissions.new heap.new) }
    ensures held { OnOk result
        ((p : Program) (shapes : Shapes) → AreHeld p shapes permissions.old heap.old.objects → AreHeld p shapes permissions.new heap.new.objects) }
    ensures built { OnOk result (AreBuilt heap.new.objects) }
    ensures celled { OnOk result (StayCelled heap.old.objects heap.new.objects) }
{
    let Some(o) = reference(object) else {
        return Ok(Ran::Stuck);
    };
    let first = text(alloc, heap, name)?;
    let Some(first) = first else {
        return Ok(Ran::Stuck);
    };
    let second = text(alloc, heap, actions)?;
    let Some(second) = second else {
        return Ok(Ran::Stuck);
    };
    construct::<M>(alloc, heap, permissions, cwd, init, first, second, o)
}

/// A constructor that is given a name, or a name and actions.
fn with_name<M: Copy>(
    alloc: Global,
    frames: &Frames<M>,
    heap: &mut Heap,
    permissions: &mut Seq<Permission>,
    cwd: &Units,
    init: PermissionInit,
    count: usize,
) -> Result<Ran, AllocError>
    requires few { count ≤ length frames.now.newest.operands }
    requires more { one_in (take count frames.now.newest.operands) ≡ None }
    requires built { AreBuilt heap.old.objects }
    requires cell { (o : ℕ) → HasHolder heap.old o }
    ensures row { IfOk result (λ ran. Constructs {E = M} (λ s. init_row s cwd.now init
        (take count frames.now.newest.operands)) permissions.old heap.old ran permissions.new heap.new) }
    ensures held { OnOk result
        ((p : Program) (shapes : Shapes) → AreHeld p shapes permissions.old heap.old.objects → AreHeld p shapes permissions.new heap.new.objects) }
    ensures built { OnOk result (AreBuilt heap.new.objects) }
    ensures celled { OnOk result (StayCelled heap.old.objects heap.new.objects) }
{
    match two(frames, count) {
        Some((name, object)) => named::<M>(alloc, heap, permissions, cwd, init, name, object),
        None => match three(frames, count) {
            None => Ok(Ran::Stuck),
            Some((actions, name, object)) => {
                named_with::<M>(alloc, heap, permissions, cwd, init, actions, name, object)
            }
        },
    }
}

/// A constructor of a permission.
pub(crate) fn permission_init<M: Copy>(
    alloc: Global,
    frames: &Frames<M>,
    heap: &mut Heap,
    permissions: &mut Seq<Permission>,
    cwd: &Units,
    init: PermissionInit,
    count: usize,
) -> Result<Ran, AllocError>
    requires few { count ≤ length frames.now.newest.operands }
    requires built { AreBuilt heap.old.objects }
    requires cell { (o : ℕ) → HasHolder heap.old o }
    ensures row { IfOk result (λ ran. Constructs {E = M} (λ s. init_row s cwd.now init
        (take count frames.now.newest.operands)) permissions.old heap.old ran permissions.new heap.new) }
    ensures held { OnOk result
        ((p : Program) (shapes : Shapes) → AreHeld p shapes permissions.old heap.old.objects → AreHeld p shapes permissions.new heap.new.objects) }
    ensures built { OnOk result (AreBuilt heap.new.objects) }
    ensures celled { OnOk result (StayCelled heap.old.objects heap.new.objects) }
{
    match one(frames, count) {
        Some(object) => bare::<M>(alloc, heap, permissions, cwd, init, object),
        None => with_name(alloc, frames, heap, permissions, cwd, init, count),
    }
}
