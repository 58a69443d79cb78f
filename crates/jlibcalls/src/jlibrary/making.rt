ghost use Rattle.std.specs.Prelude.{◌≡◌, ◌+◌, IfOk, IfSome, OnOk, Ok, length};
ghost use Rattle.jsemantics.specs.jmachine.PermissionCalls.{class_of as class_by, constructed, made_in};
ghost use Rattle.jresolution.specs.jprogram.ProgramClasses.{Program};
ghost use Rattle.jresolution.specs.declared.jprogram.part.ClassRef.TheVariants as refs;
ghost use Rattle.jruntime.specs.declared.jstate.shapes.Shapes.{Shapes};
ghost use Rattle.jruntime.specs.jstate.ObjectCells.{StayCelled};
ghost use Rattle.jruntime.specs.jstate.HeapMeanings.{AreBuilt};
ghost use Rattle.jlibcalls.specs.jlibrary.HeldPermissions.{AreHeld, HasHolder, is_permission as holds_one, is_permission_class as is_of_permissions};
ghost use Rattle.jlibcalls.specs.jlibrary.LibraryOutcomes.{Constructs};

use jground::jbase::Seq;
use jground::jtext::Units;
use jlib::{LibClass, PermissionInit, Thrown};
use jmemory::jheap::{Heap, Kind};
use jperm::{PermClass, PermError, Permission, make};
use jresolution::jprogram::ClassRef;
use jrows::jtexts::{Ran, ran_laws};
use jruntime::jstate::{built_laws, celled_laws, class_numbered, heap_laws};
use jvalues::jops::Value;
use std::alloc::{AllocError, Global};

/// Whether a class of the library is one of permissions.
#[inline]
fn is_permission_class(class: LibClass) -> bool
    ensures { result ≡ is_of_permissions (refs.Lib class) }
{
    matches!(class, LibClass::Permission(_))
}

/// Whether the object of a number is of a class of permissions.
#[inline]
fn is_permission(heap: &Heap, o: u32) -> bool
    ensures { result ≡ holds_one heap.now o }
{
    match heap.found(o) {
        Some(Kind::Object(n)) => match class_numbered(n) {
            ClassRef::User(_) => false,
            ClassRef::Lib(class) => is_permission_class(class),
        },
        Some(Kind::Array(_)) => false,
        Some(Kind::Text) => false,
        Some(Kind::Piece) => false,
        None => false,
    }
}

/// The number of a permission that is put behind these; none where there are too many.
#[inline]
fn next_number(permissions: &Seq<Permission>) -> Option<u32>
    ensures { IfSome result (λ n. n ≡ length permissions.now + 1) }
{
    let count = permissions.as_slice().len();
    if count >= 0xffff_ffff {
        return None;
    }
    Some(count as u32 + 1)
}

/// Gives back the memory of a permission that nothing holds.
fn give_back(permission: Permission) {
    let _unheld = permission;
}

/// Puts a permission behind the others, and lets the object of a number hold it, if it is of a class of permissions. `M` is what frames
/// carry, which no constructor looks at.
fn hold<M>(
    heap: &mut Heap,
    permissions: &mut Seq<Permission>,
    o: u32,
    permission: Permission,
) -> Result<Ran, AllocError>
    requires built { AreBuilt heap.old.objects }
    requires cell { HasHolder heap.old o }
    ensures row { IfOk result
        (λ ran. Constructs {E = M} (λ s. constructed s o (Ok permission)) permissions.old heap.old ran permissions.new heap.new) }
    ensures held { OnOk result
        ((p : Program) (shapes : Shapes) → AreHeld p shapes permissions.old heap.old.objects → AreHeld p shapes permissions.new heap.new.objects) }
    ensures built { OnOk result (AreBuilt heap.new.objects) }
    ensures celled { OnOk result (StayCelled heap.old.objects heap.new.objects) }
{
    heap_laws();
    built_laws();
    celled_laws();
    ran_laws();
    if !is_permission(heap, o) {
        give_back(permission);
        return Ok(Ran::Stuck);
    }
    let Some(n) = next_number(permissions) else {
        give_back(permission);
        return Err(AllocError);
    };
    permissions.push(permission)?;
    heap.set_cell(o, 0, Value::Ref(n));
    Ok(Ran::Went)
}

/// The class that a constructor is of.
#[inline]
fn class_of(init: PermissionInit) -> PermClass
    ensures { result ≡ class_by init }
{
    match init {
        PermissionInit::All => PermClass::All,
        PermissionInit::Runtime => PermClass::Runtime,
        PermissionInit::RuntimeActions => PermClass::Runtime,
        PermissionInit::Security => PermClass::Security,
        PermissionInit::SecurityActions => PermClass::Security,
        PermissionInit::Property => PermClass::Property,
        PermissionInit::File => PermClass::File,
    }
}

/// A constructor of a permission, of a name and actions, at the object of a number.
pub(crate) fn construct<M>(
    alloc: Global,
    heap: &mut Heap,
    permissions: &mut Seq<Permission>,
    cwd: &Units,
    init: PermissionInit,
    name: Option<Units>,
    actions: Option<Units>,
    o: u32,
) -> Result<Ran, AllocError>
    requires built { AreBuilt heap.old.objects }
    requires cell { HasHolder heap.old o }
    ensures row { IfOk result (λ ran. Constructs {E = M} (λ s. made_in s cwd.now init
        (record { name = name; actions = actions; object = o })) permissions.old heap.old ran permissions.new heap.new) }
    ensures held { OnOk result
        ((p : Program) (shapes : Shapes) → AreHeld p shapes permissions.old heap.old.objects → AreHeld p shapes permissions.new heap.new.objects) }
    ensures built { OnOk result (AreBuilt heap.new.objects) }
    ensures celled { OnOk result (StayCelled heap.old.objects heap.new.objects) }
{
    match make(alloc, class_of(init), name.as_ref(), actions.as_ref(), cwd) {
        Ok(permission) => hold::<M>(heap, permissions, o, permission),
        Err(PermError::Memory) => Err(AllocError),
        Err(PermError::NoName) => Ok(Ran::Raises(LibClass::Thrown(Thrown::NullPointerException))),
        Err(PermError::EmptyName) => {
            Ok(Ran::Raises(LibClass::Thrown(Thrown::IllegalArgumentException)))
        }
        Err(PermError::BadActions) => {
            Ok(Ran::Raises(LibClass::Thrown(Thrown::IllegalArgumentException)))
        }
    }
}
