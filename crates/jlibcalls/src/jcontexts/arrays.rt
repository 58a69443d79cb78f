ghost use Rattle.std.specs.Prelude.{◌≡◌, ◌++◌, ◌∷◌, [], IfOk, OnOk, is_some, option_map, true};
ghost use Rattle.jmemory.specs.jheap.Heaps.{cells_at, object_at};
ghost use Rattle.jresolution.specs.declared.jprogram.part.ClassRef.TheVariants as refs;
ghost use Rattle.jruntime.specs.jstate.ClassNumbers;
ghost use Rattle.jruntime.specs.jstate.HeapMeanings;
ghost use Rattle.jruntime.specs.jstate.HeapMeanings.{array_at, place_in};
ghost use Rattle.jlibcalls.specs.jcontexts.LimitPermissions;
ghost use Rattle.jlibcalls.specs.jcontexts.LimitPermissions.{LimitIs, Limits, LimitsAre, limit_as};

use crate::jcontexts::contexts::first_cell;
use jground::jbase::Seq;
use jlib::LibClass;
use jmemory::jheap::{CellType, Heap, Kind};
use jperm::Permission;
use jresolution::jprogram::ClassRef;
use jresolution::juses::{ArrayRef, ElementRef};
use jruntime::jstate::{Shapes, array_type, class_numbered, heap_laws};
use jvalues::jops::Value;
use std::alloc::{AllocError, Global};

/// What an item of an array of permissions is.
#[derive(Clone, Copy)]
pub(crate) enum Item<'a> {
    Null,
    One(&'a Permission),
    /// Something else.
    Stuck,
}

// ---- permissions

/// Whether a class of the library is one of permissions.
#[inline]
fn is_permission_class(class: LibClass) -> bool
    ensures { result ≡ LimitPermissions.is_permission (refs.Lib class) }
{
    matches!(class, LibClass::Permission(_))
}

/// Whether the class of one of the heap's numbers is one of permissions.
#[inline]
fn is_permission(class: u32) -> bool
    ensures { result ≡ LimitPermissions.is_permission (ClassNumbers.class_numbered class) }
{
    match class_numbered(class) {
        ClassRef::User(_) => false,
        ClassRef::Lib(class) => is_permission_class(class),
    }
}

/// The place, from 1, of the permission that an object holds, 0 where the object of a number holds none.
#[tactic(auto, using(crate::proofs::JcontextsProofs::ContextContents::is_there))]
fn permission_place(heap: &Heap, o: u32) -> u64
    ensures { result ≡ LimitPermissions.permission_place heap.now o }
{
    match heap.found(o) {
        Some(Kind::Object(class)) => {
            if !is_permission(class) {
                return 0;
            }
            first_cell(heap, o)
        }
        Some(Kind::Array(_)) => 0,
        Some(Kind::Text) => 0,
        Some(Kind::Piece) => 0,
        None => 0,
    }
}

/// The permission at a place, which count from 1.
#[inline]
fn permission_at(permissions: &[Permission], place: u64) -> Option<&Permission>
    ensures { option_map (λ one. one.now) result ≡ place_in permissions.now place }
{
    if place == 0 {
        return None;
    }
    permissions.get((place - 1) as usize)
}

/// What a value is as a limit.
#[tactic(auto, using(crate::proofs::JcontextsProofs::PrivilegeLimits::null_limits, crate::proofs::JcontextsProofs::PrivilegeLimits::none_limits))]
fn limit<'a>(heap: &Heap, permissions: &'a [Permission], item: Value) -> Item<'a>
    ensures { LimitIs permissions.now heap.now item (limit_as result) }
{
    heap_laws();
    match item {
        Value::Int(_) => Item::Stuck,
        Value::Long(_) => Item::Stuck,
        Value::Ctx(_) => Item::Stuck,
        Value::Ref(o) => {
            if o == 0 {
                return Item::Null;
            }
            match permission_at(permissions, permission_place(heap, o)) {
                None => Item::Stuck,
                Some(one) => Item::One(one),
            }
        }
    }
}

// ---- arrays

/// Puts a permission behind the others.
fn add(alloc: Global, limits: &mut Seq<Permission>, one: &Permission) -> Result<(), AllocError>
    ensures { OnOk result (limits.new ≡ limits.old ++ one.now ∷ []) }
{
    let copy = one.copy(alloc)?;
    limits.push(copy)
}

/// The permissions that the cells of an object hold as values of a type; null where one of them is.
#[tactic(auto, using(crate::proofs::JcontextsProofs::PrivilegeLimits::at_first))]
fn all_limits(
    alloc: Global,
    heap: &Heap,
    permissions: &[Permission],
    o: u32,
    of: CellType,
) -> Result<Option<Option<Seq<Permission>>>, AllocError>
    requires { is_some (object_at heap.now o) ≡ true }
    ensures { IfOk result (λ l. LimitsAre permissions.now heap.now of (cells_at heap.now o) l) }
{
    let mut limits = Seq::new(alloc);
    for i in 0..heap.len(o) {
        match limit(heap, permissions, heap.cell(o, i, of)) {
            Item::Stuck => return Ok(None),
            Item::Null => return Ok(Some(None)),
            Item::One(one) => add(alloc, &mut limits, one)?,
        }
    }
    Ok(Some(Some(limits)))
}

fn element_type(element: ElementRef) -> CellType
    ensures { result ≡ HeapMeanings.element_type element }
{
    match element {
        ElementRef::Boolean => CellType::Int,
        ElementRef::Byte => CellType::Int,
        ElementRef::Char => CellType::Int,
        ElementRef::Short => CellType::Int,
        ElementRef::Int => CellType::Int,
        ElementRef::Long => CellType::Long,
        ElementRef::Class(_) => CellType::Ref,
    }
}

fn item_type(a: ArrayRef) -> CellType
    ensures { result ≡ HeapMeanings.item_type a }
{
    if a.depth > 1 {
        return CellType::Ref;
    }
    element_type(a.element)
}

/// The type of the items of the arrays of one of the heap's numbers.
fn items_of(shapes: &Shapes, number: u32) -> CellType
    ensures { result ≡ HeapMeanings.item_type (array_at shapes.now number) }
{
    item_type(array_type(shapes, number))
}

/// The permissions that limit a privilege, of the array that an operand names: null where the array or one of its items is, and no answer
/// where it names something else, or one of the items before is something else. They are copied from those that the machine keeps.
#[tactic(auto, using(crate::proofs::JcontextsProofs::ContextContents::is_there, crate::proofs::JcontextsProofs::PrivilegeLimits::null_array, crate::proofs::JcontextsProofs::PrivilegeLimits::no_array, crate::proofs::JcontextsProofs::PrivilegeLimits::an_array,),)]
pub fn limits(
    alloc: Global,
    heap: &Heap,
    shapes: &Shapes,
    permissions: &[Permission],
    operand: Value,
) -> Result<Option<Option<Seq<Permission>>>, AllocError>
    ensures { IfOk result (λ l. Limits permissions.now shapes.now heap.now operand l) }
{
    heap_laws();
    match operand {
        Value::Int(_) => Ok(None),
        Value::Long(_) => Ok(None),
        Value::Ctx(_) => Ok(None),
        Value::Ref(o) => {
            if o == 0 {
                return Ok(Some(None));
            }
            match heap.found(o) {
                Some(Kind::Array(number)) => {
                    all_limits(alloc, heap, permissions, o, items_of(shapes, number))
                }
                Some(Kind::Object(_)) => Ok(None),
                Some(Kind::Text) => Ok(None),
                Some(Kind::Piece) => Ok(None),
                None => Ok(None),
            }
        }
    }
}
