ghost use Rattle.std.specs.Prelude.{◌≡◌, ℕ, List, is_some, true};
ghost use Rattle.jmemory.specs.jheap.Heaps.{cells_at, object_at};
ghost use Rattle.jsemantics.specs.jmachine.PrivilegeActions;
ghost use Rattle.jsemantics.specs.jmachine.Security.{kept_in};
ghost use Rattle.jsemantics.specs.jmachine.Store.{object_of};
ghost use Rattle.jresolution.specs.jprogram.ProgramClasses.{Program};
ghost use Rattle.jresolution.specs.declared.jprogram.part.ClassRef.TheVariants as refs;
ghost use Rattle.jruntime.specs.declared.jstate.shapes.Shapes.{Shapes};
ghost use Rattle.jruntime.specs.jstate.ClassNumbers;
ghost use Rattle.jruntime.specs.jstate.HeapMeanings.{Things, first, place_in, store_by};
ghost use Rattle.jlibcalls.specs.jcontexts.KeptContexts;

use jlib::LibClass;
use jmemory::jheap::{CellType, Heap, Kind};
use jresolution::jprogram::ClassRef;
use jruntime::jstate::{class_numbered, heap_laws};
use jvalues::jops::Value;

/// The number in an object's first cell, 0 where it has none.
#[inline]
pub(crate) fn first_cell(heap: &Heap, o: u32) -> u64
    requires { is_some (object_at heap.now o) ≡ true }
    ensures { result ≡ first (cells_at heap.now o) }
{
    if heap.len(o) == 0 {
        return 0;
    }
    match heap.cell(o, 0, CellType::Ctx) {
        Value::Int(_) => 0,
        Value::Long(_) => 0,
        Value::Ref(_) => 0,
        Value::Ctx(n) => n,
    }
}

/// Whether a class of the library is AccessControlContext.
#[inline]
fn is_context_class(class: LibClass) -> bool
    ensures { result ≡ KeptContexts.is_context (refs.Lib class) }
{
    matches!(class, LibClass::AccessControlContext)
}

/// Whether the class of one of the heap's numbers is AccessControlContext.
#[inline]
fn is_context(class: u32) -> bool
    ensures { result ≡ KeptContexts.is_context (ClassNumbers.class_numbered class) }
{
    match class_numbered(class) {
        ClassRef::User(_) => false,
        ClassRef::Lib(class) => is_context_class(class),
    }
}

/// The place, from 1, of what an AccessControlContext keeps, 0 where the object of a number is none.
#[tactic(auto, using(crate::proofs::JcontextsProofs::ContextContents::is_there))]
fn place_held(heap: &Heap, o: u32) -> u64
    ensures { result ≡ KeptContexts.place_held heap.now o }
{
    match heap.found(o) {
        Some(Kind::Object(class)) => {
            if !is_context(class) {
                return 0;
            }
            first_cell(heap, o)
        }
        Some(Kind::Array(_)) => 0,
        Some(Kind::Text) => 0,
        Some(Kind::Piece) => 0,
        None => 0,
    }
}

/// The number at a place, which count from 1.
#[inline]
fn at_place(kept: &[u64], place: u64) -> Option<u64>
    ensures { result ≡ place_in kept.now place }
{
    if place == 0 {
        return None;
    }
    match kept.get((place - 1) as usize) {
        None => None,
        Some(number) => Some(*number),
    }
}

/// What the AccessControlContext keeps that an operand names, where these numbers are kept; none where it names no such object.
#[tactic(auto, using(crate::proofs::JcontextsProofs::ContextContents::holds))]
pub fn kept_of(heap: &Heap, kept: &[u64], operand: Value) -> Option<u64>
    ensures { (p : Program) (shapes : Shapes) (things : Things) (constants : List (List ℕ × ℕ)) → things.kept ≡ kept.now
        → result ≡ kept_in (object_of (store_by p shapes things constants heap.now) operand) }
{
    heap_laws();
    match operand {
        Value::Int(_) => None,
        Value::Long(_) => None,
        Value::Ctx(_) => None,
        Value::Ref(o) => at_place(kept, place_held(heap, o)),
    }
}

/// The context that is given with an action, where null gives none; no answer where the operand names something else.
#[tactic(auto, using(crate::proofs::JcontextsProofs::ContextContents::null_gives, crate::proofs::JcontextsProofs::ContextContents::one_gives))]
pub fn given(heap: &Heap, kept: &[u64], operand: Value) -> Option<Option<u64>>
    ensures { (p : Program) (shapes : Shapes) (things : Things) (constants : List (List ℕ × ℕ)) → things.kept ≡ kept.now
        → result ≡ PrivilegeActions.given (store_by p shapes things constants heap.now) operand }
{
    match operand {
        Value::Int(_) => None,
        Value::Long(_) => None,
        Value::Ctx(_) => None,
        Value::Ref(o) => {
            if o == 0 {
                return Some(None);
            }
            match kept_of(heap, kept, operand) {
                None => None,
                Some(number) => Some(Some(number)),
            }
        }
    }
}
