ghost use Rattle.std.specs.Prelude.{◌≡◌, ◌<◌, ℕ, IfSome, Some, length, slice_get};
ghost use Rattle.jparts.specs.declared.jcode.names.Element.TheVariants as items;
ghost use Rattle.jmemory.specs.jheap.Heaps.{kind_at};
ghost use Rattle.jsemantics.specs.jmachine.InstructionSites.{Site};
ghost use Rattle.jsemantics.specs.jmachine.Store.{Store};
ghost use Rattle.jsemantics.specs.jmachine.World.{world};
ghost use Rattle.jvalues.specs.declared.jnames.kinds.Kind.TheVariants as wanted;
ghost use Rattle.jrows.specs.jobjs.StoredReferences.{MayStore, ServeStore, held_seen};
ghost use Rattle.jresolution.specs.jprogram.ProgramClasses.{Program};
ghost use Rattle.jtyping.specs.jrule.StackEffects;
ghost use Rattle.jtyping.specs.jrule.StackEffects.{Holds, Of};
ghost use Rattle.jresolution.specs.juses.InternedTypes.{array_named, named};
ghost use Rattle.jserving.specs.declared.jserve.values.Objects.{Objects as ObjectsOf};
ghost use Rattle.jserving.specs.jserve.OperandChecks.{one_serves, serves_in};
ghost use Rattle.jserving.specs.jserve.StoreTargets.{number_found, number_held};
ghost use Rattle.jserving.specs.jserve.ValueTypes.{IsStore};

use crate::jfits::Ancestors;
use crate::jserve::casts::{is_stored, ref_at};
use crate::jserve::values::{Objects, value_type};
use jmemory::jheap::{Heap, Kind};
use jresolution::juses::{ArrayRef, ElementRef, TypeRef};
use jruntime::jstate::{Frames, array_type, heap_laws};
use jvalues::jops::Value;

// ---- whether the operands serve

#[inline]
#[tactic(auto, using(crate::proofs::JserveProofs::ArrayStores::ref_is_no_int))]
fn is_int(value: Value) -> bool
    ensures { (p : Program) (x : ObjectsOf) → result ≡ serves_in p x (Of wanted.Int) value }
{
    match value {
        Value::Int(_) => true,
        Value::Long(_) => false,
        Value::Ref(_) => false,
        Value::Ctx(_) => false,
    }
}

/// Whether the operand at a place, counted from the newest, is an int, if it is there.
#[inline]
fn int_at<M: Copy>(frames: &Frames<M>, i: usize) -> bool
    ensures { (p : Program) (x : ObjectsOf) → result ≡ one_serves (serves_in p x) (Of wanted.Int) (slice_get frames.now.newest.operands i) }
{
    if i >= frames.count() {
        return false;
    }
    is_int(frames.operand(i))
}

/// Whether an array of a type holds references.
#[inline]
#[tactic(auto, using(crate::proofs::JserveProofs::ArrayStores::many_held, crate::proofs::JserveProofs::ArrayStores::one_held))]
fn has_refs(array: ArrayRef) -> bool
    ensures { (p : Program) → result ≡ StackEffects.same_items items.Ref (StackEffects.items_of (array_named p array)) }
{
    if array.depth > 1 {
        return true;
    }
    matches!(array.element, ElementRef::Class(_))
}

/// Whether a type is that of null, or of an array of references.
#[inline]
fn holds_refs(t: TypeRef) -> bool
    ensures { (p : Program) → result ≡ StackEffects.holds items.Ref (named p t) }
{
    match t {
        TypeRef::Null => true,
        TypeRef::Array(array) => has_refs(array),
        _ => false,
    }
}

/// Whether a value is null, or names an array of references.
#[inline]
#[tactic(auto, using(crate::proofs::JserveProofs::ArrayStores::no_refs, crate::proofs::JserveProofs::ArrayStores::refs_typed))]
fn is_refs(x: &Objects<'_>, value: Value) -> bool
    ensures { (p : Program) → result ≡ serves_in p x.now (Holds items.Ref) value }
{
    match value_type(x, value) {
        None => false,
        Some(t) => holds_refs(t),
    }
}

/// The same of the operand at a place, if it is there.
#[inline]
fn refs_at<M: Copy>(x: &Objects<'_>, frames: &Frames<M>, i: usize) -> bool
    ensures { (p : Program) → result ≡ one_serves (serves_in p x.now) (Holds items.Ref) (slice_get frames.now.newest.operands i) }
{
    if i >= frames.count() {
        return false;
    }
    is_refs(x, frames.operand(i))
}

/// Whether the operands of a store of a reference into an array serve (JVMS 6.5: aastore).
#[inline]
pub fn store_serves<M: Copy>(x: &Objects<'_>, frames: &Frames<M>) -> bool
    ensures { (p : Program) (at : Site) (s : Store ℕ) → IsStore p x.now s → at.world ≡ world p → ServeStore at s frames.now.newest.operands result }
{
    heap_laws();
    if !ref_at(x, frames, 0) {
        return false;
    }
    if !int_at(frames, 1) {
        return false;
    }
    refs_at(x, frames, 2)
}

// ---- whether the array holds what is stored

/// The heap's number for the type of the array of a number.
#[inline]
fn number_of(heap: &Heap, o: u32) -> Option<u32>
    ensures { result ≡ number_found (kind_at heap.now o) }
{
    match heap.found(o) {
        None => None,
        Some(Kind::Object(_)) => None,
        Some(Kind::Array(number)) => Some(number),
        Some(Kind::Text) => None,
        Some(Kind::Piece) => None,
    }
}

/// The heap's number for the type of the array that stands below an index and what is stored.
#[inline]
#[tactic(auto, using(crate::proofs::JserveProofs::ArrayStores::number_seen))]
fn number_at<M: Copy>(heap: &Heap, frames: &Frames<M>) -> Option<u32>
    ensures number { result ≡ number_held (held_seen heap.now (slice_get frames.now.newest.operands 2)) }
    ensures there { IfSome result (λ n. 2 < length frames.now.newest.operands) }
{
    if 2 >= frames.count() {
        return None;
    }
    match frames.operand(2) {
        Value::Int(_) => None,
        Value::Long(_) => None,
        Value::Ctx(_) => None,
        Value::Ref(o) => number_of(heap, o),
    }
}

/// Whether the array of a store of a reference may hold what is stored (JVMS 6.5: aastore).
#[inline]
pub fn may_store<M: Copy>(a: &Ancestors<'_>, x: &Objects<'_>, frames: &Frames<M>) -> bool
    ensures { (s : Store ℕ) → IsStore a.now x.now s
        → MayStore (world a.now) a.now x.now.shapes.now s x.now.heap.now frames.now.newest.operands result }
{
    match number_at(x.heap, frames) {
        None => false,
        Some(number) => is_stored(a, x, frames.operand(0), array_type(x.shapes, number)),
    }
}
