ghost use Rattle.std.specs.Prelude.{◌≡◌, ◌<◌, ◌^◌, ◌∷◌, [], ℕ, List, IfOk, OnOk, is_some, length as len, option_and_then, pos, slice_get, true};
ghost use Rattle.std.specs.Str.{bytes_eq};
ghost use Rattle.jmemory.specs.jheap.Heaps.{cells_at, object_at};
ghost use Rattle.jvalues.specs.declared.jops.value.Value.TheVariants as values;
ghost use Rattle.jlib.specs.declared.calls.StringCall.TheVariants as calls;
ghost use Rattle.jresolution.specs.jprogram.ProgramClasses.{Program};
ghost use Rattle.jsemantics.specs.jmachine.Narrowing.{place};
ghost use Rattle.jsemantics.specs.jmachine.TextCalls.{string};
ghost use Rattle.jruntime.specs.declared.jstate.shapes.Shapes.{Shapes};
ghost use Rattle.jruntime.specs.jstate.ObjectCells.{StayCelled};
ghost use Rattle.jruntime.specs.jstate.HeapMeanings.{AreBuilt, Things, store_by, units_of};
ghost use Rattle.jrows.specs.jtexts.TextCallOutcomes.{Comes, flag as flag_value, leaves};

use crate::jtexts::making::text_made;
use crate::jtexts::ran::Ran;
use crate::jtexts::texts::{is_null, read_onto, text_of};
use jlib::{LibClass, Thrown};
use jmemory::jheap::Heap;
use jruntime::jstate::heap_laws;
use jvalues::jops::Value;
use std::alloc::{AllocError, Global};

/// How many units a text has, as an int.
#[inline]
fn length_of(heap: &Heap, o: u32) -> Value
    requires there { is_some (object_at heap.now o) ≡ true }
    requires small { len (cells_at heap.now o) < 2 ^ 31 }
    ensures { result ≡ values.Int (pos (len (cells_at heap.now o))) }
{
    Value::Int(heap.len(o) as i32)
}

/// The length of a string. Texts have fewer than 2 ^ 31 units. `M` is what frames carry, which no call looks at.
#[inline]
pub fn length<M>(heap: &Heap, text: Value) -> Ran
    requires small { (o : ℕ) → len (cells_at heap.now o) < 2 ^ 31 }
    ensures { (p : Program) (shapes : Shapes) (things : Things) (constants : List (List ℕ × ℕ)) →
        let s = store_by p shapes things constants heap.now in Comes {E = M} s (string s calls.Length (text ∷ [])) (leaves result [] s) }
{
    heap_laws();
    let Some(o) = text_of(heap, text) else {
        return Ran::Stuck;
    };
    Ran::Gave(length_of(heap, o))
}

/// The unit of a text at an index, where there is one.
#[inline]
fn unit_at(heap: &Heap, o: u32, index: i32) -> Option<u16>
    requires { is_some (object_at heap.now o) ≡ true }
    ensures { result ≡ option_and_then (slice_get (units_of (cells_at heap.now o))) (place index) }
{
    if index < 0 {
        return None;
    }
    let at = index as u32;
    if at >= heap.len(o) {
        return None;
    }
    Some(heap.unit(o, at))
}

/// A unit as an int.
#[inline]
fn unit_value(unit: u16) -> Value
    ensures { result ≡ values.Int (pos unit) }
{
    Value::Int(i32::from(unit))
}

/// String's `charAt`, of an index.
#[inline]
pub fn char_at<M>(heap: &Heap, text: Value, index: i32) -> Ran
    ensures { (p : Program) (shapes : Shapes) (things : Things) (constants : List (List ℕ × ℕ)) →
        let s = store_by p shapes things constants heap.now in Comes {E = M} s (string s calls.CharAt (values.Int index ∷ text ∷ [])) (leaves result [] s) }
{
    heap_laws();
    let Some(o) = text_of(heap, text) else {
        return Ran::Stuck;
    };
    match unit_at(heap, o, index) {
        None => Ran::Raises(LibClass::Thrown(Thrown::StringIndexOutOfBoundsException)),
        Some(unit) => Ran::Gave(unit_value(unit)),
    }
}

/// Whether two texts have the same units.
fn are_same(heap: &Heap, a: u32, b: u32) -> bool
    requires one { is_some (object_at heap.now a) ≡ true }
    requires other { is_some (object_at heap.now b) ≡ true }
    ensures { result ≡ bytes_eq (units_of (cells_at heap.now a)) (units_of (cells_at heap.now b)) }
{
    let count = heap.len(a);
    if heap.len(b) != count {
        return false;
    }
    for i in 0..count {
        if heap.unit(a, i) != heap.unit(b, i) {
            return false;
        }
    }
    true
}

/// A boolean as a value.
#[inline]
fn flag(holds: bool) -> Value
    ensures { result ≡ flag_value holds }
{
    if holds { Value::Int(1) } else { Value::Int(0) }
}

/// String's `equals`.
pub fn equals<M>(heap: &Heap, text: Value, other: Value) -> Ran
    ensures { (p : Program) (shapes : Shapes) (things : Things) (constants : List (List ℕ × ℕ)) →
        let s = store_by p shapes things constants heap.now in Comes {E = M} s (string s calls.Equals (other ∷ text ∷ [])) (leaves result [] s) }
{
    heap_laws();
    let Some(o) = text_of(heap, text) else {
        return Ran::Stuck;
    };
    let Some(n) = text_of(heap, other) else {
        return Ran::Gave(flag(false));
    };
    Ran::Gave(flag(are_same(heap, o, n)))
}

/// String's `concat`: a new text of the units of both.
pub fn concat<M>(
    alloc: Global,
    heap: &mut Heap,
    text: Value,
    more: Value,
) -> Result<Ran, AllocError>
    requires { AreBuilt heap.old.objects }
    ensures row { IfOk result (λ ran. (p : Program) (shapes : Shapes) (things : Things) (constants : List (List ℕ × ℕ)) →
        let s = store_by p shapes things constants heap.old in
        Comes {E = M} s (string s calls.Concat (more ∷ text ∷ [])) (leaves ran [] (store_by p shapes things constants heap.new))) }
    ensures built { OnOk result (AreBuilt heap.new.objects) }
    ensures celled { OnOk result (StayCelled heap.old.objects heap.new.objects) }
{
    heap_laws();
    if is_null(more) {
        return Ok(Ran::Raises(LibClass::Thrown(Thrown::NullPointerException)));
    }
    let Some(o) = text_of(heap, text) else {
        return Ok(Ran::Stuck);
    };
    let Some(n) = text_of(heap, more) else {
        return Ok(Ran::Stuck);
    };
    let mut units = Vec::new(alloc);
    read_onto(heap, o, &mut units)?;
    read_onto(heap, n, &mut units)?;
    text_made::<M>(alloc, heap, units.as_slice())
}
