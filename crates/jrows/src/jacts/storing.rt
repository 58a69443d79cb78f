ghost use Rattle.std.specs.Prelude.{◌≡◌, ◌<◌, ◌≤◌, ◌+◌, ◌^◌, [], ℕ, List, Some, drop, false, is_some, length, slice_get, true};
ghost use Rattle.jparts.specs.jcode.InstructionForms;
ghost use Rattle.jparts.specs.declared.jcode.names.Element.TheVariants as items;
ghost use Rattle.jparts.specs.declared.jcode.op_form.ArrayForm.TheVariants as forms;
ghost use Rattle.jmemory.specs.jheap.Heaps.{cells_at, look_at, object_at, with_cell};
ghost use Rattle.jmemory.specs.jheap.RawValues;
ghost use Rattle.jsemantics.specs.jmachine.Narrowing;
ghost use Rattle.jvalues.specs.jops.ValueKinds.{is_of};
ghost use Rattle.jresolution.specs.jprogram.ProgramClasses.{Program};
ghost use Rattle.jtyping.specs.jrule.StackEffects.{same_items};
ghost use Rattle.jresolution.specs.juses.IndexedInstructions as instructions;
ghost use Rattle.jresolution.specs.juses.InternedTypes.{element_named, array_named};
ghost use Rattle.jruntime.specs.jstate.FrameLists.{with_newest};
ghost use Rattle.jruntime.specs.jstate.ObjectCells.{StayCelled};
ghost use Rattle.jruntime.specs.jstate.HeapMeanings.{AreBuilt, Things, array_at, store_by};
ghost use Rattle.jsemantics.specs.jmachine.ArrayInstructions as rows;
ghost use Rattle.jrows.specs.jacts.ArrayAccesses.{HasPut, kept_if};
ghost use Rattle.jrows.specs.jacts.RowOutcomes.{Acts, Rests, leaves};

use crate::jacts::access::{items_at, within};
use crate::jacts::arrays::ArrayOperand;
use crate::jacts::jumps::int_at;
use crate::jacts::way::Way;
use jlib::{LibClass, Thrown};
use jmemory::jheap::{Heap, Look, raw_laws};
use jparts::jcode::Element;
use jresolution::juses::{ArrayRef, ElementRef};
use jruntime::jstate::{
    Frames, Shapes, built_laws, celled_laws, element_of, heap_laws, numbers_at, row_type,
};
use jvalues::jnames::{Kind, OpOne};
use jvalues::jops::{Value, one};

/// What is left of a value in an array of such elements.
#[inline]
#[tactic(auto, unfolding(jvalues::specs::jops::Operations::one))]
pub fn narrowed(element: ElementRef, value: Value) -> Value
    ensures { (p : Program) → result ≡ Narrowing.narrowed (Some (element_named p element)) value }
{
    match value {
        Value::Int(x) => match element {
            ElementRef::Boolean => Value::Int(x.rem_euclid(2)),
            ElementRef::Char => one(OpOne::I2c, value),
            ElementRef::Byte => one(OpOne::I2b, value),
            ElementRef::Short => one(OpOne::I2s, value),
            ElementRef::Int => value,
            ElementRef::Long => value,
            ElementRef::Class(_) => value,
        },
        Value::Long(_) => value,
        Value::Ref(_) => value,
        Value::Ctx(_) => value,
    }
}

/// What is left of a value in an array of a type.
#[inline]
fn held_by(a: ArrayRef, value: Value) -> Value
    ensures { (p : Program) → result ≡ Narrowing.narrowed (Narrowing.held_by (array_named p a)) value }
{
    if 1 < a.depth {
        return value;
    }
    narrowed(a.element, value)
}

/// What is left of a value in the arrays of a number of the heap. Where the number says what they hold, no type is looked up.
#[inline]
#[tactic(auto, using(crate::proofs::JactsProofs::NumberStores::held_row))]
fn held_in(shapes: &Shapes, number: u32, value: Value) -> Value
    ensures { (p : Program) → result ≡ Narrowing.narrowed (Narrowing.held_by (array_named p (array_at shapes.now number))) value }
{
    match numbers_at(number) {
        None => held_by(row_type(shapes, number), value),
        Some(kind) => narrowed(element_of(kind), value),
    }
}

/// Puts a value into a cell, which is there, of an object that was looked at. The cell gives it back.
#[inline]
pub fn put_at(heap: &mut Heap, look: Look, k: u32, value: Value)
    requires good { look_at heap.old look.object ≡ Some look }
    requires there { k < look.len }
    ensures heap { heap.new ≡ with_cell heap.old look.object k (RawValues.raw value) }
    ensures back { RawValues.of_raw (RawValues.type_of value) (RawValues.raw value) ≡ value }
{
    raw_laws();
    heap.set_at(look, k, value);
}

/// The kind of what an array holds.
#[inline]
fn kind_of(e: Element) -> Kind
    ensures { result ≡ InstructionForms.element e }
{
    match e {
        Element::Int => Kind::Int,
        Element::Long => Kind::Long,
        Element::Ref => Kind::Ref,
        Element::Byte => Kind::Int,
        Element::Char => Kind::Int,
        Element::Short => Kind::Int,
    }
}

/// The number that is stored, where it is of the kind of what the array holds.
#[inline]
fn stored<M: Copy>(frames: &Frames<M>, e: Element) -> Option<Value>
    ensures { result ≡ kept_if (InstructionForms.element e) (slice_get frames.now.newest.operands 0) }
{
    if frames.count() < 1 {
        return None;
    }
    let value = frames.operand(0);
    if value.is_of(kind_of(e)) {
        return Some(value);
    }
    None
}

/// The item of an index is written, where it is there, and the frame loses what it took.
#[inline]
fn put_item<M: Copy>(frames: &mut Frames<M>, heap: &mut Heap, o: u32, i: i32, value: Value) -> Way
    requires place { frames.old.newest.place + 1 < 2 ^ 32 }
    requires few { 3 ≤ length frames.old.newest.operands }
    requires there { is_some (object_at heap.old o) ≡ true }
    ensures { HasPut o value frames.old heap.old result frames.new heap.new (rows.within (length (cells_at heap.old o)) (Narrowing.place i)) }
{
    let look = heap.looked(o);
    match within(look.len, i) {
        None => Way::Raises(LibClass::Thrown(Thrown::ArrayIndexOutOfBoundsException)),
        Some(k) => {
            put_at(heap, look, k, value);
            frames.shrink(3);
            frames.go_on();
            Way::Went
        }
    }
}

/// A store of a number into an array (JVMS 6.5: iastore, lastore, bastore, castore, sastore). A null array comes before an index that
/// isn't there. Of an int there stays what the array's items hold.
#[inline]
pub fn array_store<M: Copy>(
    frames: &mut Frames<M>,
    heap: &mut Heap,
    shapes: &Shapes,
    e: Element,
) -> Way
    requires place { frames.old.newest.place + 1 < 2 ^ 32 }
    requires number { same_items items.Ref e ≡ false }
    ensures row { (p : Program) (things : Things) (constants : List (List ℕ × ℕ)) →
        Acts (instructions.Array (forms.Store e)) frames.old.newest (store_by p shapes.now things constants heap.old)
        (leaves result [] frames.new.newest (store_by p shapes.now things constants heap.new)) }
    ensures below { frames.new.below ≡ frames.old.below }
    ensures rests { Rests result frames.old frames.new }
    ensures kept { Rests result heap.old heap.new }
    ensures built { AreBuilt heap.old.objects → AreBuilt heap.new.objects }
    ensures celled { StayCelled heap.old.objects heap.new.objects }
{
    heap_laws();
    built_laws();
    celled_laws();
    let Some(value) = stored(frames, e) else {
        return Way::Stuck;
    };
    let Some(i) = int_at(frames, 1) else {
        return Way::Stuck;
    };
    match items_at(frames, heap, shapes, 2, e) {
        ArrayOperand::Other => Way::Stuck,
        ArrayOperand::Null => Way::Raises(LibClass::Thrown(Thrown::NullPointerException)),
        ArrayOperand::Array(o, a) => put_item(frames, heap, o, i, held_in(shapes, a, value)),
    }
}
