ghost use Rattle.std.specs.Prelude.{◌≡◌, ◌<◌, ◌≤◌, ◌+◌, ◌^◌, [], ℕ, List, IfSome, is_some, length, slice_get, true};
ghost use Rattle.jparts.specs.declared.jcode.op_form.ArrayForm.TheVariants as forms;
ghost use Rattle.jmemory.specs.jheap.Heaps.{cells_at, object_at};
ghost use Rattle.jsemantics.specs.jmachine.ArrayInstructions as rows;
ghost use Rattle.jsemantics.specs.jmachine.Narrowing.{place as place_of};
ghost use Rattle.jresolution.specs.jprogram.ProgramClasses.{Program};
ghost use Rattle.jtyping.specs.jrule.StackEffects.{same_items};
ghost use Rattle.jresolution.specs.juses.IndexedInstructions as instructions;
ghost use Rattle.jruntime.specs.jstate.HeapMeanings.{Things, array_at as shape_at, store_by};
ghost use Rattle.jrows.specs.jacts.ArrayAccesses;
ghost use Rattle.jrows.specs.jacts.ArrayAccesses.{with_items};
ghost use Rattle.jrows.specs.jacts.ArrayOperands.{array_seen};
ghost use Rattle.jrows.specs.jacts.RowOutcomes.{Acts, Rests, leaves};

use crate::jacts::arrays::{ArrayOperand, array_at};
use crate::jacts::jumps::int_at;
use crate::jacts::straight::give_for;
use crate::jacts::way::Way;
use jlib::{LibClass, Thrown};
use jmemory::jheap::{CellType, Heap};
use jparts::jcode::Element;
use jresolution::juses::{ArrayRef, ElementRef};
use jruntime::jstate::{Frames, Shapes, element_of, numbers_at, row_type};
use jvalues::jops::Value;

// ---- what arrays hold

/// The type of the cells of arrays with such items.
#[inline]
fn cell_for(e: Element) -> CellType
    ensures { result ≡ ArrayAccesses.cell_for e }
{
    match e {
        Element::Int => CellType::Int,
        Element::Long => CellType::Long,
        Element::Ref => CellType::Ref,
        Element::Byte => CellType::Int,
        Element::Char => CellType::Int,
        Element::Short => CellType::Int,
    }
}

#[inline]
fn held_as(element: ElementRef) -> Element
    ensures { result ≡ ArrayAccesses.held_as element }
{
    match element {
        ElementRef::Boolean => Element::Byte,
        ElementRef::Char => Element::Char,
        ElementRef::Byte => Element::Byte,
        ElementRef::Short => Element::Short,
        ElementRef::Int => Element::Int,
        ElementRef::Long => Element::Long,
        ElementRef::Class(_) => Element::Ref,
    }
}

/// What an array of a type holds, as loads and stores tell it apart.
#[inline]
fn items_by(a: ArrayRef) -> Element
    ensures { result ≡ ArrayAccesses.items_by a }
{
    if 1 < a.depth {
        return Element::Ref;
    }
    held_as(a.element)
}

/// What the arrays of a number of the heap hold. Where the number says it, no type is looked up.
#[inline]
#[tactic(auto, using(crate::proofs::JactsProofs::ArrayLoads::items_said, crate::proofs::JactsProofs::ArrayLoads::items_row))]
fn items_of(shapes: &Shapes, number: u32) -> Element
    ensures { result ≡ ArrayAccesses.items_by (shape_at shapes.now number) }
{
    match numbers_at(number) {
        None => items_by(row_type(shapes, number)),
        Some(kind) => held_as(element_of(kind)),
    }
}

#[inline]
fn is_same(e: Element, held: Element) -> bool
    ensures { result ≡ same_items e held }
{
    match e {
        Element::Int => matches!(held, Element::Int),
        Element::Long => matches!(held, Element::Long),
        Element::Ref => matches!(held, Element::Ref),
        Element::Byte => matches!(held, Element::Byte),
        Element::Char => matches!(held, Element::Char),
        Element::Short => matches!(held, Element::Short),
    }
}

/// The array that stands at a place among the newest frame's operands, counted from the newest, where it has such items.
#[inline]
pub(crate) fn items_at<M: Copy>(
    frames: &Frames<M>,
    heap: &Heap,
    shapes: &Shapes,
    i: usize,
    e: Element,
) -> ArrayOperand
    ensures { result ≡ with_items shapes.now e (array_seen heap.now (slice_get frames.now.newest.operands i)) }
{
    match array_at(frames, heap, i) {
        ArrayOperand::Other => ArrayOperand::Other,
        ArrayOperand::Null => ArrayOperand::Null,
        ArrayOperand::Array(o, a) => {
            if is_same(e, items_of(shapes, a)) {
                return ArrayOperand::Array(o, a);
            }
            ArrayOperand::Other
        }
    }
}

// ---- items

/// The place of an index among so many items, where it is one of theirs.
#[inline]
#[tactic(auto, using(crate::proofs::JactsProofs::NewArrays::counts, crate::proofs::JactsProofs::NewArrays::negative))]
pub fn within(count: u32, i: i32) -> Option<u32>
    ensures place { result ≡ rows.within count (place_of i) }
    ensures inside { IfSome result (λ k. k < count) }
{
    if i < 0 {
        return None;
    }
    let k = i as u32;
    if k < count {
        return Some(k);
    }
    None
}

/// The item of an index, where it is there.
#[inline]
#[tactic(auto, using(crate::proofs::JactsProofs::ArrayLoads::item_found))]
fn item_at(heap: &Heap, of: CellType, o: u32, i: i32) -> Option<Value>
    requires { is_some (object_at heap.now o) ≡ true }
    ensures item { result ≡ ArrayAccesses.item_in heap.now of o i }
    ensures there { is_some result ≡ is_some (rows.within (length (cells_at heap.now o)) (place_of i)) }
{
    let look = heap.looked(o);
    match within(look.len, i) {
        None => None,
        Some(k) => Some(heap.at(look, k, of)),
    }
}

/// A load of an item from an array (JVMS 6.5: iaload, laload, aaload, baload, caload, saload). A null array comes before an index that
/// isn't there.
#[inline]
#[tactic(auto, using(crate::proofs::JactsProofs::ArrayLoads::has_second))]
pub fn array_load<M: Copy>(frames: &mut Frames<M>, heap: &Heap, shapes: &Shapes, e: Element) -> Way
    requires place { frames.old.newest.place + 1 < 2 ^ 32 }
    ensures row { (p : Program) (things : Things) (constants : List (List ℕ × ℕ)) →
        let s = store_by p shapes.now things constants heap.now in Acts (instructions.Array (forms.Load e)) frames.old.newest s (leaves result [] frames.new.newest s) }
    ensures below { frames.new.below ≡ frames.old.below }
    ensures rests { Rests result frames.old frames.new }
{
    let Some(i) = int_at(frames, 0) else {
        return Way::Stuck;
    };
    match items_at(frames, heap, shapes, 1, e) {
        ArrayOperand::Other => Way::Stuck,
        ArrayOperand::Null => Way::Raises(LibClass::Thrown(Thrown::NullPointerException)),
        ArrayOperand::Array(o, _) => match item_at(heap, cell_for(e), o, i) {
            None => Way::Raises(LibClass::Thrown(Thrown::ArrayIndexOutOfBoundsException)),
            Some(value) => {
                give_for(frames, 2, value);
                Way::Went
            }
        },
    }
}
