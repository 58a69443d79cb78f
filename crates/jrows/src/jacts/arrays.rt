ghost use Rattle.std.specs.Prelude.{◌≡◌, ◌<◌, ◌≤◌, ◌+◌, ◌^◌, ◌∷◌, [], ℕ, List, IfOk, MatchOption, OnOk, drop, is_some, length, pos, slice_get, true};
ghost use Rattle.jparts.specs.declared.jcode.names.ArrayType.{ArrayType as ArrayKind};
ghost use Rattle.jmemory.specs.declared.jheap.cell.Kind.TheVariants as kinds;
ghost use Rattle.jresolution.specs.juses.InternedTypes.{array_named};
ghost use Rattle.jsemantics.specs.jmachine.FrameOperations.{standing};
ghost use Rattle.jsemantics.specs.jmachine.Narrowing.{place as place_of};
ghost use Rattle.jruntime.specs.jstate.FrameLists.{with_newest};
ghost use Rattle.jrows.specs.declared.jacts.way.Way.TheVariants as ways;
ghost use Rattle.jparts.specs.declared.jcode.op_form.ArrayForm.TheVariants as forms;
ghost use Rattle.jmemory.specs.jheap.Heaps.{cells_at, object_at};
ghost use Rattle.jvalues.specs.declared.jops.value.Value.TheVariants as values;
ghost use Rattle.jresolution.specs.jprogram.ProgramClasses.{Program};
ghost use Rattle.jresolution.specs.juses.IndexedInstructions as instructions;
ghost use Rattle.jruntime.specs.declared.jstate.shapes.Shapes.{Shapes};
ghost use Rattle.jruntime.specs.jstate.ObjectCells.{StayCelled};
ghost use Rattle.jruntime.specs.jstate.HeapMeanings.{AreBuilt, Things, array_at as shape_at, store_by};
ghost use Rattle.jrows.specs.jacts.ArrayOperands.{HasMade, array_seen, row_of};
ghost use Rattle.jrows.specs.jacts.RowOutcomes.{Acts, Rests, leaves};

use crate::jacts::jumps::int_at;
use crate::jacts::straight::give_for;
use crate::jacts::way::Way;
use jlib::{LibClass, Thrown};
use jmemory::jheap::{Heap, Kind};
use jruntime::jstate::{Frames, built_laws, celled_laws, heap_laws};
use jvalues::jops::Value;
use std::alloc::{AllocError, Global};

/// What an operand is that is wanted to be an array.
#[derive(Clone, Copy)]
pub(crate) enum ArrayOperand {
    /// No array, or nothing that is there.
    Other,
    Null,
    /// The array of a number, with the heap's number for its type.
    Array(u32, u32),
}

/// The array that stands at a place among the newest frame's operands, counted from the newest.
#[inline]
pub(crate) fn array_at<M: Copy>(frames: &Frames<M>, heap: &Heap, i: usize) -> ArrayOperand
    ensures { result ≡ array_seen heap.now (slice_get frames.now.newest.operands i) }
{
    if i >= frames.count() {
        return ArrayOperand::Other;
    }
    match frames.operand(i) {
        Value::Int(_) => ArrayOperand::Other,
        Value::Long(_) => ArrayOperand::Other,
        Value::Ctx(_) => ArrayOperand::Other,
        Value::Ref(o) => {
            if o == 0 {
                return ArrayOperand::Null;
            }
            match heap.found(o) {
                Some(Kind::Array(a)) => ArrayOperand::Array(o, a),
                Some(Kind::Object(_)) => ArrayOperand::Other,
                Some(Kind::Text) => ArrayOperand::Other,
                Some(Kind::Piece) => ArrayOperand::Other,
                None => ArrayOperand::Other,
            }
        }
    }
}

/// How many items an array has, as an int.
#[inline]
fn length_of(heap: &Heap, o: u32) -> Value
    requires there { is_some (object_at heap.now o) ≡ true }
    requires small { length (cells_at heap.now o) < 2 ^ 31 }
    ensures { result ≡ values.Int (pos (length (cells_at heap.now o))) }
{
    Value::Int(heap.len(o) as i32)
}

/// The length of an array (JVMS 6.5: arraylength). Arrays have fewer than 2 ^ 31 items.
#[inline]
pub fn array_length<M: Copy>(frames: &mut Frames<M>, heap: &Heap) -> Way
    requires place { frames.old.newest.place + 1 < 2 ^ 32 }
    requires small { (o : ℕ) → length (cells_at heap.now o) < 2 ^ 31 }
    ensures row { (p : Program) (shapes : Shapes) (things : Things) (constants : List (List ℕ × ℕ)) →
        let s = store_by p shapes things constants heap.now in Acts (instructions.Array forms.Length) frames.old.newest s (leaves result [] frames.new.newest s) }
    ensures below { frames.new.below ≡ frames.old.below }
    ensures rests { Rests result frames.old frames.new }
{
    match array_at(frames, heap, 0) {
        ArrayOperand::Other => Way::Stuck,
        ArrayOperand::Null => Way::Raises(LibClass::Thrown(Thrown::NullPointerException)),
        ArrayOperand::Array(o, _) => {
            let len = length_of(heap, o);
            give_for(frames, 1, len);
            Way::Went
        }
    }
}

// ---- new arrays

/// How many items an array is to have, where the number isn't negative.
#[inline]
#[tactic(auto, using(crate::proofs::JactsProofs::NewArrays::counts, crate::proofs::JactsProofs::NewArrays::negative))]
pub fn count_of(n: i32) -> Option<u32>
    ensures { result ≡ place_of n }
{
    if n < 0 {
        return None;
    }
    Some(n as u32)
}

/// The reference of what was made takes the place of its length; where there were too few cells nothing changes.
#[inline]
fn put_made<M: Copy>(frames: &mut Frames<M>, made: Option<u32>) -> Way
    requires place { frames.old.newest.place + 1 < 2 ^ 32 }
    requires few { 1 ≤ length frames.old.newest.operands }
    ensures { MatchOption made ((result ≡ ways.Full) × (frames.new ≡ frames.old)) (λ o. (result ≡ ways.Went)
        × (frames.new ≡ with_newest
        (standing frames.old.newest (frames.old.newest.place + 1) (values.Ref o ∷ drop 1 frames.old.newest.operands)) frames.old)) }
{
    match made {
        None => Way::Full,
        Some(o) => {
            give_for(frames, 1, Value::Ref(o));
            Way::Went
        }
    }
}

/// A new array of so many items, each 0, of the heap's number for its type, takes the place of its length, the newest operand. Where there
/// were too few cells nothing changes.
#[inline]
pub fn make_array<M: Copy>(
    alloc: Global,
    frames: &mut Frames<M>,
    heap: &mut Heap,
    number: u32,
    count: u32,
) -> Result<Way, AllocError>
    requires place { frames.old.newest.place + 1 < 2 ^ 32 }
    requires few { 1 ≤ length frames.old.newest.operands }
    ensures { IfOk result (λ way. HasMade (kinds.Array number) count frames.old heap.old way frames.new heap.new) }
{
    let made = heap.make(Kind::Array(number), count);
    Ok(put_made(frames, made))
}

/// A new array of numbers (JVMS 6.5: newarray), of the heap's number for its type: of so many items as an operand says, each 0.
#[inline]
pub fn new_array<M: Copy>(
    alloc: Global,
    frames: &mut Frames<M>,
    heap: &mut Heap,
    number: u32,
) -> Result<Way, AllocError>
    requires place { frames.old.newest.place + 1 < 2 ^ 32 }
    requires built { AreBuilt heap.old.objects }
    ensures row { IfOk result (λ way. (p : Program) (shapes : Shapes) (things : Things) (constants : List (List ℕ × ℕ)) (kind : ArrayKind) →
        array_named p (shape_at shapes number) ≡ row_of kind → Acts (instructions.Array (forms.New kind)) frames.old.newest (store_by p shapes things constants heap.old)
        (leaves way [] frames.new.newest (store_by p shapes things constants heap.new))) }
    ensures below { OnOk result (frames.new.below ≡ frames.old.below) }
    ensures rests { IfOk result (λ way. Rests way frames.old frames.new) }
    ensures kept { IfOk result (λ way. Rests way heap.old heap.new) }
    ensures built { OnOk result (AreBuilt heap.new.objects) }
    ensures celled { OnOk result (StayCelled heap.old.objects heap.new.objects) }
{
    heap_laws();
    built_laws();
    celled_laws();
    let Some(n) = int_at(frames, 0) else {
        return Ok(Way::Stuck);
    };
    match count_of(n) {
        None => Ok(Way::Raises(LibClass::Thrown(Thrown::NegativeArraySizeException))),
        Some(count) => make_array(alloc, frames, heap, number, count),
    }
}
