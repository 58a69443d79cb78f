ghost use Rattle.std.specs.Prelude.{◌≡◌, ◌<◌, ◌≤◌, ◌+◌, ◌^◌, ◌∷◌, [], ℕ, drop, List, Bool, length, option_map, slice_get, slice_set, is_some, true, IfOk, OnOk};
ghost use Rattle.jparts.specs.declared.jcode.names.FieldOp.TheVariants as ops;
ghost use Rattle.jmemory.specs.declared.jheap.cell.CellType.{CellType as CellKind};
ghost use Rattle.jmemory.specs.jheap.Heaps.{cells_at, object_at, with_statics};
ghost use Rattle.jmemory.specs.jheap.RawValues.{of_raw as raw_value, raw as raw_number, type_of};
ghost use Rattle.jsemantics.specs.jmachine.FrameOperations.{onward, standing};
ghost use Rattle.jsemantics.specs.jmachine.InstructionSites.{Site};
ghost use Rattle.jsemantics.specs.jmachine.Store.{Store};
ghost use Rattle.jresolution.specs.jprogram.ProgramClasses.{Program};
ghost use Rattle.jresolution.specs.declared.jprogram.member.Member.{Member};
ghost use Rattle.jresolution.specs.declared.jprogram.member.Member.TheVariants as members;
ghost use Rattle.jresolution.specs.juses.IndexedInstructions as instructions;
ghost use Rattle.jresolution.specs.juses.InstructionMeanings as meanings;
ghost use Rattle.jresolution.specs.juses.InstructionMeanings.{FieldMeaning};
ghost use Rattle.jruntime.specs.jstate.ObjectCells.{StayCelled};
ghost use Rattle.jruntime.specs.jstate.HeapMeanings.{AreBuilt, Things, store_by};
ghost use Rattle.jruntime.specs.declared.jstate.shapes.Shapes.{Shapes};
ghost use Rattle.jruntime.specs.jstate.FrameLists.{with_newest};
ghost use Rattle.jrows.specs.jacts.RowOutcomes.{Acts, ActsWhere, Rests, leaves};
ghost use Rattle.jrows.specs.declared.jacts.way.Way.TheVariants as ways;
ghost use Rattle.jrows.specs.jobjs.FieldCells.{HoldsOnly, KeepsAs, StandsAt, StandsStatic};
ghost use Rattle.jrows.specs.jobjs.EntryOperands.{Serve};
ghost use Rattle.jrows.specs.jobjs.RowFrames.{Stays};

use crate::jacts::{Way, narrowed, put_at, way_laws};
use crate::jobjs::target::{Target, target_at};
use jlib::{LIBRARY_CLASSES, LibClass, Thrown};
use jmemory::jheap::{CellType, Heap, raw_laws};
use jresolution::juses::ElementRef;
use jruntime::jstate::{Frames, built_laws, cell_laws, celled_laws, heap_laws};
use jvalues::jops::Value;
use std::alloc::AllocError;

/// The value of a slot of an object that is there, where it has that cell.
#[inline]
fn slot_at(heap: &Heap, o: u32, slot: u32, of: CellType) -> Option<Value>
    requires { is_some (object_at heap.now o) ≡ true }
    ensures { result ≡ option_map (raw_value of) (slice_get (cells_at heap.now o) slot) }
{
    let look = heap.looked(o);
    if slot >= look.len {
        return None;
    }
    Some(heap.at(look, slot, of))
}

/// The frame goes on behind its instruction with an operand in the place of its newest, which is there.
#[inline]
pub(crate) fn give_one<M: Copy>(frames: &mut Frames<M>, value: Value) -> Way
    requires place { frames.old.newest.place + 1 < 2 ^ 32 }
    requires few { 1 ≤ length frames.old.newest.operands }
    ensures way { result ≡ ways.Went }
    ensures frames { frames.new
        ≡ with_newest (standing frames.old.newest (frames.old.newest.place + 1) (value ∷ drop 1 frames.old.newest.operands)) frames.old }
{
    frames.replace(1, value);
    frames.go_on();
    Way::Went
}

/// The field of an object (JVMS 6.5: getfield), at its slot in a cell of a type. `serve` says that the operand serves.
#[inline]
pub fn get_field<M: Copy>(
    frames: &mut Frames<M>,
    heap: &Heap,
    slot: u32,
    of: CellType,
    serve: bool,
) -> Way
    requires place { frames.old.newest.place + 1 < 2 ^ 32 }
    ensures row { (p : Program) (shapes : Shapes) (things : Things) (constants : List (List ℕ × ℕ)) (f : FieldMeaning) →
        let s = store_by p shapes things constants heap.now in
        ActsWhere (λ (at : Site) (own : Member → Bool). Serve at own s (meanings.Field ops.GetField f) frames.old.newest.operands serve
        × StandsAt at.world shapes heap.now f.member (slice_get frames.old.newest.operands 0) slot of)
        (instructions.Used (meanings.Field ops.GetField f)) frames.old.newest s (leaves result [] frames.new.newest s) }
    ensures stays { Stays result frames.old.newest frames.new.newest }
    ensures below { frames.new.below ≡ frames.old.below }
    ensures rests { Rests result frames.old frames.new }
{
    heap_laws();
    cell_laws();
    way_laws::<M>();
    if !serve {
        return Way::Stuck;
    }
    match target_at(frames, heap, 0) {
        Target::Other => Way::Stuck,
        Target::Null => Way::Raises(LibClass::Thrown(Thrown::NullPointerException)),
        Target::Object(o, _) => match slot_at(heap, o, slot, of) {
            None => Way::Stuck,
            Some(value) => give_one(frames, value),
        },
    }
}

/// The frame goes on behind its instruction with one more operand.
#[inline]
pub(crate) fn push_one<M: Copy>(frames: &mut Frames<M>, value: Value) -> Result<Way, AllocError>
    requires place { frames.old.newest.place + 1 < 2 ^ 32 }
    ensures way { IfOk result (λ way. way ≡ ways.Went) }
    ensures frames { OnOk result (frames.new ≡ with_newest (onward frames.old.newest (value ∷ [])) frames.old) }
{
    frames.push(value)?;
    frames.go_on();
    Ok(Way::Went)
}

/// A static field (JVMS 6.5: getstatic), at its slot in a cell of a type.
#[inline]
pub fn get_static<M: Copy>(
    frames: &mut Frames<M>,
    heap: &Heap,
    slot: u32,
    of: CellType,
) -> Result<Way, AllocError>
    requires place { frames.old.newest.place + 1 < 2 ^ 32 }
    requires there { slot < length heap.now.statics }
    ensures row { IfOk result (λ way. (p : Program) (shapes : Shapes) (things : Things) (constants : List (List ℕ × ℕ)) (f : FieldMeaning) →
        let s = store_by p shapes things constants heap.now in
        ActsWhere (λ (at : Site) (own : Member → Bool). StandsStatic at.world shapes f.member slot of)
        (instructions.Used (meanings.Field ops.GetStatic f)) frames.old.newest s (leaves way [] frames.new.newest s)) }
    ensures stays { IfOk result (λ way. Stays way frames.old.newest frames.new.newest) }
    ensures below { OnOk result (frames.new.below ≡ frames.old.below) }
    ensures rests { IfOk result (λ way. Rests way frames.old frames.new) }
{
    cell_laws();
    way_laws::<M>();
    push_one(frames, heap.static_at(slot, of))
}

/// The field of the library's, `System.out` (JVMS 6.5: getstatic). Its object is the first that is made.
#[inline]
pub fn get_out<M: Copy>(frames: &mut Frames<M>) -> Result<Way, AllocError>
    requires place { frames.old.newest.place + 1 < 2 ^ 32 }
    ensures row { IfOk result (λ way. (f : FieldMeaning) (s : Store ℕ) → f.member ≡ members.LibField
        → Acts (instructions.Used (meanings.Field ops.GetStatic f)) frames.old.newest s (leaves way [] frames.new.newest s)) }
    ensures stays { IfOk result (λ way. Stays way frames.old.newest frames.new.newest) }
    ensures below { OnOk result (frames.new.below ≡ frames.old.below) }
    ensures rests { IfOk result (λ way. Rests way frames.old frames.new) }
{
    way_laws::<M>();
    push_one(frames, Value::Ref(1))
}

/// Puts a value into a static that is there. The static gives it back.
#[inline]
fn keep_static(heap: &mut Heap, slot: u32, value: Value)
    requires { slot < length heap.old.statics }
    ensures heap { heap.new ≡ with_statics heap.old (slice_set heap.old.statics slot (raw_number value)) }
    ensures back { raw_value (type_of value) (raw_number value) ≡ value }
{
    raw_laws();
    heap.set_static(slot, value);
}

/// A write of a static field (JVMS 6.5: putstatic), at its slot. Of an int there stays what the field holds. `serve` says that the operand
/// serves.
#[inline]
pub fn put_static<M: Copy>(
    frames: &mut Frames<M>,
    heap: &mut Heap,
    slot: u32,
    narrow: ElementRef,
    serve: bool,
) -> Way
    requires place { frames.old.newest.place + 1 < 2 ^ 32 }
    requires there { slot < length heap.old.statics }
    ensures row { (p : Program) (shapes : Shapes) (things : Things) (constants : List (List ℕ × ℕ)) (f : FieldMeaning) (of : CellKind) →
        let s = store_by p shapes things constants heap.old in
        ActsWhere (λ (at : Site) (own : Member → Bool). Serve at own s (meanings.Field ops.PutStatic f) frames.old.newest.operands serve
        × StandsStatic at.world shapes f.member slot of × KeepsAs p at.world f.member narrow × HoldsOnly at.world s f.held of)
        (instructions.Used (meanings.Field ops.PutStatic f)) frames.old.newest s (leaves result [] frames.new.newest (store_by p shapes things constants heap.new)) }
    ensures stays { Stays result frames.old.newest frames.new.newest }
    ensures below { frames.new.below ≡ frames.old.below }
    ensures rests { Rests result frames.old frames.new }
    ensures kept { Rests result heap.old heap.new }
    ensures objects { heap.new.objects ≡ heap.old.objects }
{
    heap_laws();
    cell_laws();
    way_laws::<M>();
    if !serve {
        return Way::Stuck;
    }
    if frames.count() < 1 {
        return Way::Stuck;
    }
    keep_static(heap, slot, narrowed(narrow, frames.operand(0)));
    frames.shrink(1);
    frames.go_on();
    Way::Went
}

/// A write of a field (JVMS 6.5: putfield), at its slot. Of an int there stays what the field holds. `serve` says that the operands serve.
/// Null raises an exception.
#[inline]
pub fn put_field<M: Copy>(
    frames: &mut Frames<M>,
    heap: &mut Heap,
    slot: u32,
    narrow: ElementRef,
    serve: bool,
) -> Way
    requires place { frames.old.newest.place + 1 < 2 ^ 32 }
    ensures row { (p : Program) (shapes : Shapes) (things : Things) (constants : List (List ℕ × ℕ)) (f : FieldMeaning) (of : CellKind) →
        let s = store_by p shapes things constants heap.old in
        ActsWhere (λ (at : Site) (own : Member → Bool). Serve at own s (meanings.Field ops.PutField f) frames.old.newest.operands serve
        × StandsAt at.world shapes heap.old f.member (slice_get frames.old.newest.operands 1) slot of × KeepsAs p at.world f.member narrow
        × HoldsOnly at.world s f.held of)
        (instructions.Used (meanings.Field ops.PutField f)) frames.old.newest s (leaves result [] frames.new.newest (store_by p shapes things constants heap.new)) }
    ensures stays { Stays result frames.old.newest frames.new.newest }
    ensures below { frames.new.below ≡ frames.old.below }
    ensures rests { Rests result frames.old frames.new }
    ensures kept { Rests result heap.old heap.new }
    ensures built { AreBuilt heap.old.objects → AreBuilt heap.new.objects }
    ensures celled { StayCelled heap.old.objects heap.new.objects }
{
    heap_laws();
    cell_laws();
    built_laws();
    celled_laws();
    way_laws::<M>();
    if !serve {
        return Way::Stuck;
    }
    match target_at(frames, heap, 1) {
        Target::Other => Way::Stuck,
        Target::Null => Way::Raises(LibClass::Thrown(Thrown::NullPointerException)),
        Target::Object(o, n) => {
            // a class of the library
            if n < LIBRARY_CLASSES {
                return Way::Stuck;
            }
            let look = heap.looked(o);
            if slot >= look.len {
                return Way::Stuck;
            }
            let value = narrowed(narrow, frames.operand(0));
            put_at(heap, look, slot, value);
            frames.shrink(2);
            frames.go_on();
            Way::Went
        }
    }
}
