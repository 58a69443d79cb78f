ghost use Rattle.std.specs.Prelude.{◌≡◌, ◌<◌, ◌+◌, ◌^◌, ◌∷◌, [], ℕ, List, Bool, IfOk, OnOk, MatchOption, Some, length, option_map, slice_get};
ghost use Rattle.jmemory.specs.declared.jheap.cell.Kind.TheVariants as kinds;
ghost use Rattle.jsemantics.specs.jmachine.FrameOperations.{onward};
ghost use Rattle.jsemantics.specs.jmachine.InstructionSites.{Site};
ghost use Rattle.jvalues.specs.declared.jops.value.Value.TheVariants as values;
ghost use Rattle.jresolution.specs.jprogram.ProgramClasses.{Program};
ghost use Rattle.jresolution.specs.declared.jprogram.member.Member.{Member};
ghost use Rattle.jresolution.specs.declared.jprogram.part.ClassRef.TheVariants as refs;
ghost use Rattle.jtypes.specs.declared.vtype.Name.{Name};
ghost use Rattle.jresolution.specs.juses.IndexedInstructions as instructions;
ghost use Rattle.jresolution.specs.juses.InstructionMeanings as meanings;
ghost use Rattle.jruntime.specs.jstate.ObjectCells;
ghost use Rattle.jruntime.specs.jstate.ObjectCells.{AreCelled, StayCelled};
ghost use Rattle.jruntime.specs.jstate.FrameLists.{with_newest};
ghost use Rattle.jruntime.specs.jstate.ClassNumbers.{library_count};
ghost use Rattle.jruntime.specs.jstate.HeapMeanings.{AreBuilt, Things, store_by};
ghost use Rattle.jruntime.specs.declared.jstate.shapes.Shapes.{Shapes as ShapesOf};
ghost use Rattle.jrows.specs.jacts.RowOutcomes.{ActsWhere, Rests, leaves};
ghost use Rattle.jrows.specs.declared.jacts.way.Way.TheVariants as ways;
ghost use Rattle.jrows.specs.jobjs.NewObjects.{HasNew, HasShape};
ghost use Rattle.jruntime.specs.declared.jstate.shapes.Shape.{Shape as ShapeOf};
ghost use Rattle.jrows.specs.jobjs.RowFrames.{Stays};

use crate::jacts::Way;
use crate::jobjs::fields::push_one;
use jlib::{LIBRARY_CLASSES, LibClass};
use jmemory::jheap::{Heap, Kind};
use jruntime::jstate::{
    Frames, Shape, Shapes, built_laws, celled_laws, cells_of, heap_laws, library_number,
    number_laws,
};
use jvalues::jops::Value;
use std::alloc::{AllocError, Global};

/// The reference of what was made is one more operand; where there were too few cells nothing changes.
#[inline]
fn push_made<M: Copy>(frames: &mut Frames<M>, made: Option<u32>) -> Result<Way, AllocError>
    requires place { frames.old.newest.place + 1 < 2 ^ 32 }
    ensures { IfOk result (λ way. MatchOption made ((way ≡ ways.Full) × (frames.new ≡ frames.old)) (λ o. (way ≡ ways.Went)
        × (frames.new ≡ with_newest (onward frames.old.newest (values.Ref o ∷ [])) frames.old))) }
{
    match made {
        None => Ok(Way::Full),
        Some(o) => push_one(frames, Value::Ref(o)),
    }
}

#[inline]
fn make_object<M: Copy>(
    alloc: Global,
    frames: &mut Frames<M>,
    heap: &mut Heap,
    number: u32,
    count: u32,
) -> Result<Way, AllocError>
    requires place { frames.old.newest.place + 1 < 2 ^ 32 }
    ensures { IfOk result (λ way. HasNew (kinds.Object number) count frames.old heap.old way frames.new heap.new) }
{
    let made = heap.make(Kind::Object(number), count);
    push_made(frames, made)
}

/// A new object of a class of the library (JVMS 6.5: new), which holds nothing yet.
#[inline]
pub fn new_library<M: Copy>(
    alloc: Global,
    frames: &mut Frames<M>,
    heap: &mut Heap,
    class: LibClass,
) -> Result<Way, AllocError>
    requires place { frames.old.newest.place + 1 < 2 ^ 32 }
    requires built { AreBuilt heap.old.objects }
    ensures row { IfOk result (λ way. (p : Program) (shapes : ShapesOf) (things : Things) (constants : List (List ℕ × ℕ)) (c : Name) →
        ActsWhere (λ (at : Site) (own : Member → Bool). at.world.class c ≡ Some (refs.Lib class)) (instructions.Used (meanings.Make c)) frames.old.newest
        (store_by p shapes things constants heap.old) (leaves way [] frames.new.newest (store_by p shapes things constants heap.new))) }
    ensures stays { IfOk result (λ way. Stays way frames.old.newest frames.new.newest) }
    ensures below { OnOk result (frames.new.below ≡ frames.old.below) }
    ensures rests { IfOk result (λ way. Rests way frames.old frames.new) }
    ensures kept { IfOk result (λ way. Rests way heap.old heap.new) }
    ensures built { OnOk result (AreBuilt heap.new.objects) }
    ensures celled { OnOk result (StayCelled heap.old.objects heap.new.objects) }
{
    heap_laws();
    built_laws();
    celled_laws();
    number_laws();
    make_object(alloc, frames, heap, library_number(class), cells_of(class))
}

/// The cells of an object of a shape.
#[inline]
fn cells_in(shape: &Shape) -> u32
    requires { length shape.now.cells + 1 < 2 ^ 32 }
    ensures { result ≡ ObjectCells.cells_in shape.now }
{
    let cells = shape.cells.as_slice().len() as u32;
    if shape.message {
        return cells + 1;
    }
    cells
}

/// The cells of an object of the class of a place, by its shape.
#[inline]
fn count_at(shapes: &Shapes, class: u32) -> Option<u32>
    requires { (shape : ShapeOf) → slice_get shapes.now.users class ≡ Some shape → length shape.cells + 1 < 2 ^ 32 }
    ensures { result ≡ option_map ObjectCells.cells_in (slice_get shapes.now.users class) }
{
    match shapes.users.as_slice().get(class as usize) {
        None => None,
        Some(shape) => Some(cells_in(shape)),
    }
}

/// A new object of a user's class (JVMS 6.5: new), by its place among the parts. Each field is 0 or null.
#[inline]
pub fn new_object<M: Copy>(
    alloc: Global,
    frames: &mut Frames<M>,
    heap: &mut Heap,
    shapes: &Shapes,
    class: u32,
) -> Result<Way, AllocError>
    requires place { frames.old.newest.place + 1 < 2 ^ 32 }
    requires built { AreBuilt heap.old.objects }
    requires numbered { library_count + class < 2 ^ 32 }
    requires small { (shape : ShapeOf) → slice_get shapes.now.users class ≡ Some shape → length shape.cells + 1 < 2 ^ 32 }
    ensures row { IfOk result (λ way. (p : Program) (things : Things) (constants : List (List ℕ × ℕ)) (c : Name) →
        ActsWhere (λ (at : Site) (own : Member → Bool). (at.world.class c ≡ Some (refs.User class))
        × HasShape at.world shapes.now class) (instructions.Used (meanings.Make c)) frames.old.newest
        (store_by p shapes.now things constants heap.old) (leaves way [] frames.new.newest (store_by p shapes.now things constants heap.new))) }
    ensures stays { IfOk result (λ way. Stays way frames.old.newest frames.new.newest) }
    ensures below { OnOk result (frames.new.below ≡ frames.old.below) }
    ensures rests { IfOk result (λ way. Rests way frames.old frames.new) }
    ensures kept { IfOk result (λ way. Rests way heap.old heap.new) }
    ensures built { OnOk result (AreBuilt heap.new.objects) }
    ensures celled { OnOk result (AreCelled shapes.now heap.old.objects → AreCelled shapes.now heap.new.objects) }
{
    heap_laws();
    built_laws();
    celled_laws();
    number_laws();
    match count_at(shapes, class) {
        None => Ok(Way::Stuck),
        Some(count) => make_object(alloc, frames, heap, LIBRARY_CLASSES + class, count),
    }
}
