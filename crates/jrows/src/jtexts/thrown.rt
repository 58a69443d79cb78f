ghost use Rattle.std.specs.Prelude.{◌≡◌, ◌<◌, ◌∷◌, [], ℕ, List, drop, is_some, slice_get, true};
ghost use Rattle.jmemory.specs.jheap.Heaps.{HasCell, cells_at, object_at, with_cell};
ghost use Rattle.jresolution.specs.jprogram.ProgramClasses.{Program};
ghost use Rattle.jsemantics.specs.ProofNames.{object_init as init_row};
ghost use Rattle.jsemantics.specs.jmachine.Store.{Store};
ghost use Rattle.jlib.specs.declared.calls.ThrownInit.TheVariants as given;
ghost use Rattle.jsemantics.specs.jmachine.Throwables.{init as thrown_init, message as message_row, told as told_row};
ghost use Rattle.jruntime.specs.jstate.ObjectCells.{StayCelled};
ghost use Rattle.jruntime.specs.jstate.ClassNumbers;
ghost use Rattle.jruntime.specs.jstate.HeapMeanings.{AreBuilt, Things, first, named_by, store_by};
ghost use Rattle.jrows.specs.jtexts.Messages;
ghost use Rattle.jrows.specs.jtexts.Messages.{CanBeTold, CanTell, message_by_shape, message_named, message_place, named_as, place_by, shape_place, told_by};
ghost use Rattle.jrows.specs.jtexts.TextCallOutcomes.{Comes, leaves};

use crate::jtexts::ran::Ran;
use jlib::LibClass;
use jmemory::jheap::{CellType, Heap, Kind};
use jresolution::jprogram::ClassRef;
use jruntime::jstate::{Shapes, built_laws, celled_laws, class_numbered, heap_laws};
use jvalues::jops::Value;

/// The constructor of Object does nothing. `M` is what frames carry, which no call looks at.
#[inline]
pub fn object_init<M>(object: Value) -> Ran
    ensures { (s : Store ℕ) → Comes {E = M} s (init_row s (object ∷ [])) (leaves result [] s) }
{
    let _ = object;
    Ran::Went
}

/// Whether objects of a class of the library have a message.
#[inline]
fn has_message(class: LibClass) -> bool
    ensures { result ≡ Messages.has_message class }
{
    matches!(
        class,
        LibClass::Thrown(_) | LibClass::AccessControlException
    )
}

/// The object that a cell names, 0 where there is no such cell.
#[inline]
pub(crate) fn named_at(heap: &Heap, o: u32, at: usize) -> u32
    requires { is_some (object_at heap.now o) ≡ true }
    ensures { result ≡ named_by (first (drop at (cells_at heap.now o))) }
{
    if at >= heap.len(o) as usize {
        return 0;
    }
    match heap.cell(o, at as u32, CellType::Ref) {
        Value::Ref(n) => n,
        Value::Int(_) => 0,
        Value::Long(_) => 0,
        Value::Ctx(_) => 0,
    }
}

/// The message of an object of a user's class, 0 where it has none.
#[inline]
fn user_message(heap: &Heap, shapes: &Shapes, o: u32, class: usize) -> u32
    requires { is_some (object_at heap.now o) ≡ true }
    ensures { result ≡ message_by_shape (slice_get shapes.now.users class) (cells_at heap.now o) }
{
    match shapes.users.as_slice().get(class) {
        None => 0,
        Some(shape) => {
            if !shape.message {
                return 0;
            }
            named_at(heap, o, shape.cells.as_slice().len())
        }
    }
}

/// The message of an object of a class, by the heap's number for it, where such objects have one.
#[inline]
fn class_message(heap: &Heap, shapes: &Shapes, o: u32, class: u32) -> Option<u32>
    requires { is_some (object_at heap.now o) ≡ true }
    ensures { result ≡ told_by shapes.now (ClassNumbers.class_numbered class) (cells_at heap.now o) }
{
    match class_numbered(class) {
        ClassRef::User(i) => Some(user_message(heap, shapes, o, i as usize)),
        ClassRef::Lib(c) => {
            if !has_message(c) {
                return None;
            }
            Some(named_at(heap, o, 0))
        }
    }
}

/// The message of the object that a value names, where it can have one.
#[inline]
fn message_in(heap: &Heap, shapes: &Shapes, value: Value) -> Option<u32>
    ensures { result ≡ message_named shapes.now heap.now value }
{
    match value {
        Value::Int(_) => None,
        Value::Long(_) => None,
        Value::Ctx(_) => None,
        Value::Ref(o) => match heap.found(o) {
            Some(Kind::Object(class)) => class_message(heap, shapes, o, class),
            Some(Kind::Array(_)) => None,
            Some(Kind::Text) => None,
            Some(Kind::Piece) => None,
            None => None,
        },
    }
}

/// Throwable's `getMessage`.
#[inline]
pub fn message<M>(heap: &Heap, shapes: &Shapes, thrown: Value) -> Ran
    ensures { (p : Program) (things : Things) (constants : List (List ℕ × ℕ)) →
        let s = store_by p shapes.now things constants heap.now in Comes {E = M} s (message_row s (thrown ∷ [])) (leaves result [] s) }
{
    heap_laws();
    match message_in(heap, shapes, thrown) {
        None => Ran::Stuck,
        Some(m) => Ran::Gave(Value::Ref(m)),
    }
}

/// The place of the message among the cells of an object of a user's class, where such objects have one.
#[inline]
fn user_place(shapes: &Shapes, class: usize) -> Option<usize>
    ensures { result ≡ shape_place (slice_get shapes.now.users class) }
{
    match shapes.users.as_slice().get(class) {
        None => None,
        Some(shape) => {
            if !shape.message {
                return None;
            }
            Some(shape.cells.as_slice().len())
        }
    }
}

/// The place of the message among the cells of an object of a class, by the heap's number for it.
#[inline]
fn class_place(shapes: &Shapes, class: u32) -> Option<usize>
    ensures { result ≡ place_by shapes.now (ClassNumbers.class_numbered class) }
{
    match class_numbered(class) {
        ClassRef::User(i) => user_place(shapes, i as usize),
        ClassRef::Lib(c) => {
            if !has_message(c) {
                return None;
            }
            Some(0)
        }
    }
}

/// The place of the message among the cells of the object of a number.
#[inline]
fn place_in(heap: &Heap, shapes: &Shapes, o: u32) -> Option<usize>
    ensures { result ≡ message_place shapes.now heap.now o }
{
    match heap.found(o) {
        Some(Kind::Object(class)) => class_place(shapes, class),
        Some(Kind::Array(_)) => None,
        Some(Kind::Text) => None,
        Some(Kind::Piece) => None,
        None => None,
    }
}

/// Puts a message into a cell of an object. The cell is there.
#[inline]
fn put_message(heap: &mut Heap, o: u32, at: usize, m: u32)
    requires { HasCell heap.old o at }
    ensures { heap.new ≡ with_cell heap.old o at m }
{
    if at < heap.len(o) as usize {
        heap.set_cell(o, at as u32, Value::Ref(m));
    }
}

/// Gives the object of a number a message, or none by 0.
fn tell<M>(heap: &mut Heap, shapes: &Shapes, o: u32, m: u32) -> Ran
    requires built { AreBuilt heap.old.objects }
    requires cell { CanTell shapes.now heap.old o }
    ensures row { (p : Program) (things : Things) (constants : List (List ℕ × ℕ)) →
        let s = store_by p shapes.now things constants heap.old in
        Comes {E = M} s (told_row s o m) (leaves result [] (store_by p shapes.now things constants heap.new)) }
    ensures built { AreBuilt heap.new.objects }
    ensures celled { StayCelled heap.old.objects heap.new.objects }
{
    heap_laws();
    built_laws();
    celled_laws();
    match place_in(heap, shapes, o) {
        None => Ran::Stuck,
        Some(i) => {
            put_message(heap, o, i, m);
            Ran::Went
        }
    }
}

/// The object that a value names, where it is a reference.
#[inline]
pub fn reference(value: Value) -> Option<u32>
    ensures { result ≡ named_as value }
{
    match value {
        Value::Int(_) => None,
        Value::Long(_) => None,
        Value::Ctx(_) => None,
        Value::Ref(n) => Some(n),
    }
}

/// Throwable's constructor of nothing, and those of the classes below.
pub fn init<M>(heap: &mut Heap, shapes: &Shapes, thrown: Value) -> Ran
    requires built { AreBuilt heap.old.objects }
    requires cell { CanBeTold shapes.now heap.old thrown }
    ensures row { (p : Program) (things : Things) (constants : List (List ℕ × ℕ)) →
        let s = store_by p shapes.now things constants heap.old in
        Comes {E = M} s (thrown_init s given.Nothing (thrown ∷ [])) (leaves result [] (store_by p shapes.now things constants heap.new)) }
    ensures built { AreBuilt heap.new.objects }
    ensures celled { StayCelled heap.old.objects heap.new.objects }
{
    match reference(thrown) {
        None => Ran::Stuck,
        Some(o) => tell::<M>(heap, shapes, o, 0),
    }
}

/// Throwable's constructor of a message, and those of the classes below.
pub fn init_message<M>(heap: &mut Heap, shapes: &Shapes, thrown: Value, message: Value) -> Ran
    requires built { AreBuilt heap.old.objects }
    requires cell { CanBeTold shapes.now heap.old thrown }
    ensures row { (p : Program) (things : Things) (constants : List (List ℕ × ℕ)) →
        let s = store_by p shapes.now things constants heap.old in
        Comes {E = M} s (thrown_init s given.Message (message ∷ thrown ∷ [])) (leaves result [] (store_by p shapes.now things constants heap.new)) }
    ensures built { AreBuilt heap.new.objects }
    ensures celled { StayCelled heap.old.objects heap.new.objects }
{
    let Some(o) = reference(thrown) else {
        return Ran::Stuck;
    };
    let Some(m) = reference(message) else {
        return Ran::Stuck;
    };
    tell::<M>(heap, shapes, o, m)
}
