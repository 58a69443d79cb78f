ghost use Rattle.std.specs.Prelude.{◌≡◌, ◌≤◌, ◌∷◌, [], ℕ, List, IfOk, OnOk, Some, false, length as len, reverse};
ghost use Rattle.jmemory.specs.jheap.Heaps.{HasCell, kind_at, with_before, with_cell};
ghost use Rattle.jmemory.specs.declared.jheap.cell.Kind.TheVariants as kinds;
ghost use Rattle.jvalues.specs.declared.jops.value.Value.{Value as Held};
ghost use Rattle.jvalues.specs.declared.jops.value.Value.TheVariants as values;
ghost use Rattle.jlib.specs.declared.calls.BuilderCall.TheVariants as calls;
ghost use Rattle.jresolution.specs.jprogram.ProgramClasses.{Program};
ghost use Rattle.jsemantics.specs.jmachine.TextCalls.{appended, builder as builder_row};
ghost use Rattle.jruntime.specs.declared.jstate.shapes.Shapes.{Shapes};
ghost use Rattle.jruntime.specs.jstate.ObjectCells.{StayCelled};
ghost use Rattle.jruntime.specs.jstate.HeapMeanings.{AreBuilt, Things, built as built_from, store_by};
ghost use Rattle.jrows.specs.jtexts.HeapBuilders.{AreThere, HasLast, behind, builder_number, last_piece, piece_number, without_text};
ghost use Rattle.jrows.specs.jtexts.HeapTexts.{names_nothing};
ghost use Rattle.jrows.specs.jtexts.TextCallOutcomes.{Comes, gave, leaves};

use crate::jtexts::making::{put_units, text_made};
use crate::jtexts::ran::Ran;
use crate::jtexts::shown::shown;
use crate::jtexts::texts::{is_null, read_onto, text_of};
use crate::jtexts::thrown::named_at;
use jlib::{LibClass, PrintedType, Thrown};
use jmemory::jheap::{Heap, Kind};
use jruntime::jstate::{celled_laws, heap_laws, library_number, piece_laws};
use jvalues::jops::Value;
use std::alloc::{AllocError, Global};

/// The number of the builder that a value names, where it names one.
#[inline]
fn builder_of(heap: &Heap, value: Value) -> Option<u32>
    ensures { result ≡ builder_number heap.now value }
{
    match value {
        Value::Int(_) => None,
        Value::Long(_) => None,
        Value::Ctx(_) => None,
        Value::Ref(o) => match heap.found(o) {
            Some(Kind::Object(class)) => {
                if class == library_number(LibClass::StringBuilder) {
                    return Some(o);
                }
                None
            }
            Some(Kind::Array(_)) => None,
            Some(Kind::Text) => None,
            Some(Kind::Piece) => None,
            None => None,
        },
    }
}

/// Lets a builder name a piece, which stands behind another.
#[inline]
fn name_piece(heap: &mut Heap, b: u32, o: u32, last: u32)
    requires cell { HasCell heap.old b 0 }
    requires piece { kind_at heap.old o ≡ Some kinds.Piece }
    ensures { heap.new ≡ with_cell (with_before heap.old o last) b 0 o }
{
    heap.set_before(o, last);
    heap.set_cell(b, 0, Value::Ref(o));
}

/// Lets a builder hold what a piece and those in front of it do, and behind these more units, and is done. `M` is what frames carry,
/// which no call looks at.
fn append_units<M>(
    alloc: Global,
    heap: &mut Heap,
    b: u32,
    last: u32,
    units: &[u16],
    done: Ran,
) -> Result<Ran, AllocError>
    requires built { AreBuilt heap.old.objects }
    requires builder { Some b ≡ builder_number heap.old (values.Ref b) }
    requires cell { HasCell heap.old b 0 }
    requires last { last ≤ len heap.old.objects }
    ensures row { IfOk result (λ ran. (p : Program) (shapes : Shapes) (things : Things) (constants : List (List ℕ × ℕ)) (results : List (Held ℕ)) →
        gave results ≡ done → let s = store_by p shapes things constants heap.old in
        Comes {E = M} s (Some (appended s b results (built_from heap.old.objects last) units.now)) (leaves ran [] (store_by p shapes things constants heap.new))) }
    ensures built { OnOk result (AreBuilt heap.new.objects) }
    ensures celled { OnOk result (StayCelled heap.old.objects heap.new.objects) }
{
    heap_laws();
    piece_laws();
    celled_laws();
    match put_units(alloc, heap, Kind::Piece, units)? {
        None => Ok(Ran::Full),
        Some(o) => {
            name_piece(heap, b, o, last);
            Ok(done)
        }
    }
}

/// The last piece of a builder, 0 where it has none.
#[inline]
fn last_of(heap: &Heap, b: u32) -> u32
    requires built { AreBuilt heap.now.objects }
    requires builder { Some b ≡ builder_number heap.now (values.Ref b) }
    requires cell { HasCell heap.now b 0 }
    ensures is { result ≡ last_piece heap.now b }
    ensures there { result ≤ len heap.now.objects }
{
    named_at(heap, b, 0)
}

/// Appends units to a builder, and gives it back.
fn append_text<M>(alloc: Global, heap: &mut Heap, b: u32, units: &[u16]) -> Result<Ran, AllocError>
    requires built { AreBuilt heap.old.objects }
    requires builder { Some b ≡ builder_number heap.old (values.Ref b) }
    requires cell { HasCell heap.old b 0 }
    ensures row { IfOk result (λ ran. (p : Program) (shapes : Shapes) (things : Things) (constants : List (List ℕ × ℕ)) →
        let s = store_by p shapes things constants heap.old in
        Comes {E = M} s (Some (appended s b (values.Ref b ∷ []) (built_from heap.old.objects (last_piece heap.old b)) units.now))
        (leaves ran [] (store_by p shapes things constants heap.new))) }
    ensures built { OnOk result (AreBuilt heap.new.objects) }
    ensures celled { OnOk result (StayCelled heap.old.objects heap.new.objects) }
{
    let last = last_of(heap, b);
    append_units::<M>(alloc, heap, b, last, units, Ran::Gave(Value::Ref(b)))
}

/// StringBuilder's `append` of a value.
pub fn append<M>(
    alloc: Global,
    heap: &mut Heap,
    builder: Value,
    piece: PrintedType,
    value: Value,
) -> Result<Ran, AllocError>
    requires built { AreBuilt heap.old.objects }
    requires cell { HasLast heap.old builder }
    ensures row { IfOk result (λ ran. (p : Program) (shapes : Shapes) (things : Things) (constants : List (List ℕ × ℕ)) →
        let s = store_by p shapes things constants heap.old in
        Comes {E = M} s (builder_row s (calls.Append piece) (value ∷ builder ∷ [])) (leaves ran [] (store_by p shapes things constants heap.new))) }
    ensures built { OnOk result (AreBuilt heap.new.objects) }
    ensures celled { OnOk result (StayCelled heap.old.objects heap.new.objects) }
{
    heap_laws();
    let Some(b) = builder_of(heap, builder) else {
        return Ok(Ran::Stuck);
    };
    match shown(alloc, heap, piece, value)? {
        None => Ok(Ran::Stuck),
        Some(text) => append_text::<M>(alloc, heap, b, text.as_slice()),
    }
}

/// StringBuilder's constructor of an empty builder.
#[inline]
pub fn builder_init<M>(heap: &mut Heap, builder: Value) -> Ran
    requires built { AreBuilt heap.old.objects }
    requires cell { HasLast heap.old builder }
    ensures row { (p : Program) (shapes : Shapes) (things : Things) (constants : List (List ℕ × ℕ)) →
        let s = store_by p shapes things constants heap.old in
        Comes {E = M} s (builder_row s calls.Init (builder ∷ [])) (leaves result [] (store_by p shapes things constants heap.new)) }
    ensures built { AreBuilt heap.new.objects }
    ensures celled { StayCelled heap.old.objects heap.new.objects }
{
    heap_laws();
    piece_laws();
    celled_laws();
    let Some(b) = builder_of(heap, builder) else {
        return Ran::Stuck;
    };
    heap.set_cell(b, 0, Value::Ref(0));
    Ran::Went
}

/// Lets the builder of a number hold a text, where there are both.
fn hold_text<M>(
    alloc: Global,
    heap: &mut Heap,
    builder: Value,
    text: Value,
) -> Result<Ran, AllocError>
    requires built { AreBuilt heap.old.objects }
    requires cell { HasLast heap.old builder }
    requires some { names_nothing text ≡ false }
    ensures row { IfOk result (λ ran. (p : Program) (shapes : Shapes) (things : Things) (constants : List (List ℕ × ℕ)) →
        let s = store_by p shapes things constants heap.old in
        Comes {E = M} s (builder_row s calls.InitText (text ∷ builder ∷ [])) (leaves ran [] (store_by p shapes things constants heap.new))) }
    ensures built { OnOk result (AreBuilt heap.new.objects) }
    ensures celled { OnOk result (StayCelled heap.old.objects heap.new.objects) }
{
    heap_laws();
    let Some(b) = builder_of(heap, builder) else {
        return Ok(Ran::Stuck);
    };
    let Some(o) = text_of(heap, text) else {
        return Ok(Ran::Stuck);
    };
    let mut units = Vec::new(alloc);
    read_onto(heap, o, &mut units)?;
    append_units::<M>(alloc, heap, b, 0, units.as_slice(), Ran::Went)
}

/// What the constructor of a text comes to where that is null.
#[inline]
fn no_text(builder: Value) -> Ran
    ensures { result ≡ without_text builder }
{
    match builder {
        Value::Int(_) => Ran::Stuck,
        Value::Long(_) => Ran::Stuck,
        Value::Ctx(_) => Ran::Stuck,
        Value::Ref(_) => Ran::Raises(LibClass::Thrown(Thrown::NullPointerException)),
    }
}

/// StringBuilder's constructor of a text.
pub fn builder_of_text<M>(
    alloc: Global,
    heap: &mut Heap,
    builder: Value,
    text: Value,
) -> Result<Ran, AllocError>
    requires built { AreBuilt heap.old.objects }
    requires cell { HasLast heap.old builder }
    ensures row { IfOk result (λ ran. (p : Program) (shapes : Shapes) (things : Things) (constants : List (List ℕ × ℕ)) →
        let s = store_by p shapes things constants heap.old in
        Comes {E = M} s (builder_row s calls.InitText (text ∷ builder ∷ [])) (leaves ran [] (store_by p shapes things constants heap.new))) }
    ensures built { OnOk result (AreBuilt heap.new.objects) }
    ensures celled { OnOk result (StayCelled heap.old.objects heap.new.objects) }
{
    if is_null(text) {
        return Ok(no_text(builder));
    }
    hold_text::<M>(alloc, heap, builder, text)
}

/// The piece of a number, where there is one.
#[inline]
fn piece_at(heap: &Heap, o: u32) -> Option<u32>
    ensures { result ≡ piece_number heap.now o }
{
    match heap.found(o) {
        Some(Kind::Piece) => Some(o),
        Some(Kind::Object(_)) => None,
        Some(Kind::Array(_)) => None,
        Some(Kind::Text) => None,
        None => None,
    }
}

/// A piece and those in front of it, the newest first.
fn pieces_of(alloc: Global, heap: &Heap, last: u32) -> Result<Vec<u32>, AllocError>
    requires { AreBuilt heap.now.objects }
    ensures units { IfOk result (λ pieces. behind heap.now [] (reverse pieces.items) ≡ built_from heap.now.objects last) }
    ensures there { IfOk result (λ pieces. AreThere heap.now (reverse pieces.items)) }
{
    piece_laws();
    let mut pieces = Vec::new(alloc);
    let mut next = piece_at(heap, last);
    while let Some(o) = next {
        pieces.push(o)?;
        let front = heap.read_previous(o);
        next = piece_at(heap, front);
    }
    Ok(pieces)
}

/// The units of pieces, of which the oldest stands last.
fn read_pieces(alloc: Global, heap: &Heap, pieces: Vec<u32>) -> Result<Vec<u16>, AllocError>
    requires { AreThere heap.now (reverse pieces.items) }
    ensures { IfOk result (λ units. units.items ≡ behind heap.now [] (reverse pieces.items)) }
{
    let mut pieces = pieces;
    let mut units = Vec::new(alloc);
    while let Some(o) = pieces.pop() {
        read_onto(heap, o, &mut units)?;
    }
    Ok(units)
}

/// What a builder holds.
fn units_of(alloc: Global, heap: &Heap, b: u32) -> Result<Vec<u16>, AllocError>
    requires built { AreBuilt heap.now.objects }
    requires builder { Some b ≡ builder_number heap.now (values.Ref b) }
    requires cell { HasCell heap.now b 0 }
    ensures { IfOk result (λ units. units.items ≡ built_from heap.now.objects (last_piece heap.now b)) }
{
    let pieces = pieces_of(alloc, heap, last_of(heap, b))?;
    read_pieces(alloc, heap, pieces)
}

/// StringBuilder's `toString`: a new string of what it holds.
pub fn built_text<M>(alloc: Global, heap: &mut Heap, builder: Value) -> Result<Ran, AllocError>
    requires built { AreBuilt heap.old.objects }
    requires cell { HasLast heap.old builder }
    ensures row { IfOk result (λ ran. (p : Program) (shapes : Shapes) (things : Things) (constants : List (List ℕ × ℕ)) →
        let s = store_by p shapes things constants heap.old in
        Comes {E = M} s (builder_row s calls.ToString (builder ∷ [])) (leaves ran [] (store_by p shapes things constants heap.new))) }
    ensures built { OnOk result (AreBuilt heap.new.objects) }
    ensures celled { OnOk result (StayCelled heap.old.objects heap.new.objects) }
{
    heap_laws();
    let Some(b) = builder_of(heap, builder) else {
        return Ok(Ran::Stuck);
    };
    let units = units_of(alloc, heap, b)?;
    text_made::<M>(alloc, heap, units.as_slice())
}
