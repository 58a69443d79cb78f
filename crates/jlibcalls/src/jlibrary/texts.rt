ghost use Rattle.std.specs.Prelude.{◌≤◌, ◌∷◌, [], ℕ, IfOk, OnOk, length as len, take};
ghost use Rattle.jlib.specs.declared.calls.BuilderCall.TheVariants as builders;
ghost use Rattle.jlib.specs.declared.calls.StringCall.TheVariants as calls;
ghost use Rattle.jvalues.specs.declared.jops.value.Value.{Value as Held};
ghost use Rattle.jsemantics.specs.jmachine.TextCalls.{builder as builder_row, string as string_row};
ghost use Rattle.jruntime.specs.declared.jstate.shapes.Shapes.{Shapes};
ghost use Rattle.jruntime.specs.jstate.ObjectCells.{StayCelled};
ghost use Rattle.jruntime.specs.jstate.HeapMeanings.{AreBuilt};
ghost use Rattle.jrows.specs.jtexts.HeapBuilders.{HasLast};
ghost use Rattle.jlibcalls.specs.jlibrary.LibraryOutcomes.{Does};

use crate::jlibrary::taken::{one, two};
use jlib::{BuilderCall, PrintedType, StringCall};
use jmemory::jheap::Heap;
use jrows::jtexts::{
    Ran, append, builder_init, builder_of_text, built_text, char_at, concat, equals, length,
};
use jruntime::jstate::Frames;
use jvalues::jops::Value;
use std::alloc::{AllocError, Global};

/// String's `length`.
#[inline]
fn string_length<M: Copy>(frames: &Frames<M>, heap: &Heap, count: usize) -> Ran
    requires few { count ≤ len frames.now.newest.operands }
    ensures { (shapes : Shapes) → Does {E = M} shapes (λ s. string_row s calls.Length (take count frames.now.newest.operands)) heap.now result
        [] heap.now }
{
    heap.small();
    match one(frames, count) {
        None => Ran::Stuck,
        Some(text) => length::<M>(heap, text),
    }
}

/// The unit of a text at an index.
#[inline]
fn unit_at<M>(heap: &Heap, index: Value, text: Value) -> Ran
    ensures { (shapes : Shapes) → Does {E = M} shapes (λ s. string_row s calls.CharAt (index ∷ text ∷ [])) heap.now result [] heap.now }
{
    match index {
        Value::Int(i) => char_at::<M>(heap, text, i),
        Value::Long(_) => Ran::Stuck,
        Value::Ref(_) => Ran::Stuck,
        Value::Ctx(_) => Ran::Stuck,
    }
}

/// String's `charAt`.
#[inline]
fn string_unit<M: Copy>(frames: &Frames<M>, heap: &Heap, count: usize) -> Ran
    requires few { count ≤ len frames.now.newest.operands }
    ensures { (shapes : Shapes) → Does {E = M} shapes (λ s. string_row s calls.CharAt (take count frames.now.newest.operands)) heap.now result
        [] heap.now }
{
    match two(frames, count) {
        None => Ran::Stuck,
        Some((index, text)) => unit_at::<M>(heap, index, text),
    }
}

/// String's `equals`.
#[inline]
fn string_equals<M: Copy>(frames: &Frames<M>, heap: &Heap, count: usize) -> Ran
    requires few { count ≤ len frames.now.newest.operands }
    ensures { (shapes : Shapes) → Does {E = M} shapes (λ s. string_row s calls.Equals (take count frames.now.newest.operands)) heap.now result
        [] heap.now }
{
    match two(frames, count) {
        None => Ran::Stuck,
        Some((other, text)) => equals::<M>(heap, text, other),
    }
}

/// String's `concat`.
#[inline]
fn string_concat<M: Copy>(
    alloc: Global,
    frames: &Frames<M>,
    heap: &mut Heap,
    count: usize,
) -> Result<Ran, AllocError>
    requires few { count ≤ len frames.now.newest.operands }
    requires built { AreBuilt heap.old.objects }
    ensures row { IfOk result
        (λ ran. (shapes : Shapes) → Does {E = M} shapes (λ s. string_row s calls.Concat (take count frames.now.newest.operands)) heap.old ran
        [] heap.new) }
    ensures built { OnOk result (AreBuilt heap.new.objects) }
    ensures celled { OnOk result (StayCelled heap.old.objects heap.new.objects) }
{
    match two(frames, count) {
        None => Ok(Ran::Stuck),
        Some((more, text)) => concat::<M>(alloc, heap, text, more),
    }
}

/// A method of String.
pub(crate) fn string<M: Copy>(
    alloc: Global,
    frames: &Frames<M>,
    heap: &mut Heap,
    call: StringCall,
    count: usize,
) -> Result<Ran, AllocError>
    requires few { count ≤ len frames.now.newest.operands }
    requires built { AreBuilt heap.old.objects }
    ensures row { IfOk result
        (λ ran. (shapes : Shapes) → Does {E = M} shapes (λ s. string_row s call (take count frames.now.newest.operands)) heap.old ran [] heap.new) }
    ensures built { OnOk result (AreBuilt heap.new.objects) }
    ensures celled { OnOk result (StayCelled heap.old.objects heap.new.objects) }
{
    match call {
        StringCall::Length => Ok(string_length(frames, heap, count)),
        StringCall::CharAt => Ok(string_unit(frames, heap, count)),
        StringCall::Equals => Ok(string_equals(frames, heap, count)),
        StringCall::Concat => string_concat(alloc, frames, heap, count),
    }
}

/// StringBuilder's constructor of an empty builder.
#[inline]
fn builder_empty<M: Copy>(frames: &Frames<M>, heap: &mut Heap, count: usize) -> Ran
    requires few { count ≤ len frames.now.newest.operands }
    requires built { AreBuilt heap.old.objects }
    requires cells { (v : Held ℕ) → HasLast heap.old v }
    ensures row { (shapes : Shapes) → Does {E = M} shapes (λ s. builder_row s builders.Init (take count frames.now.newest.operands)) heap.old result
        [] heap.new }
    ensures built { AreBuilt heap.new.objects }
    ensures celled { StayCelled heap.old.objects heap.new.objects }
{
    match one(frames, count) {
        None => Ran::Stuck,
        Some(builder) => builder_init::<M>(heap, builder),
    }
}

/// StringBuilder's constructor of a text.
fn builder_holding<M: Copy>(
    alloc: Global,
    frames: &Frames<M>,
    heap: &mut Heap,
    count: usize,
) -> Result<Ran, AllocError>
    requires few { count ≤ len frames.now.newest.operands }
    requires built { AreBuilt heap.old.objects }
    requires cells { (v : Held ℕ) → HasLast heap.old v }
    ensures row { IfOk result (λ ran. (shapes : Shapes) → Does {E = M} shapes
        (λ s. builder_row s builders.InitText (take count frames.now.newest.operands)) heap.old ran [] heap.new) }
    ensures built { OnOk result (AreBuilt heap.new.objects) }
    ensures celled { OnOk result (StayCelled heap.old.objects heap.new.objects) }
{
    match two(frames, count) {
        None => Ok(Ran::Stuck),
        Some((text, builder)) => builder_of_text::<M>(alloc, heap, builder, text),
    }
}

/// StringBuilder's `append`.
fn builder_append<M: Copy>(
    alloc: Global,
    frames: &Frames<M>,
    heap: &mut Heap,
    piece: PrintedType,
    count: usize,
) -> Result<Ran, AllocError>
    requires few { count ≤ len frames.now.newest.operands }
    requires built { AreBuilt heap.old.objects }
    requires cells { (v : Held ℕ) → HasLast heap.old v }
    ensures row { IfOk result (λ ran. (shapes : Shapes) → Does {E = M} shapes
        (λ s. builder_row s (builders.Append piece) (take count frames.now.newest.operands)) heap.old ran [] heap.new) }
    ensures built { OnOk result (AreBuilt heap.new.objects) }
    ensures celled { OnOk result (StayCelled heap.old.objects heap.new.objects) }
{
    match two(frames, count) {
        None => Ok(Ran::Stuck),
        Some((value, builder)) => append::<M>(alloc, heap, builder, piece, value),
    }
}

/// StringBuilder's `toString`.
fn builder_text<M: Copy>(
    alloc: Global,
    frames: &Frames<M>,
    heap: &mut Heap,
    count: usize,
) -> Result<Ran, AllocError>
    requires few { count ≤ len frames.now.newest.operands }
    requires built { AreBuilt heap.old.objects }
    requires cells { (v : Held ℕ) → HasLast heap.old v }
    ensures row { IfOk result (λ ran. (shapes : Shapes) → Does {E = M} shapes
        (λ s. builder_row s builders.ToString (take count frames.now.newest.operands)) heap.old ran [] heap.new) }
    ensures built { OnOk result (AreBuilt heap.new.objects) }
    ensures celled { OnOk result (StayCelled heap.old.objects heap.new.objects) }
{
    match one(frames, count) {
        None => Ok(Ran::Stuck),
        Some(builder) => built_text::<M>(alloc, heap, builder),
    }
}

/// A member of StringBuilder.
pub(crate) fn builder<M: Copy>(
    alloc: Global,
    frames: &Frames<M>,
    heap: &mut Heap,
    call: BuilderCall,
    count: usize,
) -> Result<Ran, AllocError>
    requires few { count ≤ len frames.now.newest.operands }
    requires built { AreBuilt heap.old.objects }
    requires cells { (v : Held ℕ) → HasLast heap.old v }
    ensures row { IfOk result
        (λ ran. (shapes : Shapes) → Does {E = M} shapes (λ s. builder_row s call (take count frames.now.newest.operands)) heap.old ran [] heap.new) }
    ensures built { OnOk result (AreBuilt heap.new.objects) }
    ensures celled { OnOk result (StayCelled heap.old.objects heap.new.objects) }
{
    match call {
        BuilderCall::Init => Ok(builder_empty(frames, heap, count)),
        BuilderCall::InitText => builder_holding(alloc, frames, heap, count),
        BuilderCall::Append(piece) => builder_append(alloc, frames, heap, piece, count),
        BuilderCall::ToString => builder_text(alloc, frames, heap, count),
    }
}
