ghost use Rattle.std.specs.Prelude.{◌≡◌, ◌≤◌, [], ℕ, Some, length, take};
ghost use Rattle.jlib.specs.declared.calls.ThrownInit.TheVariants as given;
ghost use Rattle.jvalues.specs.declared.jops.value.Value.{Value as Held};
ghost use Rattle.jsemantics.specs.jmachine.CallTargets.{receiver};
ghost use Rattle.jsemantics.specs.ProofNames.{object_init as object_row};
ghost use Rattle.jsemantics.specs.jmachine.Throwables.{init as init_row, message as message_row};
ghost use Rattle.jsemantics.specs.jmachine.Store.{Store};
ghost use Rattle.jruntime.specs.jstate.ObjectCells.{StayCelled};
ghost use Rattle.jruntime.specs.jstate.HeapMeanings.{AreBuilt};
ghost use Rattle.jrows.specs.jtexts.Messages.{CanBeTold};
ghost use Rattle.jrows.specs.jtexts.TextCallOutcomes.{Comes, leaves};
ghost use Rattle.jlibcalls.specs.jlibrary.LibraryOutcomes.{Does};

use crate::jlibrary::taken::{one, two};
use jlib::ThrownInit;
use jmemory::jheap::Heap;
use jrows::jtexts::{Ran, init, init_message, message, object_init};
use jruntime::jstate::{Frames, Shapes};

/// The constructor of Object.
#[inline]
pub(crate) fn object<M: Copy>(frames: &Frames<M>, count: usize) -> Ran
    requires { count ≤ length frames.now.newest.operands }
    ensures { (s : Store ℕ) → Comes {E = M} s (object_row s (take count frames.now.newest.operands)) (leaves result [] s) }
{
    match one(frames, count) {
        None => Ran::Stuck,
        Some(object) => object_init::<M>(object),
    }
}

/// The constructor of what can be thrown that is given nothing.
#[inline]
fn untold<M: Copy>(frames: &Frames<M>, heap: &mut Heap, shapes: &Shapes, count: usize) -> Ran
    requires few { count ≤ length frames.now.newest.operands }
    requires built { AreBuilt heap.old.objects }
    requires cell { (v : Held ℕ) → receiver (take count frames.now.newest.operands) ≡ Some v → CanBeTold shapes.now heap.old v }
    ensures row { Does {E = M} shapes.now (λ s. init_row s given.Nothing (take count frames.now.newest.operands)) heap.old result [] heap.new }
    ensures built { AreBuilt heap.new.objects }
    ensures celled { StayCelled heap.old.objects heap.new.objects }
{
    match one(frames, count) {
        None => Ran::Stuck,
        Some(thrown) => init::<M>(heap, shapes, thrown),
    }
}

/// The constructor of what can be thrown that is given a message.
#[inline]
pub(crate) fn told<M: Copy>(
    frames: &Frames<M>,
    heap: &mut Heap,
    shapes: &Shapes,
    count: usize,
) -> Ran
    requires few { count ≤ length frames.now.newest.operands }
    requires built { AreBuilt heap.old.objects }
    requires cell { (v : Held ℕ) → receiver (take count frames.now.newest.operands) ≡ Some v → CanBeTold shapes.now heap.old v }
    ensures row { Does {E = M} shapes.now (λ s. init_row s given.Message (take count frames.now.newest.operands)) heap.old result [] heap.new }
    ensures built { AreBuilt heap.new.objects }
    ensures celled { StayCelled heap.old.objects heap.new.objects }
{
    match two(frames, count) {
        None => Ran::Stuck,
        Some((text, thrown)) => init_message::<M>(heap, shapes, thrown, text),
    }
}

/// A constructor of what can be thrown.
#[inline]
pub(crate) fn thrown_init<M: Copy>(
    frames: &Frames<M>,
    heap: &mut Heap,
    shapes: &Shapes,
    how: ThrownInit,
    count: usize,
) -> Ran
    requires few { count ≤ length frames.now.newest.operands }
    requires built { AreBuilt heap.old.objects }
    requires cell { (v : Held ℕ) → receiver (take count frames.now.newest.operands) ≡ Some v → CanBeTold shapes.now heap.old v }
    ensures row { Does {E = M} shapes.now (λ s. init_row s how (take count frames.now.newest.operands)) heap.old result [] heap.new }
    ensures built { AreBuilt heap.new.objects }
    ensures celled { StayCelled heap.old.objects heap.new.objects }
{
    match how {
        ThrownInit::Nothing => untold(frames, heap, shapes, count),
        ThrownInit::Message => told(frames, heap, shapes, count),
    }
}

/// Throwable's `getMessage`.
#[inline]
pub(crate) fn get_message<M: Copy>(
    frames: &Frames<M>,
    heap: &Heap,
    shapes: &Shapes,
    count: usize,
) -> Ran
    requires few { count ≤ length frames.now.newest.operands }
    ensures { Does {E = M} shapes.now (λ s. message_row s (take count frames.now.newest.operands)) heap.now result [] heap.now }
{
    match one(frames, count) {
        None => Ran::Stuck,
        Some(thrown) => message::<M>(heap, shapes, thrown),
    }
}
