ghost use Rattle.std.specs.Prelude.{◌≡◌, ◌+◌, ◌≤◌, ℕ, OnOk, Option, Some, option_map};
ghost use Rattle.jlib.specs.declared.side.Side.TheVariants as sides;
ghost use Rattle.jvalues.specs.declared.jops.value.Value.TheVariants.{Ref};
ghost use Rattle.jruntime.specs.jstate.ObjectCells.{AreCelled, StayCelled};
ghost use Rattle.jruntime.specs.jstate.HeapMeanings.{AreBuilt};
ghost use Rattle.jruntime.specs.jguests.GuestThreads.{AreGuests, HaveStayed, Lives};
ghost use Rattle.jlibcalls.specs.jthreading.ThreadObjects;
ghost use Rattle.jlibcalls.specs.jthreading.ThreadConstructors.{MakesThread, Named, NamedBehind, NamesNoMore};
ghost use Rattle.jlibcalls.specs.jthreading.ThreadFrames.{behind, gone};
ghost use Rattle.jlibcalls.specs.jthreading.ThreadMethods.{MayCall};

use crate::jthreading::switching::{go_on, operand_at};
use jlib::{LibClass, Side};
use jmemory::jheap::{Heap, Kind};
use jresolution::jprogram::ClassRef;
use jruntime::jguests::{Guests, guest_laws};
use jruntime::jstate::{Shapes, built_laws, celled_laws, class_numbered, heap_laws};
use jvalues::jops::Value;
use std::alloc::{AllocError, Global};

/// The number of an object that is one of Thread.
fn thread_object(heap: &Heap, value: Value) -> Option<u32>
    ensures { result ≡ ThreadObjects.thread_object heap.now value }
{
    let Value::Ref(o) = value else {
        return None;
    };
    match heap.found(o) {
        Some(Kind::Object(n)) => match class_numbered(n) {
            ClassRef::Lib(LibClass::Thread) => Some(o),
            _ => None,
        },
        _ => None,
    }
}

/// What a call of Thread's constructor names.
#[derive(Clone, Copy, Debug, PartialEq, Eq)]
pub struct Begun {
    /// The object of Thread.
    pub thread: u32,
    /// The object whose `run` the thread begins with, 0 for none.
    pub runnable: u32,
}

/// What the constructor is given.
#[derive(Clone, Copy, Debug, PartialEq, Eq)]
pub struct Given {
    pub begun: Begun,
    /// The number of the context, on the passing side.
    pub context: Option<u64>,
}

/// What a call of the constructor names behind so many operands; none where these are others.
fn named_behind<M: Copy>(guests: &Guests<M>, heap: &Heap, first: usize) -> Option<Begun>
    requires first { first ≤ 1 }
    requires may { MayCall (first + 2) guests.now }
    ensures { NamedBehind first guests.now heap.now result }
{
    let thread = thread_object(heap, operand_at(guests, first + 1))?;
    match operand_at(guests, first) {
        Value::Ref(runnable) => Some(Begun { thread, runnable }),
        _ => None,
    }
}

/// What the constructor is given on the source side, where no contexts are handed on.
#[tactic(auto, using(crate::proofs::JthreadingProofs::ThreadCreation::may_less, crate::proofs::JthreadingProofs::Operands::alone_nobody))]
fn named_alone<M: Copy>(guests: &Guests<M>, heap: &Heap, count: usize) -> Option<Given>
    requires may { MayCall count guests.now }
    ensures { Named sides.Source count guests.now heap.now result }
{
    if count != 2 {
        return None;
    }
    let begun = named_behind(guests, heap, 0)?;
    Some(Given {
        begun,
        context: None,
    })
}

/// What it is given on the passing side, with a context.
#[tactic(auto, using(crate::proofs::JthreadingProofs::ThreadCreation::may_less, crate::proofs::JthreadingProofs::Operands::within_nobody))]
fn named_within<M: Copy>(guests: &Guests<M>, heap: &Heap, count: usize) -> Option<Given>
    requires may { MayCall count guests.now }
    ensures { Named sides.Passing count guests.now heap.now result }
{
    if count != 3 {
        return None;
    }
    let Value::Ctx(context) = operand_at(guests, 0) else {
        return None;
    };
    let begun = named_behind(guests, heap, 1)?;
    Some(Given {
        begun,
        context: Some(context),
    })
}

/// What a call of Thread's constructor is given on a side by its operands, of which there are so many; none where there is no step. Its step
/// asks what the thread inherits, with the context.
pub fn named_by<M: Copy>(guests: &Guests<M>, heap: &Heap, side: Side, count: usize) -> Option<Given>
    requires may { MayCall count guests.now }
    ensures { Named side count guests.now heap.now result }
{
    match side {
        Side::Source => named_alone(guests, heap, count),
        Side::Passing => named_within(guests, heap, count),
    }
}

/// Makes a thread that isn't started, for an object of Thread: it keeps what it inherits, by number, and begins with an object. The thread
/// that calls the constructor goes on behind its call, which has so many operands. After an error nothing is said of what there is.
pub fn make<M: Copy>(
    alloc: Global,
    guests: &mut Guests<M>,
    heap: &mut Heap,
    shapes: &Shapes,
    new: Given,
    kept: u64,
    count: usize,
) -> Result<(), AllocError>
    requires are { AreGuests guests.old }
    requires may { MayCall count guests.old }
    requires thread { ThreadObjects.thread_object heap.old (Ref new.begun.thread) ≡ Some new.begun.thread }
    requires built { AreBuilt heap.old.objects }
    requires celled { AreCelled shapes.now heap.old.objects }
    ensures row { OnOk result (MakesThread kept count new guests.old heap.old guests.new heap.new) }
    ensures are { OnOk result (AreGuests guests.new) }
    ensures stay { OnOk result (HaveStayed (behind count guests.old) guests.new) }
    ensures framed { OnOk result (guests.new.running.frames ≡ option_map (gone count) guests.old.running.frames) }
    ensures lives { OnOk result (Lives guests.old → Lives guests.new) }
    ensures built { OnOk result (AreBuilt heap.new.objects) }
    ensures celled { OnOk result (StayCelled heap.old.objects heap.new.objects) }
    ensures alike { OnOk result (NamesNoMore heap.old.objects heap.new.objects) }
{
    heap_laws();
    guest_laws::<M>();
    built_laws();
    celled_laws();
    go_on(guests, count);
    let number = guests.add(alloc, new.begun.runnable, Some(kept))?;
    heap.set_cell(new.begun.thread, 0, Value::Ctx(u64::from(number) + 1));
    Ok(())
}
