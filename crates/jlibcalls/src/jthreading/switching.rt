ghost use Rattle.std.specs.Prelude.{◌+◌, ◌≡◌, IfOk, OnOk, Some};
ghost use Rattle.jlib.specs.declared.calls.ThreadCall.TheVariants as calls;
ghost use Rattle.jruntime.specs.jguests.GuestThreads.{AreGuests, Lives};
ghost use Rattle.jlibcalls.specs.jthreading.ThreadEffects.{LivesOn, StayBehind, StaysFramed};
ghost use Rattle.jlibcalls.specs.jthreading.ThreadMethods.{CallsThread, MayCall};
ghost use Rattle.jlibcalls.specs.jthreading.ThreadFrames.{OperandIs, Shrunk, WentOn};

use crate::jthreading::finding::thread_in;
use jlib::Thrown;
use jmemory::jheap::Heap;
use jruntime::jguests::{Guests, Turned, guest_laws};
use jruntime::jstate::heap_laws;
use jthreads::Joined;
use jvalues::jops::Value;
use std::alloc::AllocError;

/// What a call of Thread came to.
#[derive(Clone, Copy, Debug, PartialEq, Eq)]
pub enum Threaded {
    /// The thread goes on behind its call.
    Went,
    /// It has given up its turn.
    Turned(Turned),
    /// An exception of a class is to be raised in its frames, whose operands of the call are gone.
    Raises(Thrown),
    /// There is no step.
    Stuck,
}

/// The running thread's newest frame loses its call's operands and goes on behind the call.
pub(crate) fn go_on<M: Copy>(guests: &mut Guests<M>, count: usize)
    requires { MayCall count guests.old }
    ensures { WentOn count guests.old guests.new }
{
    match &mut guests.running.frames {
        Some(frames) => {
            frames.shrink(count);
            frames.go_on();
        }
        None => unreachable!(),
    }
}

/// It loses its call's operands.
fn lose_operands<M: Copy>(guests: &mut Guests<M>, count: usize)
    requires { MayCall count guests.old }
    ensures { Shrunk count guests.old guests.new }
{
    match &mut guests.running.frames {
        Some(frames) => frames.shrink(count),
        None => unreachable!(),
    }
}

/// Thread's `yield`: another thread may run.
pub fn yield_turn<M: Copy>(
    guests: &mut Guests<M>,
    heap: &Heap,
    schedule: &[u32],
    count: usize,
) -> Result<Threaded, AllocError>
    requires are { AreGuests guests.old }
    requires may { MayCall count guests.old }
    ensures row { IfOk result (λ done. CallsThread calls.Yield count schedule.now heap.now guests.old done guests.new) }
    ensures are { OnOk result (AreGuests guests.new) }
    ensures stay { IfOk result (λ done. StayBehind count done guests.old guests.new) }
    ensures framed { IfOk result (λ done. StaysFramed count done guests.old guests.new) }
    ensures lives { IfOk result (λ done. Lives guests.old → LivesOn done guests.new) }
{
    heap_laws();
    guest_laws::<M>();
    if count != 0 {
        return Ok(Threaded::Stuck);
    }
    go_on(guests, count);
    let done = guests.turn(schedule)?;
    Ok(Threaded::Turned(done))
}

/// An operand of the running thread's newest frame, counted from its newest. It is there.
pub(crate) fn operand_at<M: Copy>(guests: &Guests<M>, i: usize) -> Value
    requires { MayCall (i + 1) guests.now }
    ensures { OperandIs i result guests.now }
{
    match &guests.running.frames {
        Some(frames) => frames.operand(i),
        None => unreachable!(),
    }
}

/// The newest operand of the running thread, which is there.
fn operand<M: Copy>(guests: &Guests<M>) -> Value
    requires { MayCall 1 guests.now }
    ensures { OperandIs 0 result guests.now }
{
    operand_at(guests, 0)
}

/// Thread's `start`: the thread of an object may run from now on, and another may at once. One that was started raises an exception.
pub fn start<M: Copy>(
    guests: &mut Guests<M>,
    heap: &Heap,
    schedule: &[u32],
    count: usize,
) -> Result<Threaded, AllocError>
    requires are { AreGuests guests.old }
    requires may { MayCall count guests.old }
    ensures row { IfOk result (λ done. CallsThread calls.Start count schedule.now heap.now guests.old done guests.new) }
    ensures are { OnOk result (AreGuests guests.new) }
    ensures stay { IfOk result (λ done. StayBehind count done guests.old guests.new) }
    ensures framed { IfOk result (λ done. StaysFramed count done guests.old guests.new) }
    ensures lives { IfOk result (λ done. Lives guests.old → LivesOn done guests.new) }
{
    heap_laws();
    guest_laws::<M>();
    if count != 1 {
        return Ok(Threaded::Stuck);
    }
    let Some(t) = thread_in(heap, operand(guests)) else {
        return Ok(Threaded::Stuck);
    };
    if !guests.start(t) {
        lose_operands(guests, count);
        return Ok(Threaded::Raises(Thrown::IllegalThreadStateException));
    }
    go_on(guests, count);
    let done = guests.turn(schedule)?;
    Ok(Threaded::Turned(done))
}

/// Thread's `join`: the thread that calls waits until another has ended, which was started and has not ended; else it goes on.
pub fn join<M: Copy>(
    guests: &mut Guests<M>,
    heap: &Heap,
    schedule: &[u32],
    count: usize,
) -> Result<Threaded, AllocError>
    requires are { AreGuests guests.old }
    requires may { MayCall count guests.old }
    ensures row { IfOk result (λ done. CallsThread calls.Join count schedule.now heap.now guests.old done guests.new) }
    ensures are { OnOk result (AreGuests guests.new) }
    ensures stay { IfOk result (λ done. StayBehind count done guests.old guests.new) }
    ensures framed { IfOk result (λ done. StaysFramed count done guests.old guests.new) }
    ensures lives { IfOk result (λ done. Lives guests.old → LivesOn done guests.new) }
{
    heap_laws();
    guest_laws::<M>();
    if count != 1 {
        return Ok(Threaded::Stuck);
    }
    let Some(t) = thread_in(heap, operand(guests)) else {
        return Ok(Threaded::Stuck);
    };
    go_on(guests, count);
    match guests.join(t) {
        Joined::AtOnce => Ok(Threaded::Went),
        Joined::Waits => {
            let done = guests.turn(schedule)?;
            Ok(Threaded::Turned(done))
        }
    }
}
