ghost use Rattle.std.specs.Prelude.{◌≡◌, IfOk, OnOk};
ghost use Rattle.jruntime.specs.jguests.GuestThreads.{Lives};
ghost use Rattle.jlinking.specs.jlink.LinkedPrograms.{Links};
ghost use Rattle.jstepping.specs.jcore.MachineOutcomes.{IsOwn, LeftStand};
ghost use Rattle.jstepping.specs.jcore.MachineInvariants.{IsMachine, IsReady, StaysFixed, counts_of};
ghost use Rattle.jcalling.specs.jexecute.ThreadSteps.{Ends, Executes, Finishes, HasFrames, HasRules, Moves, StaysMachine};

use crate::jexecute::advancing::advance;
use jlib::LibCall;
use jrows::jcalls::Counts;
use jruntime::jguests::guest_laws;
use jruntime::jrun::Came;
use jserving::jcells::alike_laws;
use jstepping::jcore::{Machine, settle};
use jstepping::jtold::told_law;
use std::alloc::{AllocError, Global};

/// What a step of the running thread came to.
#[derive(Debug, Drop)]
pub enum Executed {
    /// It is done.
    Done(Came),
    /// The library is to run with so many operands, which are there. Nothing has changed.
    Asks { call: LibCall, count: usize },
}

/// How many permissions and contexts a machine keeps.
#[inline]
pub(crate) fn kept_counts<M>(m: &Machine<'_, '_, M>) -> Counts
    ensures { result ≡ counts_of m.now }
{
    Counts {
        permissions: m.permissions.as_slice().len(),
        contexts: m.kept.as_slice().len(),
    }
}

/// Its program links.
#[inline]
pub(crate) fn linked<M>(m: &Machine<'_, '_, M>)
    ensures { Links m.now.calls }
{
    let _ = m.calls.known().program().parts();
}

/// A step of the running thread's frames. What is left of it, behind them, is answered.
#[inline]
fn move_on<M: Copy>(
    alloc: Global,
    m: &mut Machine<'_, '_, M>,
) -> Result<jstepping::jstep::Stepped, AllocError>
    requires ready { IsReady m.old }
    requires frames { HasFrames m.old }
    ensures moves { IfOk result (λ came. Moves m.old came m.new) }
    ensures fixed { OnOk result (StaysFixed m.old m.new) }
{
    guest_laws::<M>();
    alike_laws::<M>();
    linked(m);
    let counts = kept_counts(m);
    match &mut m.guests.running.frames {
        Some(frames) => advance(
            alloc,
            frames,
            &mut m.heap,
            &mut m.constants,
            &m.fixed,
            &mut m.calls,
            counts,
        ),
        None => unreachable!(),
    }
}

/// Goes on behind a step that needn't ask the library.
#[inline(never)]
fn end_step<M: Copy>(
    alloc: Global,
    m: &mut Machine<'_, '_, M>,
    came: jstepping::jstep::Stepped,
) -> Result<Executed, AllocError>
    requires own { IsOwn came }
    requires machine { IsMachine m.old }
    requires lives { Lives m.old.guests }
    requires stand { LeftStand m.old came }
    ensures done { IfOk result (λ done. Ends m.old came done m.new) }
    ensures fixed { OnOk result (StaysFixed m.old m.new) }
{
    let done = settle(alloc, m, came)?;
    Ok(Executed::Done(done))
}

/// Does what is left of a step behind the running thread's frames.
#[inline(always)]
pub(crate) fn finish<M: Copy>(
    alloc: Global,
    m: &mut Machine<'_, '_, M>,
    came: jstepping::jstep::Stepped,
) -> Result<Executed, AllocError>
    requires machine { StaysMachine came m.old }
    requires lives { Lives m.old.guests }
    requires stand { LeftStand m.old came }
    ensures done { IfOk result (λ done. Finishes m.old came done m.new) }
    ensures fixed { OnOk result (StaysFixed m.old m.new) }
{
    match came {
        jstepping::jstep::Stepped::Went => end_step(alloc, m, came),
        jstepping::jstep::Stepped::Ended => end_step(alloc, m, came),
        jstepping::jstep::Stepped::Handled(_) => end_step(alloc, m, came),
        jstepping::jstep::Stepped::Uncaught(_) => end_step(alloc, m, came),
        jstepping::jstep::Stepped::Asks { call, count } => Ok(Executed::Asks { call, count }),
        jstepping::jstep::Stepped::Full => end_step(alloc, m, came),
        jstepping::jstep::Stepped::Stuck => Ok(Executed::Done(Came::Stuck)),
    }
}

/// One step of the running thread, which has frames, but for what the library does: where the thread stands at a call of the library, that
/// is left to the caller. After an error nothing is said of the machine.
pub fn execute<M: Copy>(alloc: Global, m: &mut Machine<'_, '_, M>) -> Result<Executed, AllocError>
    requires ready { IsReady m.old }
    requires frames { HasFrames m.old }
    requires rules { HasRules m.old }
    ensures done { IfOk result (λ done. Executes m.old done m.new) }
    ensures fixed { OnOk result (StaysFixed m.old m.new) }
{
    told_law();
    guest_laws::<M>();
    linked(m);
    let came = move_on(alloc, m)?;
    let done = finish(alloc, m, came)?;
    Ok(done)
}
