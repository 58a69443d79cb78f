ghost use Rattle.std.specs.Prelude.{◌≡◌, IfOk, OnOk, Some};
ghost use Rattle.jruntime.specs.jstate.FrameLists.{Framed};
ghost use Rattle.jlibcalls.specs.jlibrary.LibraryOutcomes.{IsAskFree};
ghost use Rattle.jstepping.specs.jcore.AnsweredCalls.{Calling, outcome_of};
ghost use Rattle.jstepping.specs.jcore.MachineOutcomes.{Comes, GoesOn, any};
ghost use Rattle.jstepping.specs.jcore.MachineInvariants.{StaysFixed};
ghost use Rattle.jcalling.specs.jcallplain.LibraryRuns.{MayTell};

use crate::jcallplain::running::run_call;
use crate::jcallplain::settling::{events_of, settle};
use jlib::LibCall;
use jlibcalls::jlibrary::Done;
use jruntime::jrun::Came;
use jstepping::jcore::{Machine, machine_laws};
use jstepping::jstep::behind_laws;
use std::alloc::{AllocError, Global};

/// A step of the running thread that stands at a call of the library with so many operands, one that asks nothing of access control and starts
/// no thread.
pub fn call_plain<M: Copy>(
    alloc: Global,
    m: &mut Machine<'_, '_, M>,
    call: LibCall,
    count: usize,
) -> Result<Came, AllocError>
    requires calling { Calling m.old count }
    requires free { IsAskFree call }
    requires told { MayTell m.old call count }
    ensures comes { IfOk result (λ done. (f : Framed M) → m.old.guests.running.frames ≡ Some f
        → Comes m.old any (outcome_of m.old f call count) done m.new) }
    ensures ready { IfOk result (GoesOn m.new) }
    ensures fixed { OnOk result (StaysFixed m.old m.new) }
{
    machine_laws::<M>();
    behind_laws::<M>();
    let done = run_call(alloc, m, call, count)?;
    let Done { way, told } = done;
    let events = events_of(alloc, told)?;
    let came = settle(alloc, m, way, events)?;
    Ok(came)
}
