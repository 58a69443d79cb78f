ghost use Rattle.std.specs.Prelude.{◌≡◌, [], IfOk, OnOk, Some};
ghost use Rattle.jlib.specs.declared.calls.LibCall.TheVariants as calls;
ghost use Rattle.jruntime.specs.declared.jrun.came.Came.TheVariants as stepped;
ghost use Rattle.jruntime.specs.jstate.FrameLists.{Framed};
ghost use Rattle.jlibcalls.specs.jthreading.ThreadLaws.{IsNoInit};
ghost use Rattle.jstepping.specs.jcore.AnsweredCalls.{Calling, outcome_of};
ghost use Rattle.jstepping.specs.jcore.MachineOutcomes.{Comes, GoesOn, any};
ghost use Rattle.jstepping.specs.jcore.MachineInvariants.{StaysFixed};
ghost use Rattle.jcallthread.specs.ThreadCalls.{TurnsOn, turned_as};

use jground::jbase::Seq;
use jlib::ThreadCall;
use jlibcalls::jthreading::{Threaded, join, start, yield_turn};
use jruntime::jguests::{Turned, guest_laws};
use jruntime::jrun::Came;
use jstepping::jcore::{Machine, machine_laws, raise};
use std::alloc::{AllocError, Global};

/// Does a call of Thread that makes none, by the threads of the machine.
#[tactic(auto, using(crate::proofs::ThreadInvariants::may_call))]
fn turn_threads<M: Copy>(
    m: &mut Machine<'_, '_, M>,
    call: ThreadCall,
    count: usize,
) -> Result<Threaded, AllocError>
    requires calling { Calling m.old count }
    requires call { IsNoInit call }
    ensures row { IfOk result (λ done. TurnsOn m.old call count done m.new) }
    ensures fixed { OnOk result (StaysFixed m.old m.new) }
{
    let schedule = m.plan.schedule.as_slice();
    match call {
        ThreadCall::Yield => {
            let done = yield_turn(&mut m.guests, &m.heap, schedule, count)?;
            Ok(done)
        }
        ThreadCall::Start => {
            let done = start(&mut m.guests, &m.heap, schedule, count)?;
            Ok(done)
        }
        ThreadCall::Join => {
            let done = join(&mut m.guests, &m.heap, schedule, count)?;
            Ok(done)
        }
        ThreadCall::Init(_) => unreachable!(),
    }
}

/// The run goes on, and nothing is told.
pub(crate) fn went(alloc: Global) -> Came
    ensures { result ≡ stepped.Went [] }
{
    Came::Went {
        events: Seq::new(alloc),
    }
}

/// The run goes on behind a turn, or has ended, and nothing is told.
fn behind_turn(alloc: Global, done: Turned) -> Came
    ensures { result ≡ turned_as done }
{
    let events = Seq::new(alloc);
    match done {
        Turned::Goes => Came::Went { events },
        Turned::Ends(end) => Came::Ended { events, end },
    }
}

/// A step of the running thread that stands at a call of Thread with so many operands, one that makes no thread. It asks nothing.
pub(crate) fn call_turn<M: Copy>(
    alloc: Global,
    m: &mut Machine<'_, '_, M>,
    call: ThreadCall,
    count: usize,
) -> Result<Came, AllocError>
    requires calling { Calling m.old count }
    requires call { IsNoInit call }
    ensures comes { IfOk result (λ done. (f : Framed M) → m.old.guests.running.frames ≡ Some f
        → Comes m.old any (outcome_of m.old f (calls.Thread call) count) done m.new) }
    ensures ready { IfOk result (GoesOn m.new) }
    ensures fixed { OnOk result (StaysFixed m.old m.new) }
{
    guest_laws::<M>();
    machine_laws::<M>();
    let done = turn_threads(m, call, count)?;
    match done {
        Threaded::Went => Ok(went(alloc)),
        Threaded::Turned(done) => Ok(behind_turn(alloc, done)),
        Threaded::Raises(class) => {
            let came = raise(alloc, m, class, Seq::new(alloc))?;
            Ok(came)
        }
        Threaded::Stuck => Ok(Came::Stuck),
    }
}
