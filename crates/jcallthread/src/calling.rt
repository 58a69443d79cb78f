ghost use Rattle.std.specs.Prelude.{◌≡◌, IfOk, None, OnOk, Some};
ghost use Rattle.jlib.specs.declared.calls.LibCall.TheVariants as calls;
ghost use Rattle.jguard.specs.NumberMeanings.{AskedOnce, Keeps};
ghost use Rattle.jruntime.specs.jstate.FrameLists.{Framed};
ghost use Rattle.jstepping.specs.jcore.AnsweredCalls.{Answered, AsksKnown, Calling, asked_of, outcome_of};
ghost use Rattle.jstepping.specs.jcore.MachineOutcomes.{GoesOn};
ghost use Rattle.jstepping.specs.jcore.MachineInvariants.{StaysFixed};

use crate::making::call_init;
use crate::turning::call_turn;
use jguard::Guard;
use jlib::ThreadCall;
use jlibcalls::jthreading::init_laws;
use jruntime::jrun::Came;
use jstepping::jcore::Machine;
use std::alloc::{AllocError, Global};

/// A step of the running thread that stands at a call of Thread with so many operands. The constructor asks what the new thread inherits, and
/// the step is the machine's by any rules that answer so; the others ask nothing.
pub fn call_thread<G: Guard>(
    alloc: Global,
    m: &mut Machine<'_, '_, G::Mark>,
    guard: &mut G,
    call: ThreadCall,
    count: usize,
) -> Result<Came, AllocError>
    requires calling { Calling m.old count }
    requires known { (f : Framed G.Mark) → m.old.guests.running.frames ≡ Some f
        → AsksKnown (G.kept guard.old) (G.entry guard.old) m.old (asked_of m.old f (calls.Thread call) count) }
    ensures answered { IfOk result (λ done. (f : Framed G.Mark) → m.old.guests.running.frames ≡ Some f
        → Answered (G.kept guard.old) (G.kept guard.new) (G.entry guard.old) (G.entry guard.new) (G.rules guard.old) m.old
        (asked_of m.old f (calls.Thread call) count) (outcome_of m.old f (calls.Thread call) count) done m.new) }
    ensures ready { IfOk result (GoesOn m.new) }
    ensures fixed { OnOk result (StaysFixed m.old m.new) }
    ensures rules { G.rules guard.new ≡ G.rules guard.old }
    ensures keeps { Keeps (G.kept guard.old) (G.kept guard.new) }
    ensures marks { Keeps (G.entry guard.old) (G.entry guard.new) }
    ensures quiet { (f : Framed G.Mark) → m.old.guests.running.frames ≡ Some f → asked_of m.old f (calls.Thread call) count ≡ None
        → guard.new ≡ guard.old }
    ensures once { OnOk result ((f : Framed G.Mark) → m.old.guests.running.frames ≡ Some f
        → AskedOnce G.asked guard.old guard.new (asked_of m.old f (calls.Thread call) count)) }
{
    init_laws::<G::Mark>();
    match call {
        ThreadCall::Init(side) => {
            let done = call_init(alloc, m, guard, side, count)?;
            Ok(done)
        }
        _ => {
            let done = call_turn(alloc, m, call, count)?;
            Ok(done)
        }
    }
}
