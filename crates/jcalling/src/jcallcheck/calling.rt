ghost use Rattle.std.specs.Prelude.{◌≡◌, Some, None, IfOk, OnOk};
ghost use Rattle.jlib.specs.declared.calls.LibCall.TheVariants as calls;
ghost use Rattle.jguard.specs.NumberMeanings.{AskedOnce, Keeps};
ghost use Rattle.jruntime.specs.jstate.FrameLists.{Framed};
ghost use Rattle.jstepping.specs.jcore.AnsweredCalls.{Answered, AsksKnown, Calling, asked_of, outcome_of};
ghost use Rattle.jstepping.specs.jcore.MachineOutcomes.{GoesOn};
ghost use Rattle.jstepping.specs.jcore.MachineInvariants.{StaysFixed};
ghost use Rattle.jcalling.specs.jcallcheck.CheckRequests.{Found, IsCheck};

use crate::jcallcheck::asking::ask;
use crate::jcallcheck::finding::{Check, check_of, kept_check_of, passing_check_of};
use crate::jcallcheck::judging::{check_null, decide};
use jguard::Guard;
use jlib::{ControllerCall, LibCall, RtCall};
use jlibcalls::jchecks::{Asked, asks_for, check_laws};
use jruntime::jrun::Came;
use jstepping::jcore::Machine;
use std::alloc::{AllocError, Global};

/// What a call of checkPermission of AccessController checks.
fn checked_by<M: Copy>(m: &Machine<'_, '_, M>, call: LibCall, count: usize) -> Option<Check>
    requires check { IsCheck call }
    requires calling { Calling m.now count }
    ensures { Found m.now call count result }
{
    match call {
        LibCall::Controller(ControllerCall::Check) => check_of(m, count),
        LibCall::Rt(RtCall::Check) => passing_check_of(m, count),
        _ => unreachable!(),
    }
}

/// Checks a permission, if it is there: null raises an exception, and what holds no permission has no step; neither asks anything.
fn check_for<G: Guard>(
    alloc: Global,
    m: &mut Machine<'_, '_, G::Mark>,
    guard: &mut G,
    call: LibCall,
    count: usize,
    wanted: Check,
) -> Result<Came, AllocError>
    requires calling { Calling m.old count }
    requires found { Found m.old call count (Some wanted) }
    requires known { (f : Framed G.Mark) → m.old.guests.running.frames ≡ Some f
        → AsksKnown (G.kept guard.old) (G.entry guard.old) m.old (asked_of m.old f call count) }
    ensures answered { IfOk result (λ done. (f : Framed G.Mark) → m.old.guests.running.frames ≡ Some f
        → Answered (G.kept guard.old) (G.kept guard.new) (G.entry guard.old) (G.entry guard.new) (G.rules guard.old) m.old
        (asked_of m.old f call count)
        (outcome_of m.old f call count) done m.new) }
    ensures ready { IfOk result (GoesOn m.new) }
    ensures fixed { OnOk result (StaysFixed m.old m.new) }
    ensures rules { G.rules guard.new ≡ G.rules guard.old }
    ensures keeps { Keeps (G.kept guard.old) (G.kept guard.new) }
    ensures marks { Keeps (G.entry guard.old) (G.entry guard.new) }
    ensures quiet { (f : Framed G.Mark) → m.old.guests.running.frames ≡ Some f → asked_of m.old f call count ≡ None → guard.new ≡ guard.old }
    ensures once { OnOk result ((f : Framed G.Mark) → m.old.guests.running.frames ≡ Some f
        → AskedOnce G.asked guard.old guard.new (asked_of m.old f call count)) }
{
    check_laws::<G::Mark>();
    match asks_for::<G::Mark>(&m.heap, m.permissions.as_slice(), wanted.operand) {
        Asked::Stuck => Ok(Came::Stuck),
        Asked::Null => {
            let done = check_null(alloc, m, count)?;
            Ok(done)
        }
        Asked::Permission(one) => {
            let asked = one.copy(alloc)?;
            let verdict = ask(alloc, m, guard, wanted.whom, &asked)?;
            let done = decide(alloc, m, asked, verdict, count)?;
            Ok(done)
        }
    }
}

/// A call of AccessController's checkPermission, with so many operands: whether the thread that runs has the permission is asked, and the
/// step is the machine's by any rules that answer so.
pub fn call_check<G: Guard>(
    alloc: Global,
    m: &mut Machine<'_, '_, G::Mark>,
    guard: &mut G,
    call: LibCall,
    count: usize,
) -> Result<Came, AllocError>
    requires check { IsCheck call }
    requires calling { Calling m.old count }
    requires known { (f : Framed G.Mark) → m.old.guests.running.frames ≡ Some f
        → AsksKnown (G.kept guard.old) (G.entry guard.old) m.old (asked_of m.old f call count) }
    ensures answered { IfOk result (λ done. (f : Framed G.Mark) → m.old.guests.running.frames ≡ Some f
        → Answered (G.kept guard.old) (G.kept guard.new) (G.entry guard.old) (G.entry guard.new) (G.rules guard.old) m.old
        (asked_of m.old f call count)
        (outcome_of m.old f call count) done m.new) }
    ensures ready { IfOk result (GoesOn m.new) }
    ensures fixed { OnOk result (StaysFixed m.old m.new) }
    ensures rules { G.rules guard.new ≡ G.rules guard.old }
    ensures keeps { Keeps (G.kept guard.old) (G.kept guard.new) }
    ensures marks { Keeps (G.entry guard.old) (G.entry guard.new) }
    ensures quiet { (f : Framed G.Mark) → m.old.guests.running.frames ≡ Some f → asked_of m.old f call count ≡ None → guard.new ≡ guard.old }
    ensures once { OnOk result ((f : Framed G.Mark) → m.old.guests.running.frames ≡ Some f
        → AskedOnce G.asked guard.old guard.new (asked_of m.old f call count)) }
{
    check_laws::<G::Mark>();
    match checked_by(m, call, count) {
        None => Ok(Came::Stuck),
        Some(one) => check_for(alloc, m, guard, call, count, one),
    }
}

/// A call of AccessControlContext's checkPermission, with so many operands: whether what the context keeps has the permission is asked.
pub fn call_kept_check<G: Guard>(
    alloc: Global,
    m: &mut Machine<'_, '_, G::Mark>,
    guard: &mut G,
    count: usize,
) -> Result<Came, AllocError>
    requires calling { Calling m.old count }
    requires known { (f : Framed G.Mark) → m.old.guests.running.frames ≡ Some f
        → AsksKnown (G.kept guard.old) (G.entry guard.old) m.old (asked_of m.old f calls.ContextCheck count) }
    ensures answered { IfOk result (λ done. (f : Framed G.Mark) → m.old.guests.running.frames ≡ Some f
        → Answered (G.kept guard.old) (G.kept guard.new) (G.entry guard.old) (G.entry guard.new) (G.rules guard.old) m.old
        (asked_of m.old f calls.ContextCheck count)
        (outcome_of m.old f calls.ContextCheck count) done m.new) }
    ensures ready { IfOk result (GoesOn m.new) }
    ensures fixed { OnOk result (StaysFixed m.old m.new) }
    ensures rules { G.rules guard.new ≡ G.rules guard.old }
    ensures keeps { Keeps (G.kept guard.old) (G.kept guard.new) }
    ensures marks { Keeps (G.entry guard.old) (G.entry guard.new) }
    ensures quiet { (f : Framed G.Mark) → m.old.guests.running.frames ≡ Some f → asked_of m.old f calls.ContextCheck count ≡ None
        → guard.new ≡ guard.old }
    ensures once { OnOk result ((f : Framed G.Mark) → m.old.guests.running.frames ≡ Some f
        → AskedOnce G.asked guard.old guard.new (asked_of m.old f calls.ContextCheck count)) }
{
    check_laws::<G::Mark>();
    match kept_check_of(m, count) {
        None => Ok(Came::Stuck),
        Some(one) => check_for(alloc, m, guard, LibCall::ContextCheck, count, one),
    }
}
