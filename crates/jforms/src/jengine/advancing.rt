ghost use Rattle.std.specs.Prelude.{◌≡◌, None, IfOk, OnOk};
ghost use Rattle.jlib.specs.declared.calls.LibCall.TheVariants as calls;
ghost use Rattle.jguard.specs.NumberMeanings.{AskedOnce, Keeps};
ghost use Rattle.jrows.specs.jcalls.FrameMarks.{marks_of};
ghost use Rattle.jlibcalls.specs.jlibrary.LibraryOutcomes.{IsAskFree};
ghost use Rattle.jcalling.specs.jcallplain.LibraryRuns.{MayTell};
ghost use Rattle.jcalling.specs.jcallcontext.ContextCallRows.{CallAnswered, CallKnown, CallOnce, CallQuiet};
ghost use Rattle.jstepping.specs.jcore.AnsweredCalls.{Answered, AsksKnown, Calling};
ghost use Rattle.jstepping.specs.jcore.MachineOutcomes.{GoesOn};
ghost use Rattle.jstepping.specs.declared.jcore.machine.Machine.{Machine as MachineOf};
ghost use Rattle.jstepping.specs.jcore.MachineInvariants.{IsReady, StaysFixed};
ghost use Rattle.jcalling.specs.jexecute.ThreadSteps.{Executes};
ghost use Rattle.jforms.specs.jengine.AccessCalls.{AsksFor};
ghost use Rattle.jforms.specs.jtables.Engines.{asks_next, next_of};
ghost use Rattle.jforms.specs.jengine.ExecutedSteps.{WasExecuted};

use jcalling::jbegin::begin_thread;
use jcalling::jcallcheck::{call_check, call_kept_check};
use jcalling::jcallcontext::{call_enter, call_privileged, call_snapshot};
use jcalling::jcallplain::call_plain;
use jcalling::jexecute::{Executed, execute};
use jcallthread::call_thread;
use jguard::Guard;
use jlib::{ControllerCall, LibCall, RtCall, ThreadCall};
use jruntime::jrun::Came;
use jstepping::jcore::Machine;
use std::alloc::{AllocError, Global};

/// What a call of the library asks of access control, if it asks anything.
#[derive(Clone, Copy)]
enum Asking {
    /// What AccessController's checkPermission does.
    Check,
    /// What AccessControlContext's checkPermission does.
    ContextCheck,
    /// What getContext does.
    Snapshot,
    /// What doPrivileged does.
    Privileged,
    /// The context of a method of a domain that is entered.
    Enter,
    /// What a new thread inherits, if it makes one.
    Thread(ThreadCall),
    Nothing,
}

fn asking_of_controller(call: ControllerCall) -> Asking
    ensures { AsksFor (calls.Controller call) result }
{
    match call {
        ControllerCall::Check => Asking::Check,
        ControllerCall::Snapshot => Asking::Snapshot,
        ControllerCall::Privileged => Asking::Privileged,
        ControllerCall::PrivilegedWith => Asking::Privileged,
        ControllerCall::PrivilegedLimited => Asking::Privileged,
    }
}

fn asking_of_rt(call: RtCall) -> Asking
    ensures { AsksFor (calls.Rt call) result }
{
    match call {
        RtCall::Enter => Asking::Enter,
        RtCall::Check => Asking::Check,
        RtCall::Snapshot => Asking::Snapshot,
        RtCall::Privileged => Asking::Privileged,
        RtCall::PrivilegedWith => Asking::Privileged,
        RtCall::PrivilegedLimited => Asking::Privileged,
    }
}

fn asking_of(call: LibCall) -> Asking
    ensures { AsksFor call result }
{
    match call {
        LibCall::Controller(c) => asking_of_controller(c),
        LibCall::Rt(c) => asking_of_rt(c),
        LibCall::Thread(c) => Asking::Thread(c),
        LibCall::ContextCheck => Asking::ContextCheck,
        _ => Asking::Nothing,
    }
}

/// A call that asks nothing of access control.
fn call_silent<G: Guard>(
    alloc: Global,
    m: &mut Machine<'_, '_, G::Mark>,
    guard: &G,
    call: LibCall,
    count: usize,
) -> Result<Came, AllocError>
    requires free { IsAskFree call }
    requires calling { Calling m.old count }
    requires told { MayTell m.old call count }
    ensures answered { IfOk result
        (λ came. CallAnswered (G.kept guard.now) (G.kept guard.now) (G.entry guard.now) (G.entry guard.now) (G.rules guard.now)
        m.old call count came m.new) }
    ensures once { OnOk result (CallOnce m.old call count G.asked guard.now guard.now) }
    ensures ready { IfOk result (GoesOn m.new) }
    ensures fixed { OnOk result (StaysFixed m.old m.new) }
{
    let done = call_plain(alloc, m, call, count)?;
    Ok(done)
}

/// A call of the library at which the running thread stands.
fn call_library<G: Guard>(
    alloc: Global,
    m: &mut Machine<'_, '_, G::Mark>,
    guard: &mut G,
    call: LibCall,
    count: usize,
) -> Result<Came, AllocError>
    requires calling { Calling m.old count }
    requires carry { m.old.fixed.marks.now ≡ marks_of G.mark m.old.calls }
    requires known { CallKnown (G.kept guard.old) (G.entry guard.old) m.old call count }
    requires told { MayTell m.old call count }
    ensures answered { IfOk result
        (λ came. CallAnswered (G.kept guard.old) (G.kept guard.new) (G.entry guard.old) (G.entry guard.new) (G.rules guard.old)
        m.old call count came m.new) }
    ensures ready { IfOk result (GoesOn m.new) }
    ensures fixed { OnOk result (StaysFixed m.old m.new) }
    ensures rules { G.rules guard.new ≡ G.rules guard.old }
    ensures keeps { Keeps (G.kept guard.old) (G.kept guard.new) }
    ensures marks { Keeps (G.entry guard.old) (G.entry guard.new) }
    ensures quiet { CallQuiet m.old call count guard.old guard.new }
    ensures once { OnOk result (CallOnce m.old call count G.asked guard.old guard.new) }
{
    match asking_of(call) {
        Asking::Check => call_check(alloc, m, guard, call, count),
        Asking::ContextCheck => call_kept_check(alloc, m, guard, count),
        Asking::Snapshot => call_snapshot(alloc, m, guard, call, count),
        Asking::Privileged => call_privileged(alloc, m, guard, call, count),
        Asking::Enter => call_enter(alloc, m, guard, count),
        Asking::Thread(c) => call_thread(alloc, m, guard, c, count),
        Asking::Nothing => call_silent(alloc, m, guard, call, count),
    }
}

/// What is left of a step that was executed: where it has come to a call of the library, that is made, and a guard is asked what it asks of
/// access control.
pub(crate) fn answer<G: Guard>(
    alloc: Global,
    m: &mut Machine<'_, '_, G::Mark>,
    guard: &mut G,
    found: Executed,
) -> Result<Came, AllocError>
    requires { WasExecuted (G.kept guard.old) (G.entry guard.old) G.mark found m.old }
    ensures answered { IfOk result (λ came. (before : MachineOf G.Mark) → Executes before found m.old → StaysFixed before m.old
        → Answered (G.kept guard.old) (G.kept guard.new) (G.entry guard.old) (G.entry guard.new) (G.rules guard.old)
        before (asks_next before) (next_of before) came m.new) }
    ensures ready { IfOk result (GoesOn m.new) }
    ensures fixed { OnOk result (StaysFixed m.old m.new) }
    ensures rules { G.rules guard.new ≡ G.rules guard.old }
    ensures keeps { Keeps (G.kept guard.old) (G.kept guard.new) }
    ensures marks { Keeps (G.entry guard.old) (G.entry guard.new) }
    ensures quiet { (before : MachineOf G.Mark) → Executes before found m.old → asks_next before ≡ None → guard.new ≡ guard.old }
    ensures once { OnOk result
        ((before : MachineOf G.Mark) → Executes before found m.old → AskedOnce G.asked guard.old guard.new (asks_next before)) }
{
    match found {
        Executed::Done(came) => Ok(came),
        Executed::Asks { call, count } => {
            let came = call_library(alloc, m, guard, call, count)?;
            Ok(came)
        }
    }
}

/// One step of a machine: of an instruction, of a call of the library, for which a guard is asked what it asks of access control, or the
/// beginning of a thread.
pub(crate) fn advance<G: Guard>(
    alloc: Global,
    m: &mut Machine<'_, '_, G::Mark>,
    guard: &mut G,
) -> Result<Came, AllocError>
    requires ready { IsReady m.old }
    requires carry { m.old.fixed.marks.now ≡ marks_of G.mark m.old.calls }
    requires known { AsksKnown (G.kept guard.old) (G.entry guard.old) m.old (asks_next m.old) }
    ensures answered { IfOk result (λ came. Answered (G.kept guard.old) (G.kept guard.new) (G.entry guard.old) (G.entry guard.new)
        (G.rules guard.old) m.old (asks_next m.old) (next_of m.old) came m.new) }
    ensures ready { IfOk result (GoesOn m.new) }
    ensures fixed { OnOk result (StaysFixed m.old m.new) }
    ensures rules { G.rules guard.new ≡ G.rules guard.old }
    ensures keeps { Keeps (G.kept guard.old) (G.kept guard.new) }
    ensures marks { Keeps (G.entry guard.old) (G.entry guard.new) }
    ensures quiet { asks_next m.old ≡ None → guard.new ≡ guard.old }
    ensures once { OnOk result (AskedOnce G.asked guard.old guard.new (asks_next m.old)) }
{
    if m.guests.running.frames.is_none() {
        let came = begin_thread(alloc, m)?;
        return Ok(came);
    }
    let found = execute(alloc, m)?;
    let done = answer(alloc, m, guard, found)?;
    Ok(done)
}
