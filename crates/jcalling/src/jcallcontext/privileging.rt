ghost use Rattle.std.specs.Prelude.{◌≡◌, ◌<◌, IfOk, OnOk};
ghost use Rattle.jsemantics.specs.jmachine.CallTargets as targets;
ghost use Rattle.jsemantics.specs.jmachine.PrivilegeActions.{acting};
ghost use Rattle.jrows.specs.jcalls.MethodCalls.{IsCallee};
ghost use Rattle.jrows.specs.jcalls.FrameMarks.{marks_of};
ghost use Rattle.jguard.specs.NumberMeanings.{Keeps};
ghost use Rattle.jserving.specs.jinvoke.InterfaceCalls.{TargetWithin};
ghost use Rattle.jlibcalls.specs.declared.jcontexts.wanting.Privileging.TheVariants as wants;
ghost use Rattle.jstepping.specs.jcore.AnsweredCalls.{Calling};
ghost use Rattle.jstepping.specs.jcore.MachineOutcomes.{GoesOn};
ghost use Rattle.jstepping.specs.jcore.MachineInvariants.{StaysFixed, classes_of};
ghost use Rattle.jcalling.specs.jcallcontext.ContextRequests.{FoundPrivilege, IsPrivileged, RunTarget};
ghost use Rattle.jcalling.specs.jcallcontext.ContextCallRows.{CallAnswered, CallKnown, CallOnce, CallQuiet, ComesBy};

use crate::jcallcontext::asking::ask_allowed;
use crate::jcallcontext::failing::fail_call;
use crate::jcallcontext::finding::{action_target, has_all, privilege_found};
use jground::jbase::Seq;
use jguard::{Guard, Marked};
use jlib::{LibCall, Thrown};
use jlibcalls::jchecks::check_laws;
use jlibcalls::jcontexts::{Acted, Privileging, Wanted, act};
use jrows::jcalls::Callee;
use jruntime::jrun::Came;
use jserving::jinvoke::Target;
use jstepping::jcore::{Machine, machine_laws};
use std::alloc::{AllocError, Global};

/// Calls an action with a privilege: the newest frame of the running thread is marked, and a frame of the method begins, if it has code.
fn push_action<M: Copy>(
    alloc: Global,
    m: &mut Machine<'_, '_, M>,
    callee: Callee<M>,
    action: u32,
    marked: Marked<M>,
    count: usize,
) -> Result<Came, AllocError>
    requires calling { Calling m.old count }
    requires within { callee.method.class < classes_of m.old }
    ensures comes { IfOk result (λ came. ComesBy m.old count (λ r. IsCallee r.entry_of m.old.calls callee)
        (acting action (record { caller = marked.caller; context = marked.ctx }) (targets.Pushes callee.method)) came m.new) }
    ensures ready { IfOk result (GoesOn m.new) }
    ensures fixed { OnOk result (StaysFixed m.old m.new) }
{
    machine_laws::<M>();
    match &mut m.guests.running.frames {
        Some(frames) => {
            let acted = act(frames, callee, action, marked.caller, marked.ctx, count)?;
            match acted {
                Acted::Begun => Ok(Came::Went {
                    events: Seq::new(alloc),
                }),
                Acted::Stuck => Ok(Came::Stuck),
            }
        }
        None => unreachable!(),
    }
}

/// Does what a call of doPrivileged wants, where a call of the action's `run` comes to this. A privilege is asked for where a method is called.
fn act_by<G: Guard>(
    alloc: Global,
    m: &mut Machine<'_, '_, G::Mark>,
    guard: &mut G,
    call: LibCall,
    count: usize,
    wanted: Wanted,
    target: Target<G::Mark>,
) -> Result<Came, AllocError>
    requires calling { Calling m.old count }
    requires marks { m.old.fixed.marks.now ≡ marks_of G.mark m.old.calls }
    requires found { FoundPrivilege m.old call count (wants.Asks wanted) }
    requires target { RunTarget m.old wanted.action target }
    requires within { TargetWithin (classes_of m.old) target }
    requires known { CallKnown (G.kept guard.old) (G.entry guard.old) m.old call count }
    ensures answered { IfOk result
        (λ done. CallAnswered (G.kept guard.old) (G.kept guard.new) (G.entry guard.old) (G.entry guard.new) (G.rules guard.old)
        m.old call count done m.new) }
    ensures ready { IfOk result (GoesOn m.new) }
    ensures fixed { OnOk result (StaysFixed m.old m.new) }
    ensures rules { G.rules guard.new ≡ G.rules guard.old }
    ensures keeps { Keeps (G.kept guard.old) (G.kept guard.new) }
    ensures marks { Keeps (G.entry guard.old) (G.entry guard.new) }
    ensures quiet { CallQuiet m.old call count guard.old guard.new }
    ensures once { OnOk result (CallOnce m.old call count G.asked guard.old guard.new) }
{
    check_laws::<G::Mark>();
    match target {
        Target::Stuck => Ok(Came::Stuck),
        Target::Fails(class) => {
            let came = fail_call(alloc, m, class, count)?;
            Ok(came)
        }
        Target::Pushes(callee) => {
            let marked = ask_allowed(alloc, m, guard, &wanted)?;
            let came = push_action(alloc, m, callee, wanted.action, marked, count)?;
            Ok(came)
        }
    }
}

/// Calls the action that a call of doPrivileged wants to be called.
fn run_wanted<G: Guard>(
    alloc: Global,
    m: &mut Machine<'_, '_, G::Mark>,
    guard: &mut G,
    call: LibCall,
    count: usize,
    wanted: Wanted,
) -> Result<Came, AllocError>
    requires calling { Calling m.old count }
    requires marks { m.old.fixed.marks.now ≡ marks_of G.mark m.old.calls }
    requires found { FoundPrivilege m.old call count (wants.Asks wanted) }
    requires known { CallKnown (G.kept guard.old) (G.entry guard.old) m.old call count }
    ensures answered { IfOk result
        (λ done. CallAnswered (G.kept guard.old) (G.kept guard.new) (G.entry guard.old) (G.entry guard.new) (G.rules guard.old)
        m.old call count done m.new) }
    ensures ready { IfOk result (GoesOn m.new) }
    ensures fixed { OnOk result (StaysFixed m.old m.new) }
    ensures rules { G.rules guard.new ≡ G.rules guard.old }
    ensures keeps { Keeps (G.kept guard.old) (G.kept guard.new) }
    ensures marks { Keeps (G.entry guard.old) (G.entry guard.new) }
    ensures quiet { CallQuiet m.old call count guard.old guard.new }
    ensures once { OnOk result (CallOnce m.old call count G.asked guard.old guard.new) }
{
    let full = has_all(m, count);
    let target = action_target(m, wanted.action, full);
    let came = act_by(alloc, m, guard, call, count, wanted, target)?;
    Ok(came)
}

/// A call of a form of doPrivileged with so many operands: null raises an exception, and so does an action without a method to call; neither
/// asks anything. Where the action's `run` is a user's method what becomes of the privilege is asked for, and the method is called with it.
pub fn call_privileged<G: Guard>(
    alloc: Global,
    m: &mut Machine<'_, '_, G::Mark>,
    guard: &mut G,
    call: LibCall,
    count: usize,
) -> Result<Came, AllocError>
    requires call { IsPrivileged call }
    requires calling { Calling m.old count }
    requires marks { m.old.fixed.marks.now ≡ marks_of G.mark m.old.calls }
    requires known { CallKnown (G.kept guard.old) (G.entry guard.old) m.old call count }
    ensures answered { IfOk result
        (λ done. CallAnswered (G.kept guard.old) (G.kept guard.new) (G.entry guard.old) (G.entry guard.new) (G.rules guard.old)
        m.old call count done m.new) }
    ensures ready { IfOk result (GoesOn m.new) }
    ensures fixed { OnOk result (StaysFixed m.old m.new) }
    ensures rules { G.rules guard.new ≡ G.rules guard.old }
    ensures keeps { Keeps (G.kept guard.old) (G.kept guard.new) }
    ensures marks { Keeps (G.entry guard.old) (G.entry guard.new) }
    ensures quiet { CallQuiet m.old call count guard.old guard.new }
    ensures once { OnOk result (CallOnce m.old call count G.asked guard.old guard.new) }
{
    check_laws::<G::Mark>();
    let found = privilege_found(alloc, m, call, count)?;
    match found {
        Privileging::Stuck => Ok(Came::Stuck),
        Privileging::Null => {
            let came = fail_call(alloc, m, Thrown::NullPointerException, count)?;
            Ok(came)
        }
        Privileging::Asks(wanted) => {
            let came = run_wanted(alloc, m, guard, call, count, wanted)?;
            Ok(came)
        }
    }
}
