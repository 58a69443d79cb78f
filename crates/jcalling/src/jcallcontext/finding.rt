ghost use Rattle.std.specs.Prelude.{◌≡◌, IfOk, Some};
ghost use Rattle.jruntime.specs.jstate.FrameLists.{Framed};
ghost use Rattle.jlibcalls.specs.jcontexts.DomainEntries.{snapshot_call};
ghost use Rattle.jlibcalls.specs.jcontexts.PrivilegeRequests.{call_of};
ghost use Rattle.jstepping.specs.jcore.AnsweredCalls.{Calling};
ghost use Rattle.jserving.specs.jinvoke.InterfaceCalls.{TargetWithin};
ghost use Rattle.jstepping.specs.jcore.MachineInvariants.{IsMachine, classes_of};
ghost use Rattle.jcalling.specs.jcallcontext.ContextRequests.{ActionTarget, FoundEntering, FoundPrivilege, FoundSnapshot, IsPrivileged, IsSnapshot, is_full};

use jlib::{ControllerCall, LibCall, RtCall, Side};
use jlibcalls::jcontexts::{
    Entering, PrivilegedForm, Privileging, find_entering, find_privilege, snapshotting,
};
use jserving::jinvoke::{Face, Target};
use jstepping::jcore::Machine;
use std::alloc::{AllocError, Global};

/// The side on which a call is getContext.
fn snapshot_side(call: LibCall) -> Side
    requires { IsSnapshot call }
    ensures { snapshot_call result ≡ call }
{
    match call {
        LibCall::Controller(ControllerCall::Snapshot) => Side::Source,
        LibCall::Rt(RtCall::Snapshot) => Side::Passing,
        _ => unreachable!(),
    }
}

/// The context that a call of getContext was given, if it was; none where there is no step.
pub(crate) fn snapshot_found<M: Copy>(
    m: &Machine<'_, '_, M>,
    call: LibCall,
    count: usize,
) -> Option<Option<u64>>
    requires call { IsSnapshot call }
    requires calling { Calling m.now count }
    ensures { FoundSnapshot m.now call count result }
{
    let side = snapshot_side(call);
    match &m.guests.running.frames {
        Some(frames) => snapshotting(frames, side, count),
        None => unreachable!(),
    }
}

/// What a call tells by which a method of a domain is entered; none where there is no step.
pub(crate) fn entering_found<M: Copy>(m: &Machine<'_, '_, M>, count: usize) -> Option<Entering>
    requires { Calling m.now count }
    ensures { FoundEntering m.now count result }
{
    match &m.guests.running.frames {
        Some(frames) => find_entering(frames, count),
        None => unreachable!(),
    }
}

/// Which form of doPrivileged a call is.
fn form_of(call: LibCall) -> (Side, PrivilegedForm)
    requires { IsPrivileged call }
    ensures { call_of result.0 result.1 ≡ call }
{
    match call {
        LibCall::Controller(ControllerCall::Privileged) => (Side::Source, PrivilegedForm::Alone),
        LibCall::Controller(ControllerCall::PrivilegedWith) => (
            Side::Source,
            PrivilegedForm::Within,
        ),
        LibCall::Controller(ControllerCall::PrivilegedLimited) => (
            Side::Source,
            PrivilegedForm::Limited,
        ),
        LibCall::Rt(RtCall::Privileged) => (Side::Passing, PrivilegedForm::Alone),
        LibCall::Rt(RtCall::PrivilegedWith) => (Side::Passing, PrivilegedForm::Within),
        LibCall::Rt(RtCall::PrivilegedLimited) => (Side::Passing, PrivilegedForm::Limited),
        _ => unreachable!(),
    }
}

/// What a call of doPrivileged wants.
pub(crate) fn privilege_found<M: Copy>(
    alloc: Global,
    m: &Machine<'_, '_, M>,
    call: LibCall,
    count: usize,
) -> Result<Privileging, AllocError>
    requires call { IsPrivileged call }
    requires calling { Calling m.now count }
    ensures { IfOk result (λ w. FoundPrivilege m.now call count w) }
{
    let (side, form) = form_of(call);
    let permissions = m.permissions.as_slice();
    let kept = m.kept.as_slice();
    match &m.guests.running.frames {
        Some(frames) => {
            let found = find_privilege(
                alloc,
                frames,
                &m.heap,
                m.fixed.shapes,
                permissions,
                kept,
                side,
                form,
                count,
            )?;
            Ok(found)
        }
        None => unreachable!(),
    }
}

/// Whether the running thread has all frames that it may have.
#[tactic(auto, using(crate::proofs::JcallcontextProofs::ContextRequests::full_is))]
pub(crate) fn has_all<M: Copy>(m: &Machine<'_, '_, M>, count: usize) -> bool
    requires { Calling m.now count }
    ensures { (f : Framed M) → m.now.guests.running.frames ≡ Some f → is_full m.now f ≡ result }
{
    match &m.guests.running.frames {
        Some(frames) => frames.depth() >= m.plan.depth as usize,
        None => unreachable!(),
    }
}

/// What a call of `run` comes to on an action, by a thread that has all frames that it may have, or not.
pub(crate) fn action_target<M: Copy>(
    m: &mut Machine<'_, '_, M>,
    action: u32,
    full: bool,
) -> Target<M>
    requires { IsMachine m.old }
    ensures target { ActionTarget m.old full action result }
    ensures within { TargetWithin (classes_of m.old) result }
    ensures same { m.new ≡ m.old }
{
    m.calls
        .by_interface(&m.heap, action, Face::Action(m.side), full, m.fixed.marks)
}
