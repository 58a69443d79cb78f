ghost use Rattle.std.specs.Prelude.{◌≡◌, ◌+◌, Some, slice_get};
ghost use Rattle.jlib.specs.declared.calls.ControllerCall.TheVariants as controller;
ghost use Rattle.jlib.specs.declared.calls.LibCall.TheVariants as calls;
ghost use Rattle.jlib.specs.declared.calls.RtCall.TheVariants as rt;
ghost use Rattle.jruntime.specs.jstate.FrameLists.{Framed};
ghost use Rattle.jstepping.specs.jcore.AnsweredCalls.{Calling};
ghost use Rattle.jcalling.specs.jcallcheck.CheckRequests;
ghost use Rattle.jcalling.specs.jcallcheck.CheckRequests.{Found};

use jlibcalls::jcontexts::kept_of;
use jstepping::jcore::Machine;
use jvalues::jops::Value;

/// What is to grant a permission.
#[derive(Clone, Copy, Debug, PartialEq, Eq)]
pub enum CheckSubject {
    /// The running thread, with the context that the call is given on the passing side.
    Thread(Option<u64>),
    /// What an AccessControlContext keeps, by number.
    Kept(u64),
}

/// What a call checks.
#[derive(Clone, Copy, Debug, PartialEq, Eq)]
pub struct Check {
    /// The operand that names the permission.
    pub operand: Value,
    pub whom: CheckSubject,
}

/// An operand of the running thread's newest frame, counted from its newest. It is there.
fn operand_at<M: Copy>(m: &Machine<'_, '_, M>, i: usize) -> Value
    requires { Calling m.now (i + 1) }
    ensures { (f : Framed M) → m.now.guests.running.frames ≡ Some f → slice_get f.newest.operands i ≡ Some result }
{
    match &m.guests.running.frames {
        Some(frames) => frames.operand(i),
        None => unreachable!(),
    }
}

/// What AccessController's checkPermission checks.
pub(crate) fn check_of<M: Copy>(m: &Machine<'_, '_, M>, count: usize) -> Option<Check>
    requires { Calling m.now count }
    ensures { Found m.now (calls.Controller controller.Check) count result }
{
    if count != 1 {
        return None;
    }
    let operand = operand_at(m, 0);
    Some(Check {
        operand,
        whom: CheckSubject::Thread(None),
    })
}

/// The context that a value is, if it is one.
fn context_in(value: Value) -> Option<u64>
    ensures { result ≡ CheckRequests.context_in value }
{
    match value {
        Value::Int(_) => None,
        Value::Long(_) => None,
        Value::Ref(_) => None,
        Value::Ctx(k) => Some(k),
    }
}

/// What it checks on the passing side, where it is given a context.
pub(crate) fn passing_check_of<M: Copy>(m: &Machine<'_, '_, M>, count: usize) -> Option<Check>
    requires { Calling m.now count }
    ensures { Found m.now (calls.Rt rt.Check) count result }
{
    if count != 2 {
        return None;
    }
    let given = operand_at(m, 0);
    let operand = operand_at(m, 1);
    match context_in(given) {
        None => None,
        Some(k) => Some(Check {
            operand,
            whom: CheckSubject::Thread(Some(k)),
        }),
    }
}

/// What AccessControlContext's checkPermission checks.
pub(crate) fn kept_check_of<M: Copy>(m: &Machine<'_, '_, M>, count: usize) -> Option<Check>
    requires { Calling m.now count }
    ensures { Found m.now calls.ContextCheck count result }
{
    if count != 2 {
        return None;
    }
    let operand = operand_at(m, 0);
    let context = operand_at(m, 1);
    match kept_of(&m.heap, m.kept.as_slice(), context) {
        None => None,
        Some(number) => Some(Check {
            operand,
            whom: CheckSubject::Kept(number),
        }),
    }
}
