ghost use Rattle.std.specs.Prelude.{◌≡◌, ◌<◌, IfOk, None, OnOk};
ghost use Rattle.jserving.specs.jinvoke.InterfaceCalls.{TargetWithin};
ghost use Rattle.jstepping.specs.jcore.MachineOutcomes.{Comes, GoesOn, any};
ghost use Rattle.jstepping.specs.jcore.MachineInvariants.{IsMachine, IsReady, StaysFixed, classes_of};
ghost use Rattle.jcalling.specs.jbegin.ThreadStarts.{BeginsAs, RunTarget, step_of};

use crate::jbegin::failing::fail_run;
use crate::jbegin::pushing::push_run;
use jground::jbase::Seq;
use jlibcalls::jcontexts::begin_laws;
use jruntime::jrun::Came;
use jserving::jinvoke::{Face, Target};
use jstepping::jcore::{Machine, end_thread};
use std::alloc::{AllocError, Global};

/// What a call of `run` comes to on the object that the running thread was given.
fn run_target<M: Copy>(m: &mut Machine<'_, '_, M>) -> Target<M>
    requires { IsMachine m.old }
    ensures target { RunTarget m.old result }
    ensures within { TargetWithin (classes_of m.old) result }
    ensures same { m.new ≡ m.old }
{
    m.calls.by_interface(
        &m.heap,
        m.guests.running.runnable,
        Face::Runnable(m.side),
        false,
        m.fixed.marks,
    )
}

/// Begins the running thread, where the call of `run` comes to this.
fn begin_by<M: Copy>(
    alloc: Global,
    m: &mut Machine<'_, '_, M>,
    target: Target<M>,
) -> Result<Came, AllocError>
    requires ready { IsReady m.old }
    requires none { m.old.guests.running.frames ≡ None }
    requires some { 0 < m.old.guests.running.runnable }
    requires within { TargetWithin (classes_of m.old) target }
    ensures comes { IfOk result (λ came. BeginsAs m.old target came m.new) }
    ensures ready { IfOk result (GoesOn m.new) }
    ensures fixed { OnOk result (StaysFixed m.old m.new) }
{
    begin_laws::<M>();
    match target {
        Target::Stuck => Ok(Came::Stuck),
        Target::Fails(class) => {
            let came = fail_run(alloc, m, class)?;
            Ok(came)
        }
        Target::Pushes(callee) => {
            let came = push_run(alloc, m, callee)?;
            Ok(came)
        }
    }
}

/// Begins the running thread with the `run` of the object that it was given.
fn begin_run<M: Copy>(alloc: Global, m: &mut Machine<'_, '_, M>) -> Result<Came, AllocError>
    requires ready { IsReady m.old }
    requires none { m.old.guests.running.frames ≡ None }
    requires some { 0 < m.old.guests.running.runnable }
    ensures comes { IfOk result (λ done. Comes m.old any (step_of m.old) done m.new) }
    ensures ready { IfOk result (GoesOn m.new) }
    ensures fixed { OnOk result (StaysFixed m.old m.new) }
{
    let target = run_target(m);
    let came = begin_by(alloc, m, target)?;
    Ok(came)
}

/// A step of the running thread that has no frames: it begins with the `run` of the object that it was given, or ends at once where it was
/// given none (class documentation of Thread).
pub fn begin_thread<M: Copy>(alloc: Global, m: &mut Machine<'_, '_, M>) -> Result<Came, AllocError>
    requires ready { IsReady m.old }
    requires none { m.old.guests.running.frames ≡ None }
    ensures comes { IfOk result (λ done. Comes m.old any (step_of m.old) done m.new) }
    ensures ready { IfOk result (GoesOn m.new) }
    ensures fixed { OnOk result (StaysFixed m.old m.new) }
{
    begin_laws::<M>();
    if m.guests.running.runnable == 0 {
        let came = end_thread(m, false, Seq::new(alloc))?;
        return Ok(came);
    }
    let came = begin_run(alloc, m)?;
    Ok(came)
}
