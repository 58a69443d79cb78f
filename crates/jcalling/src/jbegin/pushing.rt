ghost use Rattle.std.specs.Prelude.{◌≡◌, ◌<◌, IfOk, None, OnOk};
ghost use Rattle.jserving.specs.declared.jinvoke.faces.Target.TheVariants as targets;
ghost use Rattle.jstepping.specs.jcore.MachineOutcomes.{GoesOn};
ghost use Rattle.jstepping.specs.jcore.MachineInvariants.{IsReady, StaysFixed, classes_of};
ghost use Rattle.jcalling.specs.jbegin.ThreadStarts.{BeginsAs};

use jground::jbase::Seq;
use jlibcalls::jcontexts::begin;
use jrows::jcalls::Callee;
use jruntime::jrun::Came;
use jstepping::jcore::{Machine, machine_laws};
use std::alloc::{AllocError, Global};

/// The running thread, which has no frames, begins with a user's method, where this has code.
pub(crate) fn push_run<M: Copy>(
    alloc: Global,
    m: &mut Machine<'_, '_, M>,
    callee: Callee<M>,
) -> Result<Came, AllocError>
    requires ready { IsReady m.old }
    requires none { m.old.guests.running.frames ≡ None }
    requires some { 0 < m.old.guests.running.runnable }
    requires within { callee.method.class < classes_of m.old }
    ensures comes { IfOk result (λ came. BeginsAs m.old (targets.Pushes callee) came m.new) }
    ensures ready { IfOk result (GoesOn m.new) }
    ensures fixed { OnOk result (StaysFixed m.old m.new) }
{
    machine_laws::<M>();
    let begun = begin(
        alloc,
        callee,
        m.guests.running.runnable,
        m.guests.running.inherited,
        m.side,
    )?;
    let Some(frames) = begun else {
        return Ok(Came::Stuck);
    };
    m.guests.running.frames = Some(frames);
    Ok(Came::Went {
        events: Seq::new(alloc),
    })
}
