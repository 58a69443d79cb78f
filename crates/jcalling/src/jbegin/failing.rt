ghost use Rattle.std.specs.Prelude.{◌≡◌, ◌<◌, IfOk, None, OnOk};
ghost use Rattle.jserving.specs.declared.jinvoke.faces.Target.TheVariants as targets;
ghost use Rattle.jstepping.specs.jcore.MachineOutcomes.{GoesOn};
ghost use Rattle.jstepping.specs.jcore.MachineInvariants.{IsMachine, IsReady, StaysFixed};
ghost use Rattle.jcalling.specs.jbegin.ThreadStarts.{BeginsAs, FailsIn};

use jground::jbase::Seq;
use jlib::{LibClass, Thrown};
use jlibcalls::jcontexts::fail_beginning;
use jresolution::jprogram::ClassRef;
use jruntime::jrun::Came;
use jstepping::jcore::{Machine, end_thread, full, machine_laws, tell_uncaught};
use std::alloc::{AllocError, Global};

/// Raises an exception of a class where the running thread is to begin, if the cells for it are left.
fn raise_first<M: Copy>(
    alloc: Global,
    m: &mut Machine<'_, '_, M>,
    class: Thrown,
) -> Result<bool, AllocError>
    requires { IsMachine m.old }
    ensures fails { IfOk result (λ room. FailsIn m.old class room m.new) }
    ensures fixed { OnOk result (StaysFixed m.old m.new) }
{
    machine_laws::<M>();
    let room = fail_beginning::<M>(alloc, &mut m.heap, class)?;
    Ok(room)
}

/// An exception of a class is raised in the running thread, which has no frames: it ends by it.
pub(crate) fn fail_run<M: Copy>(
    alloc: Global,
    m: &mut Machine<'_, '_, M>,
    class: Thrown,
) -> Result<Came, AllocError>
    requires ready { IsReady m.old }
    requires none { m.old.guests.running.frames ≡ None }
    requires some { 0 < m.old.guests.running.runnable }
    ensures comes { IfOk result (λ came. BeginsAs m.old (targets.Fails class) came m.new) }
    ensures ready { IfOk result (GoesOn m.new) }
    ensures fixed { OnOk result (StaysFixed m.old m.new) }
{
    machine_laws::<M>();
    let room = raise_first(alloc, m, class)?;
    if !room {
        return Ok(full(alloc));
    }
    let mut told = Seq::new(alloc);
    let thrown = ClassRef::Lib(LibClass::Thrown(class));
    tell_uncaught(alloc, m, thrown, &mut told)?;
    let came = end_thread(m, true, told)?;
    Ok(came)
}
