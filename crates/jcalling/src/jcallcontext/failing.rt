ghost use Rattle.std.specs.Prelude.{◌≡◌, IfOk, OnOk, Some, drop};
ghost use Rattle.jlib.specs.declared.classes.LibClass.TheVariants as lib;
ghost use Rattle.jsemantics.specs.jmachine.MachineStates.{raises};
ghost use Rattle.jruntime.specs.jstate.FrameLists.{Framed, holding};
ghost use Rattle.jstepping.specs.jcore.AnsweredCalls.{Calling};
ghost use Rattle.jstepping.specs.jcore.MachineOutcomes.{GoesOn, any};
ghost use Rattle.jstepping.specs.jcore.MidStepMachines.{left_as};
ghost use Rattle.jstepping.specs.jcore.MachineInvariants.{StaysFixed, things_of};
ghost use Rattle.jcalling.specs.jcallcontext.ContextCallRows.{ComesBy};

use jground::jbase::Seq;
use jlib::Thrown;
use jlibcalls::jcontexts::fail_law;
use jruntime::jrun::Came;
use jstepping::jcore::{Machine, machine_laws, raise};
use std::alloc::{AllocError, Global};

/// Takes so many operands of the running thread's newest frame away.
fn drop_operands<M: Copy>(m: &mut Machine<'_, '_, M>, count: usize)
    requires { Calling m.old count }
    ensures { (f : Framed M) → m.old.guests.running.frames ≡ Some f
        → m.new ≡ left_as (Some (holding (drop count f.newest.operands) f)) m.old.heap (things_of m.old) m.old }
{
    match &mut m.guests.running.frames {
        Some(frames) => frames.shrink(count),
        None => unreachable!(),
    }
}

/// A call with so many operands raises an exception of a class.
pub(crate) fn fail_call<M: Copy>(
    alloc: Global,
    m: &mut Machine<'_, '_, M>,
    class: Thrown,
    count: usize,
) -> Result<Came, AllocError>
    requires { Calling m.old count }
    ensures comes { IfOk result (λ came. ComesBy m.old count any (Some (raises (lib.Thrown class))) came m.new) }
    ensures ready { IfOk result (GoesOn m.new) }
    ensures fixed { OnOk result (StaysFixed m.old m.new) }
{
    machine_laws::<M>();
    fail_law::<M>();
    drop_operands(m, count);
    let came = raise(alloc, m, class, Seq::new(alloc))?;
    Ok(came)
}
