ghost use Rattle.std.specs.Prelude.{IfOk, OnOk};
ghost use Rattle.jruntime.specs.jguests.GuestThreads.{Lives};
ghost use Rattle.jstepping.specs.jcore.MachineOutcomes.{GoesOn};
ghost use Rattle.jstepping.specs.jcore.MidStepMachines.{RunsStanding};
ghost use Rattle.jstepping.specs.jcore.MachineInvariants.{IsMachine, StaysFixed};
ghost use Rattle.jstepping.specs.jcore.RaiseOutcomes.{RaisesIn, ThrowsIn};

use crate::jcore::laws::machine_laws;
use crate::jcore::machine::Machine;
use crate::jcore::settling::settle_raised;
use jground::jbase::Seq;
use jlib::{LibClass, Thrown};
use joutput::jtrace::Event;
use jresolution::jprogram::ClassRef;
use jrows::jcalls::Raised;
use jruntime::jguests::guest_laws;
use jruntime::jrun::Came;
use jruntime::jstate::thrown_number;
use jserving::jinvoke::{ThrownAs, told_law};
use std::alloc::{AllocError, Global};

/// Raises an exception of a class of the library, without a message, in the frames of the running thread.
fn throw<M: Copy>(
    alloc: Global,
    m: &mut Machine<'_, '_, M>,
    class: Thrown,
) -> Result<Raised, AllocError>
    requires machine { IsMachine m.old }
    requires runs { RunsStanding m.old }
    ensures thrown { IfOk result (λ done. ThrowsIn m.old class done m.new) }
    ensures fixed { OnOk result (StaysFixed m.old m.new) }
{
    machine_laws::<M>();
    let handlers = ThrownAs {
        known: m.calls.known(),
        class: ClassRef::Lib(LibClass::Thrown(class)),
    };
    let number = thrown_number(class);
    match &mut m.guests.running.frames {
        Some(frames) => {
            let done = jrows::jcalls::raise(
                alloc,
                frames,
                &mut m.heap,
                class,
                number,
                m.fixed.marks,
                &handlers,
            )?;
            Ok(done)
        }
        None => unreachable!(),
    }
}

/// Raises an exception of a class of the library, without a message, in the running thread behind these events, and goes on behind it.
pub fn raise<M: Copy>(
    alloc: Global,
    m: &mut Machine<'_, '_, M>,
    class: Thrown,
    told: Seq<Event>,
) -> Result<Came, AllocError>
    requires machine { IsMachine m.old }
    requires lives { Lives m.old.guests }
    requires runs { RunsStanding m.old }
    ensures comes { IfOk result (λ came. RaisesIn m.old class told came m.new) }
    ensures ready { IfOk result (GoesOn m.new) }
    ensures fixed { OnOk result (StaysFixed m.old m.new) }
{
    machine_laws::<M>();
    told_law::<M>();
    guest_laws::<M>();
    let done = throw(alloc, m, class)?;
    let thrown = ClassRef::Lib(LibClass::Thrown(class));
    let came = settle_raised(alloc, m, done, thrown, told)?;
    Ok(came)
}
