ghost use Rattle.std.specs.Prelude.{◌≡◌, ◌∷◌, ◌++◌, [], IfOk, OnOk};
ghost use Rattle.joutput.specs.declared.jtrace.event.End.TheVariants.{HeapFull};
ghost use Rattle.joutput.specs.declared.jtrace.event.Event.TheVariants.{Throw, Uncaught};
ghost use Rattle.jsemantics.specs.jmachine.Unwinding.{told_name as name_told};
ghost use Rattle.jruntime.specs.declared.jrun.came.Came.TheVariants as stepped;
ghost use Rattle.jstepping.specs.jstep.StepRelation.{type_of};
ghost use Rattle.jruntime.specs.jguests.GuestThreads.{Lives};
ghost use Rattle.jstepping.specs.jcore.MachineOutcomes.{EndsThread, GoesOn, HandledStand, IsOwn, LeftStand, Settles, SettlesRaised};
ghost use Rattle.jstepping.specs.jcore.MachineInvariants.{IsMachine, StaysFixed};

use crate::jcore::machine::Machine;
use crate::jcore::telling::told_name;
use jground::jbase::Seq;
use joutput::jtrace::{End, Event};
use jresolution::jprogram::ClassRef;
use jrows::jcalls::Raised;
use jruntime::jguests::Turned;
use jruntime::jrun::Came;
use std::alloc::{AllocError, Global};

/// Ends the running thread, by an exception or not, behind these events, and gives another its turn.
#[tactic(auto, using(crate::proofs::JcoreProofs::StepOutcomes::ends_goes, crate::proofs::JcoreProofs::StepOutcomes::ends_over))]
pub fn end_thread<M: Copy>(
    m: &mut Machine<'_, '_, M>,
    failed: bool,
    told: Seq<Event>,
) -> Result<Came, AllocError>
    requires machine { IsMachine m.old }
    requires lives { Lives m.old.guests }
    ensures comes { IfOk result (λ came. EndsThread m.old failed told came m.new) }
    ensures ready { IfOk result (GoesOn m.new) }
    ensures fixed { OnOk result (StaysFixed m.old m.new) }
{
    match m.guests.end_turn(m.plan.schedule.as_slice(), failed)? {
        Turned::Goes => Ok(Came::Went { events: told }),
        Turned::Ends(end) => Ok(Came::Ended { events: told, end }),
    }
}

/// What is told of an object of a class that was thrown in the running thread, behind these events.
fn tell_thrown<M: Copy>(
    alloc: Global,
    m: &Machine<'_, '_, M>,
    class: ClassRef,
    told: &mut Seq<Event>,
) -> Result<(), AllocError>
    ensures { OnOk result (told.new ≡ told.old ++ Throw m.now.guests.at (name_told (type_of m.now.calls class)) ∷ []) }
{
    let class = told_name(alloc, m.calls.known().program(), class)?;
    told.push(Event::Throw {
        thread: m.guests.at,
        class,
    })
}

/// The same, where none of its frames handles it.
pub fn tell_uncaught<M: Copy>(
    alloc: Global,
    m: &Machine<'_, '_, M>,
    class: ClassRef,
    told: &mut Seq<Event>,
) -> Result<(), AllocError>
    ensures { OnOk result (told.new ≡ told.old ++ Throw m.now.guests.at (name_told (type_of m.now.calls class))
        ∷ Uncaught m.now.guests.at (name_told (type_of m.now.calls class)) ∷ []) }
{
    tell_thrown(alloc, m, class, told)?;
    let class = told_name(alloc, m.calls.known().program(), class)?;
    told.push(Event::Uncaught {
        thread: m.guests.at,
        class,
    })
}

/// Goes on behind an object of a class that was raised or thrown in the running thread: it is told, behind these events, and where none of its frames
/// handles it the thread ends.
#[tactic(auto, using(crate::proofs::JcoreProofs::ReadyMachines::handled_ready, crate::proofs::JcoreProofs::StepOutcomes::raised_full, crate::proofs::JcoreProofs::StepOutcomes::raised_handled, crate::proofs::JcoreProofs::StepOutcomes::raised_uncaught,),)]
pub fn settle_raised<M: Copy>(
    alloc: Global,
    m: &mut Machine<'_, '_, M>,
    done: Raised,
    class: ClassRef,
    told: Seq<Event>,
) -> Result<Came, AllocError>
    requires machine { IsMachine m.old }
    requires lives { Lives m.old.guests }
    requires stand { HandledStand m.old done }
    ensures comes { IfOk result (λ came. SettlesRaised m.old done class told came m.new) }
    ensures ready { IfOk result (GoesOn m.new) }
    ensures fixed { OnOk result (StaysFixed m.old m.new) }
{
    let mut told = told;
    match done {
        Raised::Full => Ok(full(alloc)),
        Raised::Handled => {
            tell_thrown(alloc, m, class, &mut told)?;
            Ok(Came::Went { events: told })
        }
        Raised::Uncaught => {
            tell_uncaught(alloc, m, class, &mut told)?;
            let came = end_thread(m, true, told)?;
            Ok(came)
        }
    }
}

/// The run is over, since the heap has too few cells.
pub fn full(alloc: Global) -> Came
    ensures { result ≡ stepped.Ended [] HeapFull }
{
    Came::Ended {
        events: Seq::new(alloc),
        end: End::HeapFull,
    }
}

/// Goes on behind a step of the running thread, which needn't ask the library.
#[tactic(auto, using(crate::proofs::JcoreProofs::ReadyMachines::went_ready, crate::proofs::JcoreProofs::ReadyMachines::left_handled, crate::proofs::JcoreProofs::StepOutcomes::settlings,),)]
pub fn settle<M: Copy>(
    alloc: Global,
    m: &mut Machine<'_, '_, M>,
    came: crate::jstep::Stepped,
) -> Result<Came, AllocError>
    requires own { IsOwn came }
    requires machine { IsMachine m.old }
    requires lives { Lives m.old.guests }
    requires stand { LeftStand m.old came }
    ensures comes { IfOk result (λ done. Settles m.old came done m.new) }
    ensures ready { IfOk result (GoesOn m.new) }
    ensures fixed { OnOk result (StaysFixed m.old m.new) }
{
    let told = Seq::new(alloc);
    match came {
        crate::jstep::Stepped::Went => Ok(Came::Went { events: told }),
        crate::jstep::Stepped::Ended => {
            let done = end_thread(m, false, told)?;
            Ok(done)
        }
        crate::jstep::Stepped::Handled(class) => {
            let done = settle_raised(alloc, m, Raised::Handled, class, told)?;
            Ok(done)
        }
        crate::jstep::Stepped::Uncaught(class) => {
            let done = settle_raised(alloc, m, Raised::Uncaught, class, told)?;
            Ok(done)
        }
        crate::jstep::Stepped::Full => Ok(full(alloc)),
        crate::jstep::Stepped::Stuck => Ok(Came::Stuck),
        crate::jstep::Stepped::Asks { .. } => unreachable!(),
    }
}
