ghost use Rattle.std.specs.Prelude.{◌≡◌, ◌<◌, None, IfOk, OnOk};
ghost use Rattle.jsemantics.specs.jmachine.MachineStates.{State as StateOf};
ghost use Rattle.jsemantics.specs.jmachine.MachineSteps.{step as steps_by};
ghost use Rattle.jguard.specs.NumberMeanings.{AskedOnce, Keeps, StandsFor};
ghost use Rattle.jruntime.specs.declared.jrun.came.Came.TheVariants.{Stuck};
ghost use Rattle.jruntime.specs.jrun.StepOutcomes.{AreFew, ComesTo, Goes, WhereGoes, WhereWent, came_as};
ghost use Rattle.jstepping.specs.jcore.MachineInvariants.{state_of};
ghost use Rattle.jforms.specs.jtables.Engines.{IsEngine, asks_next};

use crate::jengine::advancing::{advance, answer};
use crate::jtables::ByRules;
use jcalling::jexecute::hasten;
use jguard::{Guard, guard_laws};
use jruntime::jrun::{Came, Stepped, Stepping, Stretch};
use jsoundness_laws::progress::states_laws;
use jstepping::jcore::Machine;
use std::alloc::{AllocError, Global};

/// What a step came to that is one.
fn stepped(came: Came) -> Stepped
    requires { came ≡ Stuck → ⊥ }
    ensures { came_as result ≡ came }
{
    match came {
        Came::Went { events } => Stepped::Went { events },
        Came::Ended { events, end } => Stepped::Ended { events, end },
        Came::Stuck => unreachable!(),
    }
}

/// A step of a machine, by the rules of the guard that answers what it asks of access control. After an error nothing is said of the machine.
pub(crate) fn move_on<G: Guard>(
    alloc: Global,
    machine: &mut Machine<'_, '_, G::Mark>,
    guard: &mut G,
) -> Result<Stepped, AllocError>
    requires ready { IsEngine (G.kept guard.old) (G.entry guard.old) G.mark (G.rules guard.old) machine.old }
    ensures comes { IfOk result (λ came. (s : StateOf G.Kept G.Entry) → StandsFor (G.kept guard.old) (G.entry guard.old) (state_of machine.old) s
        → ComesTo (λ t. StandsFor (G.kept guard.new) (G.entry guard.new) (state_of machine.new) t)
        (steps_by (G.rules guard.old) machine.old.calls machine.old.plan.now s) (came_as came)) }
    ensures ready { IfOk result
        (λ came. WhereWent (IsEngine (G.kept guard.new) (G.entry guard.new) G.mark (G.rules guard.new) machine.new) (came_as came)) }
    ensures same { OnOk result
        (steps_by (G.rules guard.new) machine.new.calls machine.new.plan.now ≡ steps_by (G.rules guard.old) machine.old.calls machine.old.plan.now) }
    ensures rules { G.rules guard.new ≡ G.rules guard.old }
    ensures keeps { Keeps (G.kept guard.old) (G.kept guard.new) }
    ensures marks { Keeps (G.entry guard.old) (G.entry guard.new) }
    ensures quiet { asks_next machine.old ≡ None → guard.new ≡ guard.old }
    ensures once { OnOk result (AskedOnce G.asked guard.old guard.new (asks_next machine.old)) }
{
    guard_laws::<G>();
    states_laws::<ByRules<G>>();
    let came = advance(alloc, machine, guard)?;
    Ok(stepped(came))
}

/// Some steps of a machine, at least one and at most so many: those that are quick to make, of which none but the last asks anything, and the one
/// behind them, if the last wasn't one that told, asked or ended something. After an error nothing is said of the machine.
fn make_steps<G: Guard>(
    alloc: Global,
    machine: &mut Machine<'_, '_, G::Mark>,
    guard: &mut G,
    most: u64,
) -> Result<Stretch, AllocError>
    requires ready { IsEngine (G.kept guard.old) (G.entry guard.old) G.mark (G.rules guard.old) machine.old }
    requires some { 0 < most }
    ensures goes { IfOk result (λ made. (s : StateOf G.Kept G.Entry) → StandsFor (G.kept guard.old) (G.entry guard.old) (state_of machine.old) s
        → Goes (λ t. StandsFor (G.kept guard.new) (G.entry guard.new) (state_of machine.new) t)
        (steps_by (G.rules guard.old) machine.old.calls machine.old.plan.now) s made) }
    ensures few { IfOk result (AreFew most) }
    ensures ready { IfOk result
        (λ made. WhereGoes (IsEngine (G.kept guard.new) (G.entry guard.new) G.mark (G.rules guard.new) machine.new) made.last) }
    ensures same { OnOk result
        (steps_by (G.rules guard.new) machine.new.calls machine.new.plan.now ≡ steps_by (G.rules guard.old) machine.old.calls machine.old.plan.now) }
{
    guard_laws::<G>();
    states_laws::<ByRules<G>>();
    let made = hasten(alloc, machine, most)?;
    let quiet = made.steps;
    match made.last {
        Some(found) => {
            let came = answer(alloc, machine, guard, found)?;
            Ok(Stretch {
                quiet,
                last: Some(stepped(came)),
            })
        }
        None => {
            if quiet < most {
                let came = move_on(alloc, machine, guard)?;
                return Ok(Stretch {
                    quiet,
                    last: Some(came),
                });
            }
            Ok(Stretch { quiet, last: None })
        }
    }
}

/// A machine by numbers, and the guard that answers what it asks of access control.
#[derive(Drop)]
pub(crate) struct Moving<'a, 'p, M, G> {
    pub machine: Machine<'a, 'p, M>,
    pub guard: G,
}

impl<'a, 'p, G: Guard> Stepping for Moving<'a, 'p, G::Mark, G> {
    ghost use Rattle.jsemantics.specs.jmachine.MachineStates.{State as StateOf};
    ghost use Rattle.jsemantics.specs.jmachine.MachineSteps.{step as steps_by};
    ghost use Rattle.jguard.specs.NumberMeanings.{StandsFor};
    ghost use Rattle.jstepping.specs.jcore.MachineInvariants.{state_of};
    ghost use Rattle.jforms.specs.jtables.Engines.{IsEngine};

    ghost State = { StateOf G.Kept G.Entry };

    ghost steps = { λ e. steps_by (G.rules e.guard) e.machine.calls e.machine.plan.now };

    ghost stands = { λ e s. StandsFor (G.kept e.guard) (G.entry e.guard) (state_of e.machine) s };

    ghost ready = { λ e. IsEngine (G.kept e.guard) (G.entry e.guard) G.mark (G.rules e.guard) e.machine };

    fn go(&mut self, alloc: Global, most: u64) -> Result<Stretch, AllocError> {
        make_steps(alloc, &mut self.machine, &mut self.guard, most)
    }
}
