ghost use Rattle.std.specs.Prelude.{ℕ};
ghost use Rattle.jguard.specs.StepQueries.{AsksAsCalled, AsksAsFetched};
ghost use Rattle.jguard.specs.GuardLaws.{GuardedOpening, GuardedStep, StaysStanding, StepKnown};

use crate::guard::Guard;
use jsemantics::jmachine::{TwoMachines, asking_laws};
use std::marker::PhantomData;

/// A machine by a guard's numbers, beside one over what they stand for, where they stand for anything.
pub struct ByNumbers<G> {
    guard: PhantomData<G>,
}

/// The machine by the guard's rules, beside one over the same things, where there are any.
pub struct ByThings<G> {
    guard: PhantomData<G>,
}

impl<G: Guard> TwoMachines for ByNumbers<G> {
    ghost use Rattle.std.specs.Prelude.{ℕ, Option};

    ghost K = { ℕ };

    ghost L = { Option G.Kept };

    ghost E = { G.Mark };

    ghost F = { Option G.Entry };
}

impl<G: Guard> TwoMachines for ByThings<G> {
    ghost use Rattle.std.specs.Prelude.{Option};

    ghost K = { G.Kept };

    ghost L = { Option G.Kept };

    ghost E = { G.Entry };

    ghost F = { Option G.Entry };
}

/// The laws of a machine by a guard's numbers. What a state by numbers stands for stays while numbers keep what they stand for. The first
/// state by numbers stands for that by what is kept. What a step asks by such numbers was given. And a step by numbers, which is the same
/// for all rules by numbers that answer as the guard did what the step asks, if it asks anything, stands for the step by the guard's own
/// rules. What it asks, its instruction asks, and of calls those alone that run a member of the library. It has no body to run but the
/// laws that it stands on; its contract is the laws.
pub fn guard_laws<G: Guard>()
    ensures stays { StaysStanding G.Mark G.Kept G.Entry }
    ensures opening { GuardedOpening G.Mark G.Kept G.Entry }
    ensures known { StepKnown G.Mark G.Kept G.Entry }
    ensures fetched { AsksAsFetched ℕ G.Mark }
    ensures called { AsksAsCalled ℕ G.Mark }
    ensures step { GuardedStep G.Mark G.Kept G.Entry }
{
    asking_laws::<ByNumbers<G>>();
    asking_laws::<ByThings<G>>();
}
