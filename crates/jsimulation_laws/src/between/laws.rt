ghost use Rattle.jsimulation_laws.specs.between.MachineAgreement.{ShadowedAgree, ShadowedRuns, ShadowedSteps, SourcedAgree, SourcedRuns, SourcedSteps};

use jctx::context_laws;
use jsemantics::jmachine::{TwoMachines, asking_laws};

/// The inspecting machine, beside the first one between.
pub struct Sourced;

/// The second one between, beside the plain machine.
pub struct Shadowed;

impl TwoMachines for Sourced {
    ghost use Rattle.std.specs.Prelude.{List};
    ghost use Rattle.jdomain.specs.DomainStacks.{Stack};
    ghost use Rattle.jctx.specs.declared.item.Item.{Item};
    ghost use Rattle.jsemantics.specs.jrules.InspectingRules.{Carried};
    ghost use Rattle.jsimulation_laws.specs.between.BetweenMachines.{Noted};

    ghost K = { Stack };

    ghost L = { List Item };

    ghost E = { Carried };

    ghost F = { Noted };
}

impl TwoMachines for Shadowed {
    ghost use Rattle.std.specs.Prelude.{List};
    ghost use Rattle.jctx.specs.declared.item.Item.{Item};
    ghost use Rattle.jsimulation_laws.specs.between.BetweenMachines.{Noted};

    ghost K = { List Item };

    ghost L = { List Item };

    ghost E = { Noted };

    ghost F = { Unit {0} };
}

/// The laws that join the machines between to the inspecting and to the plain one. Their rules agree, where contexts stand for stacks and
/// where frames carry nothing; so does each step of a program, and so do runs, which tell the same events and end alike. It has no body to
/// run but the laws that it stands on; its contract is the laws.
pub fn beside_laws()
    ensures sourced { SourcedAgree }
    ensures sourced_steps { SourcedSteps }
    ensures sourced_runs { SourcedRuns }
    ensures shadowed { ShadowedAgree }
    ensures shadowed_steps { ShadowedSteps }
    ensures shadowed_runs { ShadowedRuns }
{
    context_laws();
    asking_laws::<Sourced>();
    asking_laws::<Shadowed>();
}
