ghost use Rattle.std.specs.Prelude.{◌≡◌, IfOk};
ghost use Rattle.jdomain.specs.Domains.{has};
ghost use Rattle.jlib.specs.declared.side.Side.TheVariants.{Source};
ghost use Rattle.jsemantics.specs.jmachine.Machine.{run};
ghost use Rattle.jsemantics.specs.jrules.InspectingRules.{rules as inspecting};
ghost use Rattle.jresolution.specs.jprogram.MemberResolution.{IsMain};
ghost use Rattle.jforms.specs.jengine.RunTallies.{tally_of};

use crate::jengine::count;
use crate::jinspect::inspector::Inspector;
use jcheck::CheckedProgram;
use jdomain::Domains;
use joutput::jtally::Tally;
use jsemantics::jmachine::Plan;
use jsoundness_laws::library::rules_laws;
use std::alloc::{AllocError, Global};

/// Counts the run of a checked program by the rules of frames, as `run_inspect` writes it. Want of memory may come at any time.
pub fn count_inspect(
    alloc: Global,
    program: &CheckedProgram,
    domains: &Domains,
    plan: &Plan,
) -> Result<Tally, AllocError>
    requires main { IsMain program.now plan.now.main }
    requires side { program.now.side ≡ Source }
    ensures { IfOk result (λ t. t ≡ tally_of (run (inspecting (has domains.now)) program.now plan.now plan.now.steps)) }
{
    rules_laws();
    let guard = Inspector::open(alloc, domains)?;
    count(alloc, program.linked(), plan, guard)
}
