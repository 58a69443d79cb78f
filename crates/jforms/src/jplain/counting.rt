ghost use Rattle.std.specs.Prelude.{◌≡◌, IfOk};
ghost use Rattle.jdomain.specs.Domains.{has};
ghost use Rattle.jsemantics.specs.jmachine.Machine.{run};
ghost use Rattle.jsemantics.specs.jrules.PlainRules.{rules as plain};
ghost use Rattle.jresolution.specs.jprogram.MemberResolution.{IsMain};
ghost use Rattle.jforms.specs.jengine.RunTallies.{tally_of};

use crate::jengine::count;
use crate::jplain::plain_guard::PlainGuard;
use jcheck::PlainProgram;
use jdomain::Domains;
use joutput::jtally::Tally;
use jsemantics::jmachine::Plan;
use jsoundness_laws::library::rules_laws;
use std::alloc::{AllocError, Global};

/// Counts the run of a program of the passing side by the rules of contexts, as `run_plain` writes it. Want of memory may come at any time.
pub fn count_plain(
    alloc: Global,
    program: &PlainProgram,
    domains: &Domains,
    plan: &Plan,
) -> Result<Tally, AllocError>
    requires main { IsMain program.now plan.now.main }
    ensures { IfOk result (λ t. t ≡ tally_of (run (plain (has domains.now)) program.now plan.now plan.now.steps)) }
{
    rules_laws();
    let guard = PlainGuard::open(alloc, domains)?;
    count(alloc, program.linked(), plan, guard)
}
