ghost use Rattle.std.specs.Prelude.{◌≡◌, ◌≤◌, Err, IfOk, OnErr, OnOk};
ghost use Rattle.jground.specs.jbase.FaultCauses.{IsCut, Rose, appended};
ghost use Rattle.jdomain.specs.Domains.{has};
ghost use Rattle.joutput.specs.declared.jtrace.fault.RunFault.TheVariants.{Sink as SinkFault};
ghost use Rattle.jsemantics.specs.jmachine.Machine.{run as run_of};
ghost use Rattle.jsemantics.specs.jmachine.RunTraces.{ending, run_text};
ghost use Rattle.jsemantics.specs.jrules.PlainRules.{rules as plain};
ghost use Rattle.jresolution.specs.jprogram.MemberResolution.{IsMain};

use crate::jengine::run;
use crate::jplain::plain_guard::PlainGuard;
use jcheck::PlainProgram;
use jdomain::Domains;
use joutput::jio::Sink;
use joutput::jtrace::{End, RunFault};
use jsemantics::jmachine::Plan;
use jsoundness_laws::library::rules_laws;
use std::alloc::Global;

/// Runs a program of the passing side that is well typed by the rules of contexts: each check is decided by the context that the call hands over,
/// without a look at frames (Wallach, Appel and Felten, 2000). It writes a line for each event and one for the end, which is `Bound` where the run
/// has not ended after the plan's steps. It begins with the `main` of a class.
///
/// At a fault a front of the text went out. `RunFault::Sink` is answered only where the sink counted a fault in this call; want of memory
/// may come at any time.
pub fn run_plain<K: Sink>(
    alloc: Global,
    program: &PlainProgram,
    domains: &Domains,
    plan: &Plan,
    out: &mut K,
) -> Result<End, RunFault>
    requires main { IsMain program.now plan.now.main }
    ensures written { OnOk result
        (K.out out.new ≡ appended (K.out out.old) (run_text (run_of (plain (has domains.now)) program.now plan.now plan.now.steps))) }
    ensures end { IfOk result (λ end. end ≡ ending (run_of (plain (has domains.now)) program.now plan.now plan.now.steps)) }
    ensures cut { OnErr result
        (IsCut (K.out out.old) (K.out out.new) (run_text (run_of (plain (has domains.now)) program.now plan.now plan.now.steps))) }
    ensures later { K.faults out.old ≤ K.faults out.new }
    ensures cause { result ≡ Err SinkFault → Rose (K.faults out.old) (K.faults out.new) }
{
    rules_laws();
    let guard = PlainGuard::open(alloc, domains)?;
    run(alloc, program.linked(), plan, guard, out)
}
