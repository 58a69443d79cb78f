ghost use Rattle.std.specs.Prelude.{◌≡◌, ◌≤◌, ℕ, Err, IfOk, OnErr, OnOk};
ghost use Rattle.jground.specs.jbase.FaultCauses.{IsCut, Rose, appended};
ghost use Rattle.jdomain.specs.Domains.{has};
ghost use Rattle.joutput.specs.declared.jtrace.fault.RunFault.TheVariants.{Sink as SinkFault};
ghost use Rattle.jresolution.specs.jprogram.ProgramClasses.{Program};
ghost use Rattle.jsemantics.specs.jmachine.Machine.{run as run_of};
ghost use Rattle.jsemantics.specs.jmachine.RunTraces.{ending, run_text};
ghost use Rattle.jsemantics.specs.jmachine.MachineSteps.{step};
ghost use Rattle.jsemantics.specs.jrules.InspectingRules.{rules as inspecting};
ghost use Rattle.jsemantics.specs.jrules.PlainRules.{rules as plain};
ghost use Rattle.jresolution.specs.jprogram.MemberResolution.{IsMain};
ghost use Rattle.jpass_laws.specs.PassSimulation.{NeverStuck, Passes, inspected, passed};
ghost use Rattle.jforms.specs.jpass.PassRuns.{AfterSome, IsMoved, OnceEnded, PassesChecker, Tells};
ghost use Rattle.jmoved_laws.specs.contexts.SmallContexts.{HasSmall};

use crate::jplain::{is_sound, run_plain};
use jcheck::PlainProgram;
use jdomain::Domains;
use jmoved_laws::contexts::small_law;
use jmoved_laws::names::begin_law;
use joutput::jio::Sink;
use joutput::jtrace::{End, RunFault};
use jpass_laws::{ByContexts, ByFrames, moved_laws};
use jsemantics::jmachine::Plan;
use jsoundness_laws::library::rules_laws;
use jsoundness_laws::program::runs_law;
use jsoundness_laws::progress::states_laws;
use std::alloc::Global;

/// Runs a well-typed program of the passing side by the rules of contexts, as [`run_plain`] does. Of each program that links, is well typed,
/// breaks no limit and is moved to this one, it writes what the inspecting run has told after some k steps, and ends as that has: `simulated`
/// says that k is at most the plan's number of steps, and that this is at most 8 k + 15 where the inspecting run goes on. `complete` says that
/// nothing else is told: where the inspecting run has ended after n steps, 8 n + 8 are enough to tell it all. Nobody is handed that program.
/// Whatever is answered, both hold of the events and the ends of the two runs, after any number of steps (`agrees`). The program passes the
/// checker (`checked`), and neither run is ever stuck (`steps`, `unstuck`). `small`: each context that stands in a state of this run has
/// domains of that program's classes alone, so that one without limits has no more items than these are.
pub fn run_pass<K: Sink>(
    alloc: Global,
    program: &PlainProgram,
    domains: &Domains,
    plan: &Plan,
    out: &mut K,
) -> Result<End, RunFault>
    requires main { IsMain program.now plan.now.main }
    ensures written { OnOk result
        (K.out out.new ≡ appended (K.out out.old) (run_text (run_of (plain (has domains.now)) program.now plan.now plan.now.steps))) }
    ensures end { IfOk result (λ end. end ≡ ending (run_of (plain (has domains.now)) program.now plan.now plan.now.steps)) }
    ensures cut { OnErr result
        (IsCut (K.out out.old) (K.out out.new) (run_text (run_of (plain (has domains.now)) program.now plan.now plan.now.steps))) }
    ensures later { K.faults out.old ≤ K.faults out.new }
    ensures cause { result ≡ Err SinkFault → Rose (K.faults out.old) (K.faults out.new) }
    ensures simulated { (p : Program) → IsMoved p program.now
        → AfterSome (inspected (has domains.now) p plan.now) plan.now.steps (λ r. Tells r result (K.out out.old) (K.out out.new)) }
    ensures complete { (p : Program) → IsMoved p program.now
        → OnceEnded (inspected (has domains.now) p plan.now) plan.now.steps (λ r. Tells r result (K.out out.old) (K.out out.new)) }
    ensures agrees { (p : Program) → IsMoved p program.now → Passes (has domains.now) p program.now plan.now }
    ensures checked { PassesChecker program.now }
    ensures steps { NeverStuck (step (plain (has domains.now)) program.now plan.now) (passed (has domains.now) program.now plan.now) }
    ensures unstuck { (p : Program) → IsMoved p program.now
        → NeverStuck (step (inspecting (has domains.now)) p plan.now) (inspected (has domains.now) p plan.now) }
    ensures small { (p : Program) → IsMoved p program.now
        → (k : ℕ) → HasSmall p (passed (has domains.now) program.now plan.now k).state }
{
    moved_laws();
    begin_law();
    small_law();
    rules_laws();
    runs_law::<ByFrames>();
    states_laws::<ByContexts>();
    is_sound(program.linked());
    run_plain(alloc, program, domains, plan, out)
}
