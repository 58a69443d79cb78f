ghost use Rattle.std.specs.Prelude.{◌≡◌, ◌<◌, ◌≤◌, ◌^◌, IfOk, OnErr, OnOk, Err};
ghost use Rattle.jground.specs.jbase.FaultCauses.{IsCut, Rose, appended};
ghost use Rattle.joutput.specs.declared.jtrace.fault.RunFault.TheVariants.{Sink as SinkFault};
ghost use Rattle.jtyping.specs.jwelltyped.VerifierTests.{WellTyped};
ghost use Rattle.jsemantics.specs.jmachine.Machine.{run as run_of};
ghost use Rattle.jsemantics.specs.jmachine.RunTraces.{ending, run_text};
ghost use Rattle.jsoundness_laws.specs.library.YieldLaws.{AreSided};
ghost use Rattle.jresolution.specs.jprogram.MemberResolution.{IsMain};
ghost use Rattle.jforms.specs.jtables.Engines.{IsSafe};
ghost use Rattle.jforms.specs.jtables.RunTables.{IsGround};

use crate::jengine::moving::Moving;
use crate::jtables::{EngineTables, is_sound, start};
use jguard::Guard;
use jlinking::jlink::LinkedProgram;
use joutput::jio::Sink;
use joutput::jtrace::{End, RunFault};
use jruntime::jrun::close;
use jsemantics::jmachine::Plan;
use std::alloc::Global;

/// Runs a program by what stands as long as it runs, as `run` does, under a plan that has few enough cells.
fn run_on<'p, G: Guard + Drop, K: Sink>(
    alloc: Global,
    base: &EngineTables<'p, G::Mark>,
    program: &'p LinkedProgram,
    plan: &Plan,
    guard: G,
    out: &mut K,
) -> Result<End, RunFault>
    requires base { IsGround program.now G.mark base.now }
    requires most { plan.now.heap < 2 ^ 31 }
    requires main { IsMain program.now plan.now.main }
    requires safe { IsSafe (G.rules guard) program.now }
    ensures written { OnOk result (K.out out.new ≡ appended (K.out out.old) (run_text (run_of (G.rules guard) program.now plan.now plan.now.steps))) }
    ensures end { IfOk result (λ end. end ≡ ending (run_of (G.rules guard) program.now plan.now plan.now.steps)) }
    ensures cut { OnErr result (IsCut (K.out out.old) (K.out out.new) (run_text (run_of (G.rules guard) program.now plan.now plan.now.steps))) }
    ensures later { K.faults out.old ≤ K.faults out.new }
    ensures cause { result ≡ Err SinkFault → Rose (K.faults out.old) (K.faults out.new) }
{
    let mut guard = guard;
    let begun = start(alloc, base, program, plan, &mut guard)?;
    match begun {
        None => close(out, End::HeapFull),
        Some(machine) => {
            let mut moving = Moving { machine, guard };
            let came = jruntime::jrun::run(alloc, &mut moving, plan.steps, out);
            drop(moving);
            came
        }
    }
}

/// Runs a program that links and is well typed for at most so many steps as its plan has, and writes a line for each event and one for the end, by
/// the rules of the guard that answers what its steps ask (class documentation of AccessController), which is one of the program's side, and
/// whose rules hand contexts over by it. The run begins with the `main` of a class. So each state of it has a step.
///
/// At a fault a front of the text went out. `RunFault::Sink` is answered only where the sink counted a fault in this call; want of memory
/// may come at any time.
pub fn run<G: Guard + Drop, K: Sink>(
    alloc: Global,
    program: &LinkedProgram,
    plan: &Plan,
    guard: G,
    out: &mut K,
) -> Result<End, RunFault>
    requires typed { WellTyped program.now }
    requires main { IsMain program.now plan.now.main }
    requires side { (G.rules guard).side ≡ program.now.side }
    requires sided { AreSided (G.rules guard) }
    ensures written { OnOk result (K.out out.new ≡ appended (K.out out.old) (run_text (run_of (G.rules guard) program.now plan.now plan.now.steps))) }
    ensures end { IfOk result (λ end. end ≡ ending (run_of (G.rules guard) program.now plan.now plan.now.steps)) }
    ensures cut { OnErr result (IsCut (K.out out.old) (K.out out.new) (run_text (run_of (G.rules guard) program.now plan.now plan.now.steps))) }
    ensures later { K.faults out.old ≤ K.faults out.new }
    ensures cause { result ≡ Err SinkFault → Rose (K.faults out.old) (K.faults out.new) }
{
    if plan.heap >= 0x8000_0000 {
        return Err(RunFault::Memory);
    }
    is_sound(program);
    let base = EngineTables::of(alloc, program, &guard)?;
    let came = run_on(alloc, &base, program, plan, guard, out);
    drop(base);
    came
}
