ghost use Rattle.std.specs.Prelude.{◌≡◌, [], None, IfOk, unwrap_or};
ghost use Rattle.joutput.specs.declared.jtrace.event.End.TheVariants.{Bound};
ghost use Rattle.jtyping.specs.jwelltyped.VerifierTests.{WellTyped};
ghost use Rattle.jsemantics.specs.jmachine.MachineStates.{Outcome, State};
ghost use Rattle.jsemantics.specs.jmachine.Machine.{run};
ghost use Rattle.jsemantics.specs.jmachine.RunTraces.{Run, next, run_from, told_by};
ghost use Rattle.jruntime.specs.jrun.RunSegments.{told_in};
ghost use Rattle.joutput.specs.jtally.EventCounts.{counted};
ghost use Rattle.jsoundness_laws.specs.library.YieldLaws.{AreSided};
ghost use Rattle.jresolution.specs.jprogram.MemberResolution.{IsMain};
ghost use Rattle.jforms.specs.jtables.RunPositions.{Stands, end_of, steps};
ghost use Rattle.jforms.specs.jtables.RunTables.{IsGround};
ghost use Rattle.jforms.specs.jengine.EnginePositions.{IsAt};
ghost use Rattle.jforms.specs.jengine.RunTallies.{tally_of};

use crate::jengine::engine::Engine;
use crate::jtables::EngineTables;
use jguard::Guard;
use jlinking::jlink::LinkedProgram;
use joutput::jtally::{Counts, Tally, tally_laws};
use joutput::jtrace::{End, Event};
use jruntime::jrun::Stepped;
use jsemantics::jmachine::Plan;
use std::alloc::{AllocError, Global};

/// Some more events. Where a count is above 64 bits, the answer is that no memory was left.
fn with_events(counts: Counts, events: &[Event]) -> Result<Counts, AllocError>
    ensures { IfOk result (λ n. n ≡ counted counts events.now) }
{
    match counts.with_all(events) {
        Some(counts) => Ok(counts),
        None => Err(AllocError),
    }
}

/// What a step told, besides.
fn with_told(counts: Counts, came: &Stepped) -> Result<Counts, AllocError>
    ensures { IfOk result (λ n. n ≡ counted counts (told_in came.now)) }
{
    match came {
        Stepped::Went { events } => with_events(counts, events.as_slice()),
        Stepped::Ended { events, .. } => with_events(counts, events.as_slice()),
    }
}

/// One step of a run that has not ended, and what it told besides.
fn count_step<G: Guard + Drop>(
    alloc: Global,
    engine: &mut Engine<'_, '_, G>,
    counts: Counts,
) -> Result<Counts, AllocError>
    requires goes { end_of engine.old.course ≡ None }
    ensures told { IfOk result (λ n. (step : State G.Kept G.Entry → Outcome (State G.Kept G.Entry)) (r : Run (State G.Kept G.Entry))
        → IsAt (end_of engine.old.course) (Stands (G.kept engine.old.guard) (G.entry engine.old.guard) engine.old.course)
        (steps (G.rules engine.old.guard) engine.old.course) step r
        → n ≡ counted counts (told_by (step r.state))) }
    ensures stands { IfOk result (λ n. (step : State G.Kept G.Entry → Outcome (State G.Kept G.Entry)) (r : Run (State G.Kept G.Entry))
        → IsAt (end_of engine.old.course) (Stands (G.kept engine.old.guard) (G.entry engine.old.guard) engine.old.course)
        (steps (G.rules engine.old.guard) engine.old.course) step r
        → IsAt (end_of engine.new.course) (Stands (G.kept engine.new.guard) (G.entry engine.new.guard) engine.new.course)
        (steps (G.rules engine.new.guard) engine.new.course) step (next step r)) }
{
    let came = engine.step(alloc)?;
    with_told(counts, &came)
}

/// How a run ended, or that it has not.
fn ending<G: Guard + Drop>(engine: &Engine<'_, '_, G>) -> End
    ensures { result ≡ unwrap_or (end_of engine.now.course) Bound }
{
    match engine.ended() {
        Some(end) => end,
        None => End::Bound,
    }
}

/// At most so many steps of a run, counted.
fn count_all<G: Guard + Drop>(
    alloc: Global,
    engine: &mut Engine<'_, '_, G>,
    most: u64,
) -> Result<Tally, AllocError>
    ensures { IfOk result
        (λ t. (step : State G.Kept G.Entry → Outcome (State G.Kept G.Entry)) (first : Run (State G.Kept G.Entry)) → first.events ≡ []
        → IsAt (end_of engine.old.course) (Stands (G.kept engine.old.guard) (G.entry engine.old.guard) engine.old.course)
        (steps (G.rules engine.old.guard) engine.old.course) step first
        → t ≡ tally_of (run_from step most first)) }
{
    tally_laws();
    let mut counts = Counts::none();
    let mut made = 0u64;
    while made < most {
        match engine.ended() {
            Some(end) => return Ok(Tally { counts, end }),
            None => {}
        }
        counts = count_step(alloc, engine, counts)?;
        made += 1;
    }
    let end = ending(engine);
    Ok(Tally { counts, end })
}

/// Counts a run by what stands as long as the program runs, as `count` does.
fn count_on<'p, G: Guard + Drop>(
    alloc: Global,
    base: &EngineTables<'p, G::Mark>,
    program: &'p LinkedProgram,
    plan: &Plan,
    guard: G,
) -> Result<Tally, AllocError>
    requires base { IsGround program.now G.mark base.now }
    requires typed { WellTyped program.now }
    requires main { IsMain program.now plan.now.main }
    requires side { (G.rules guard).side ≡ program.now.side }
    requires sided { AreSided (G.rules guard) }
    ensures { IfOk result (λ t. t ≡ tally_of (run (G.rules guard) program.now plan.now plan.now.steps)) }
{
    let mut engine = Engine::open(alloc, base, program, plan, guard)?;
    let told = count_all(alloc, &mut engine, plan.steps);
    drop(engine);
    told
}

/// Runs a program for at most so many steps as its plan has, as `run` does, and counts what happens. Want of memory may come at any time.
pub fn count<G: Guard + Drop>(
    alloc: Global,
    program: &LinkedProgram,
    plan: &Plan,
    guard: G,
) -> Result<Tally, AllocError>
    requires typed { WellTyped program.now }
    requires main { IsMain program.now plan.now.main }
    requires side { (G.rules guard).side ≡ program.now.side }
    requires sided { AreSided (G.rules guard) }
    ensures { IfOk result (λ t. t ≡ tally_of (run (G.rules guard) program.now plan.now plan.now.steps)) }
{
    let base = EngineTables::of(alloc, program, &guard)?;
    let told = count_on(alloc, &base, program, plan, guard);
    drop(base);
    told
}
