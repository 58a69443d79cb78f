ghost use Rattle.std.specs.Prelude.{◌≡◌, ◌≤◌, ◌<◌, ℕ, None, IfOk, OnOk, OnErr};
ghost use Rattle.jground.specs.jbase.FaultCauses.{Rose, HasCause, appended, IsCut};
ghost use Rattle.joutput.specs.declared.jtrace.fault.RunFault.TheVariants.{Sink as SinkFault};
ghost use Rattle.joutput.specs.jtrace.TraceLines.{end_line, lines};
ghost use Rattle.jsemantics.specs.jmachine.RunTraces.{Run, ending, run_from, run_text};
ghost use Rattle.jruntime.specs.jrun.StepOutcomes.{Begins};
ghost use Rattle.jruntime.specs.jrun.RunSegments.{Advances, end_by, run_at, told_in};

use crate::jrun::stepping::{Stepped, Stepping};
use crate::jrun::writing::{put_end, put_events};
use joutput::jio::Sink;
use joutput::jtrace::{End, RunFault};
use std::alloc::Global;

/// Writes the lines of what a step told. It answers the end, if the step ended the run.
fn tell<K: Sink>(out: &mut K, came: Stepped) -> Result<Option<End>, RunFault>
    ensures end { IfOk result (λ end. end ≡ end_by came) }
    ensures ok { OnOk result (K.out out.new ≡ appended (K.out out.old) (lines (told_in came))) }
    ensures err { OnErr result (IsCut (K.out out.old) (K.out out.new) (lines (told_in came))) }
    ensures later { K.faults out.old ≤ K.faults out.new }
    ensures cause { result ≡ Err SinkFault → Rose (K.faults out.old) (K.faults out.new) }
{
    match came {
        Stepped::Went { events } => {
            put_events(out, events.as_slice())?;
            Ok(None)
        }
        Stepped::Ended { events, end } => {
            put_events(out, events.as_slice())?;
            Ok(Some(end))
        }
    }
}

/// How many steps were made, and the end, if the last of them ended the run.
#[derive(Clone, Copy)]
struct Written {
    steps: u64,
    end: Option<End>,
}

/// Some steps, at least one and at most so many, and the lines of what they told.
fn advance<E: Stepping, K: Sink>(
    alloc: Global,
    engine: &mut E,
    out: &mut K,
    most: u64,
) -> Result<Written, RunFault>
    requires ready { E.ready engine.old }
    requires some { 0 < most }
    ensures few { IfOk result (λ done. (0 < done.steps) × (done.steps ≤ most)) }
    ensures steps { IfOk result (λ done. (s : E.State) → E.stands engine.old s → Advances (E.stands engine.new) (E.steps engine.old) s done) }
    ensures ok { IfOk result (λ done. (s : E.State) → E.stands engine.old s
        → K.out out.new ≡ appended (K.out out.old) (lines (run_from (E.steps engine.old) done.steps (run_at s)).events)) }
    ensures err { OnErr result ((s : E.State) → E.stands engine.old s
        → (n : ℕ) × (n ≤ most) × IsCut (K.out out.old) (K.out out.new) (lines (run_from (E.steps engine.old) n (run_at s)).events)) }
    ensures ready { IfOk result (λ done. done.end ≡ None → E.ready engine.new) }
    ensures same { OnOk result (E.steps engine.new ≡ E.steps engine.old) }
    ensures later { K.faults out.old ≤ K.faults out.new }
    ensures cause { result ≡ Err SinkFault → Rose (K.faults out.old) (K.faults out.new) }
{
    let made = engine.go(alloc, most)?;
    let quiet = made.quiet;
    match made.last {
        None => Ok(Written {
            steps: quiet,
            end: None,
        }),
        Some(came) => {
            let end = tell(out, came)?;
            Ok(Written {
                steps: quiet + 1,
                end,
            })
        }
    }
}

/// Writes the line of the end of a run that told nothing, and answers the end. At a fault a front of it went out.
/// `RunFault::Sink` is answered only where the sink counted a fault in this call.
pub fn close<K: Sink>(out: &mut K, end: End) -> Result<End, RunFault>
    ensures end { IfOk result (λ e. e ≡ end) }
    ensures ok { OnOk result (K.out out.new ≡ appended (K.out out.old) (end_line end)) }
    ensures err { OnErr result (IsCut (K.out out.old) (K.out out.new) (end_line end)) }
    ensures later { K.faults out.old ≤ K.faults out.new }
    ensures cause { result ≡ Err SinkFault → Rose (K.faults out.old) (K.faults out.new) }
{
    put_end(out, end)
}

/// Runs a machine for at most so many steps, and writes a line for each event and one for the end. The end is `Bound` where the run has not
/// ended within these steps. At a fault a front of the text went out. `RunFault::Sink` is answered only where the sink counted a fault in
/// this call; want of memory may come at any time.
pub fn run<E: Stepping, K: Sink>(
    alloc: Global,
    engine: &mut E,
    steps: u64,
    out: &mut K,
) -> Result<End, RunFault>
    requires { E.ready engine.old }
    ensures written { OnOk result ((first : Run E.State) → Begins (E.stands engine.old) first
        → K.out out.new ≡ appended (K.out out.old) (run_text (run_from (E.steps engine.old) steps first))) }
    ensures end { IfOk result
        (λ end. (first : Run E.State) → Begins (E.stands engine.old) first → end ≡ ending (run_from (E.steps engine.old) steps first)) }
    ensures cut { OnErr result ((first : Run E.State) → Begins (E.stands engine.old) first
        → IsCut (K.out out.old) (K.out out.new) (run_text (run_from (E.steps engine.old) steps first))) }
    ensures later { K.faults out.old ≤ K.faults out.new }
    ensures cause { result ≡ Err SinkFault → Rose (K.faults out.old) (K.faults out.new) }
{
    let mut made = 0u64;
    while made < steps {
        let done = advance(alloc, engine, out, steps - made)?;
        made += done.steps;
        match done.end {
            Some(end) => return put_end(out, end),
            None => {}
        }
    }
    put_end(out, End::Bound)
}
