ghost use Rattle.std.specs.Prelude.{◌≡◌, ◌≤◌, IfOk, OnOk, OnErr};
ghost use Rattle.jground.specs.jbase.FaultCauses.{Rose, HasCause, appended, IsCut};
ghost use Rattle.joutput.specs.declared.jtrace.fault.RunFault.TheVariants.{Sink as SinkFault};
ghost use Rattle.joutput.specs.jtrace.TraceLines.{line, lines, end_line};

use joutput::jio::Sink;
use joutput::jtrace::{End, Event, RunFault, write_end, write_event};

/// Writes the line of an event. Where its text has more than 4,294,967,295 units, the answer is that no memory was left.
fn put_event<K: Sink>(out: &mut K, event: &Event) -> Result<(), RunFault>
    ensures ok { OnOk result (K.out out.new ≡ appended (K.out out.old) (line event.now)) }
    ensures err { OnErr result (IsCut (K.out out.old) (K.out out.new) (line event.now)) }
    ensures later { K.faults out.old ≤ K.faults out.new }
    ensures cause { result ≡ Err SinkFault → Rose (K.faults out.old) (K.faults out.new) }
{
    if !event.is_short() {
        return Err(RunFault::Memory);
    }
    write_event(out, event)?;
    Ok(())
}

/// Writes the lines of events.
pub fn put_events<K: Sink>(out: &mut K, events: &[Event]) -> Result<(), RunFault>
    ensures ok { OnOk result (K.out out.new ≡ appended (K.out out.old) (lines events.now)) }
    ensures err { OnErr result (IsCut (K.out out.old) (K.out out.new) (lines events.now)) }
    ensures later { K.faults out.old ≤ K.faults out.new }
    ensures cause { result ≡ Err SinkFault → Rose (K.faults out.old) (K.faults out.new) }
{
    for event in events {
        put_event(out, event)?;
    }
    Ok(())
}

/// Writes the line of the end.
pub fn put_end<K: Sink>(out: &mut K, end: End) -> Result<End, RunFault>
    ensures end { IfOk result (λ e. e ≡ end) }
    ensures ok { OnOk result (K.out out.new ≡ appended (K.out out.old) (end_line end)) }
    ensures err { OnErr result (IsCut (K.out out.old) (K.out out.new) (end_line end)) }
    ensures later { K.faults out.old ≤ K.faults out.new }
    ensures cause { result ≡ Err SinkFault → Rose (K.faults out.old) (K.faults out.new) }
{
    write_end(out, end)?;
    Ok(end)
}
