ghost use Rattle.std.specs.Prelude.{◌≡◌, List};
ghost use Rattle.joutput.specs.declared.jtrace.event.Event.{Event};
ghost use Rattle.joutput.specs.declared.jtrace.event.End.{End};
ghost use Rattle.joutput.specs.jtrace.TraceLines.{text};
ghost use Rattle.joutput.specs.jtally.LineTallies.{counts_in};
ghost use Rattle.joutput.specs.jtally.EventCounts.{counted, none};

/// The lines of the text of a run are as many of each kind as its events.
pub fn tally_laws()
    ensures counts { (events : List Event) (end : End) → counts_in (text events end) ≡ counted none events }
{}
