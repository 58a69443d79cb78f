ghost use Rattle.std.specs.Prelude.{◌≡◌, ◌≤◌, ◌<◌, ◌∷◌, ◌++◌, [], IfErr, OnOk, length};
ghost use Rattle.jground.specs.jbase.FaultCauses.{HasCause, appended};
ghost use Rattle.joutput.specs.jio.PartialOutput.{IsCutAt};
ghost use Rattle.joutput.specs.jtrace.TraceLines.{end_line};
ghost use Rattle.joutput.specs.ProofNames.{line_feed};
ghost use Rattle.joutput.specs.jtally.LineTallies.{tally_line};

use crate::jio::{Part, PutFault, Sink, write_line};
use crate::jtally::counts::Tally;
use crate::jtrace::End;

/// The line of an end, without its line feed.
#[tactic(auto, unfolding(crate::specs::jtrace::TraceLines::end_line))]
fn end_word(end: End) -> &'static str
    ensures line { result.now ++ line_feed ≡ end_line end }
    ensures short { length result.now < 100 }
{
    match end {
        End::Finished => "end finished",
        End::Uncaught => "end uncaught",
        End::Deadlock => "end deadlock",
        End::HeapFull => "end heap",
        End::Bound => "end bound",
    }
}

/// Writes the line of a tally, behind a word of fewer than 100 bytes, without memory. At a fault exactly the line's first `written` bytes went
/// out.
pub fn put_tally<K: Sink>(out: &mut K, word: &str, tally: Tally) -> Result<(), PutFault>
    requires { length word.now < 100 }
    ensures ok { OnOk result (K.out out.new ≡ appended (K.out out.old) (tally_line word.now tally)) }
    ensures err { IfErr result (λ e. IsCutAt (K.out out.old) (K.out out.new) (tally_line word.now tally) e.written) }
    ensures cause { HasCause (K.faults out.old) (K.faults out.new) result }
{
    let counts = tally.counts;
    let parts = [
        Part::Plain(word),
        Part::Plain(" grant "),
        Part::Number(counts.grants),
        Part::Plain(" deny "),
        Part::Number(counts.denials),
        Part::Plain(" throw "),
        Part::Number(counts.throws),
        Part::Plain(" out "),
        Part::Number(counts.outs),
        Part::Plain(" "),
        Part::Plain(end_word(tally.end)),
    ];
    write_line(out, &parts)
}
