ghost use Rattle.std.specs.Prelude.{◌≡◌, ℕ, ◌+◌, ◌<◌, ◌≤◌, ◌^◌, ◌++◌, List, Option, length, IfErr, OnOk};
ghost use Rattle.jground.specs.jbase.FaultCauses.{HasCause, appended};
ghost use Rattle.joutput.specs.jio.PartialOutput.{IsCutAt};
ghost use Rattle.joutput.specs.jio.LineParts.{part_of, part_room, line_of, room_of};
ghost use Rattle.joutput.specs.jio.TextOutput.{Goes, Breaks};

use crate::jio::lines::Line;
use crate::jio::sink::{PutFault, Sink};

/// A part of a line. A function that is lent texts for several parts of one line names one lifetime for them.
#[derive(Clone, Copy)]
pub enum Part<'a> {
    /// These bytes as they are.
    Plain(&'a str),
    /// A text of UTF-16 units, as texts are written in lines.
    Text(&'a [u16]),
    /// A number's decimal digits.
    Number(u64),
}

fn put_part<K: Sink>(line: &mut Line, out: &mut K, part: Part<'_>) -> Result<(), PutFault>
    requires { line.old.written + length line.old.pending + part_room part < 2 ^ 64 }
    ensures ok { OnOk result (Goes (K.out out.old) (K.out out.new) line.old line.new (part_of part.entry)) }
    ensures err { Breaks (K.out out.old) (K.out out.new) line.old (part_of part.entry) result }
    ensures cause { HasCause (K.faults out.old) (K.faults out.new) result }
    ensures room { OnOk result (line.new.written + length line.new.pending ≤ line.old.written + length line.old.pending + part_room part.entry) }
{
    match part {
        Part::Plain(text) => line.bytes(out, text.as_bytes()),
        Part::Text(units) => line.text(out, units),
        Part::Number(number) => line.number(out, number),
    }
}

/// Writes a line: its parts one behind the other, and a line feed. It goes out in pieces of `PIECE` bytes, the last of
/// which may be shorter, without memory. Condition: a `usize` can count the line's bytes.
pub fn write_line<K: Sink>(out: &mut K, parts: &[Part<'_>]) -> Result<(), PutFault>
    requires { room_of parts.now < 2 ^ 64 }
    ensures ok { OnOk result (K.out out.new ≡ appended (K.out out.old) (line_of parts.now)) }
    ensures err { IfErr result (λ e. IsCutAt (K.out out.old) (K.out out.new) (line_of parts.now) e.written) }
    ensures cause { HasCause (K.faults out.old) (K.faults out.new) result }
{
    let mut line = Line::new();
    for part in parts {
        put_part(&mut line, out, *part)?;
    }
    line.bytes(out, b"\n")?;
    line.end(out)
}
