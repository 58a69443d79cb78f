ghost use Rattle.std.specs.Prelude.{◌≡◌, ◌+◌, ◌*◌, ◌<◌, ◌≤◌, ◌^◌, ℕ, [], ◌∷◌, ◌++◌, List, Option, IfErr, OnOk, length, take, decimal, false};
ghost use Rattle.std.specs.Fmt.{digit_glyph};
ghost use Rattle.jground.specs.jbase.FaultCauses.{HasCause, appended};
ghost use Rattle.joutput.specs.jio.PartialOutput.{IsCutAt};
ghost use Rattle.joutput.specs.jio.TextOutput.{written, written_unit, IsUnderWay, Goes, Breaks, BreaksAtEnd};

use crate::jio::PIECE;
use crate::jio::sink::{PutFault, Sink, put_all};
use std::marker::Model;

/// A line that goes out in pieces of `PIECE` bytes, the last of which may be shorter, so that a line of at most that many
/// bytes is one piece. It holds what has not gone out yet, without memory. All calls are given the same sink. A fault
/// counts the bytes of the line that have gone out; behind it the line isn't used again. Condition of each call: a `usize`
/// can count the line's bytes.
#[derive(Drop)]
pub struct Line {
    buffer: [u8; PIECE],
    filled: usize,
    written: usize,
}

impl Model for Line {
    ghost use Rattle.std.specs.Prelude.{◌+◌, ◌<◌, ◌^◌, take};
    ghost use Rattle.joutput.specs.jio.TextOutput.{LineState, piece};

    ghost Value = { LineState };

    ghost view = { λ l. record { written = l.written; pending = take l.filled l.buffer } };

    ghost invariant = { λ l. (l.filled < piece) × (l.written + l.filled < 2 ^ 64) };
}

fn hex_digit(value: u16) -> u8
    requires { value < 16 }
    ensures { result ≡ digit_glyph false value }
{
    if value < 10 {
        b'0' + value as u8
    } else {
        b'a' + (value as u8 - 10)
    }
}

impl Line {
    /// A line without bytes so far.
    pub fn new() -> Line
        ensures empty { (start : Option (List ℕ)) → IsUnderWay start start result [] }
        ensures room { result.written + length result.pending ≡ 0 }
    {
        Line {
            buffer: [0; PIECE],
            filled: 0,
            written: 0,
        }
    }

    fn byte<K: Sink>(&mut self, out: &mut K, byte: u8) -> Result<(), PutFault>
        requires { self.old.written + length self.old.pending + 1 < 2 ^ 64 }
        ensures ok { OnOk result (Goes (K.out out.old) (K.out out.new) self.old self.new (byte ∷ [])) }
        ensures err { Breaks (K.out out.old) (K.out out.new) self.old (byte ∷ []) result }
        ensures cause { HasCause (K.faults out.old) (K.faults out.new) result }
        ensures room { OnOk result (self.new.written + length self.new.pending ≤ self.old.written + length self.old.pending + 1) }
    {
        self.buffer[self.filled] = byte;
        if self.filled + 1 < PIECE {
            self.filled += 1;
            return Ok(());
        }
        match put_all(out, &self.buffer) {
            Ok(()) => {
                self.written += PIECE;
                self.filled = 0;
                Ok(())
            }
            Err(fault) => Err(PutFault {
                written: self.written + fault.written,
            }),
        }
    }

    /// Puts these bytes behind the line's.
    pub fn bytes<K: Sink>(&mut self, out: &mut K, bytes: &[u8]) -> Result<(), PutFault>
        requires { self.old.written + length self.old.pending + length bytes.now < 2 ^ 64 }
        ensures ok { OnOk result (Goes (K.out out.old) (K.out out.new) self.old self.new bytes.now) }
        ensures err { Breaks (K.out out.old) (K.out out.new) self.old bytes.now result }
        ensures cause { HasCause (K.faults out.old) (K.faults out.new) result }
        ensures room { OnOk result (self.new.written + length self.new.pending ≤ self.old.written + length self.old.pending + length bytes.now) }
    {
        for byte in bytes {
            self.byte(out, *byte)?;
        }
        Ok(())
    }

    fn unit<K: Sink>(&mut self, out: &mut K, unit: u16) -> Result<(), PutFault>
        requires { self.old.written + length self.old.pending + 6 < 2 ^ 64 }
        ensures ok { OnOk result (Goes (K.out out.old) (K.out out.new) self.old self.new (written_unit unit)) }
        ensures err { Breaks (K.out out.old) (K.out out.new) self.old (written_unit unit) result }
        ensures cause { HasCause (K.faults out.old) (K.faults out.new) result }
        ensures room { OnOk result (self.new.written + length self.new.pending ≤ self.old.written + length self.old.pending + 6) }
    {
        if unit == 0x5c {
            return self.bytes(out, b"\\\\");
        }
        if 0x20 <= unit && unit <= 0x7e {
            return self.bytes(out, &[unit as u8]);
        }
        let first = hex_digit(unit / 4096);
        let second = hex_digit(unit / 256 % 16);
        let third = hex_digit(unit / 16 % 16);
        let fourth = hex_digit(unit % 16);
        self.bytes(out, &[b'\\', b'u', first, second, third, fourth])
    }

    /// Puts a text behind the line's bytes, as texts are written in lines.
    pub fn text<K: Sink>(&mut self, out: &mut K, units: &[u16]) -> Result<(), PutFault>
        requires { self.old.written + length self.old.pending + 6 * length units.now < 2 ^ 64 }
        ensures ok { OnOk result (Goes (K.out out.old) (K.out out.new) self.old self.new (written units.now)) }
        ensures err { Breaks (K.out out.old) (K.out out.new) self.old (written units.now) result }
        ensures cause { HasCause (K.faults out.old) (K.faults out.new) result }
        ensures room { OnOk result (self.new.written + length self.new.pending ≤ self.old.written + length self.old.pending + 6 * length units.now) }
    {
        for unit in units {
            self.unit(out, *unit)?;
        }
        Ok(())
    }

    /// Puts a number's decimal digits behind the line's bytes.
    pub fn number<K: Sink>(&mut self, out: &mut K, number: u64) -> Result<(), PutFault>
        requires { self.old.written + length self.old.pending + 20 < 2 ^ 64 }
        ensures ok { OnOk result (Goes (K.out out.old) (K.out out.new) self.old self.new (decimal number)) }
        ensures err { Breaks (K.out out.old) (K.out out.new) self.old (decimal number) result }
        ensures cause { HasCause (K.faults out.old) (K.faults out.new) result }
        ensures room { OnOk result (self.new.written + length self.new.pending ≤ self.old.written + length self.old.pending + 20) }
    {
        let mut digits = itoa::Buffer::new();
        self.bytes(out, digits.format(number).as_bytes())
    }

    /// Ends the line: puts what is pending.
    pub fn end<K: Sink>(self, out: &mut K) -> Result<(), PutFault>
        ensures ok { (start : Option (List ℕ)) (text : List ℕ) → IsUnderWay start (K.out out.old) self text
            → OnOk result (K.out out.new ≡ appended start text) }
        ensures err { BreaksAtEnd (K.out out.old) (K.out out.new) self result }
        ensures cause { HasCause (K.faults out.old) (K.faults out.new) result }
    {
        match put_all(out, &self.buffer[..self.filled]) {
            Ok(()) => Ok(()),
            Err(fault) => Err(PutFault {
                written: self.written + fault.written,
            }),
        }
    }
}

/// Writes a text as texts are written in lines, in pieces and without memory: printable units of ASCII stand for
/// themselves, but a backslash is written twice; each other unit is `\u` and four lower-case hexadecimal digits. At a fault
/// exactly the first `written` bytes of that went out. Condition: a `usize` can count the bytes.
pub fn write_line_text<K: Sink>(out: &mut K, units: &[u16]) -> Result<(), PutFault>
    requires { 6 * length units.now < 2 ^ 64 }
    ensures ok { OnOk result (K.out out.new ≡ appended (K.out out.old) (written units.now)) }
    ensures err { IfErr result (λ e. IsCutAt (K.out out.old) (K.out out.new) (written units.now) e.written) }
    ensures cause { HasCause (K.faults out.old) (K.faults out.new) result }
{
    let mut line = Line::new();
    line.text(out, units)?;
    line.end(out)
}
