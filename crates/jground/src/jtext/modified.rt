ghost use Rattle.std.specs.Prelude.{◌≡◌, ◌≤◌, ◌<◌, ◌+◌, ◌/◌, ◌%◌, ◌++◌, ◌∷◌, [], ◌&&◌, true, IfOk, OnOk, IsTrue, List, ℕ, Ok, Err, length, nat_le, nat_lt};
ghost use Rattle.std.specs.List.{flat_map, list_all};
ghost use Rattle.jground.specs.jbase.MemoryFailures.{Gives};
ghost use Rattle.jground.specs.jformat.FaultOffsets.{GivesAt};
ghost use Rattle.jground.specs.jtext.Modified.{group, goes_on, text, three, three_at, two, two_at, unit, unit_at};

use crate::jbase::{FaultOrMemory, Seq};
use crate::jformat::{At, ReadError, Reader, Writer, fault, many_of, put_each, put_u8, stop_at};
use crate::jtext::units::Units;
use std::alloc::{AllocError, Global};

/// Why bytes gave no text: no unit's group stands at the offset `at`, where the groups before it end, or no memory was left,
/// which may come at any time, and comes where the offset has more than 32 bits.
pub type TextError = FaultOrMemory<At<()>>;

fn goes_on(b: u8) -> bool
    ensures { result ≡ goes_on b }
{
    0x80 <= b && b < 0xc0
}

fn stands_alone(a: u8) -> bool
    ensures { result ≡ (nat_lt 0 a && nat_lt a 0x80) }
{
    0 < a && a < 0x80
}

fn begins_two(a: u8) -> bool
    ensures { result ≡ (nat_le 0xc0 a && nat_lt a 0xe0) }
{
    0xc0 <= a && a < 0xe0
}

fn begins_three(a: u8) -> bool
    ensures { result ≡ (nat_le 0xe0 a && nat_lt a 0xf0) }
{
    0xe0 <= a && a < 0xf0
}

fn two(a: u8, b: u8) -> u16
    requires first { IsTrue (nat_le 0xc0 a && nat_lt a 0xe0) }
    requires second { IsTrue (goes_on b) }
    ensures { result ≡ two a b }
{
    (u16::from(a) - 0xc0) * 0x40 + (u16::from(b) - 0x80)
}

fn three(a: u8, b: u8, c: u8) -> u16
    requires first { IsTrue (nat_le 0xe0 a && nat_lt a 0xf0) }
    requires second { IsTrue (goes_on b) }
    requires third { IsTrue (goes_on c) }
    ensures { result ≡ three a b c }
{
    (u16::from(a) - 0xe0) * 0x1000 + (u16::from(b) - 0x80) * 0x40 + (u16::from(c) - 0x80)
}

fn pair_of<'a>(bytes: &'a [u8], a: u8, rest: &'a [u8]) -> Result<(u16, &'a [u8]), ReadError<()>>
    requires { IsTrue (nat_le 0xc0 a && nat_lt a 0xe0) }
    ensures { Gives (λ x. (x.0, x.1.now)) result (two_at bytes.now a rest.now) }
{
    match rest {
        [] => Err(fault((), bytes)),
        [b, after @ ..] => {
            if !goes_on(*b) {
                return Err(fault((), bytes));
            }
            let unit = two(a, *b);
            if unit == 0 || 0x80 <= unit {
                return Ok((unit, after));
            }
            Err(fault((), bytes))
        }
    }
}

fn triple_of<'a>(bytes: &'a [u8], a: u8, rest: &'a [u8]) -> Result<(u16, &'a [u8]), ReadError<()>>
    requires { IsTrue (nat_le 0xe0 a && nat_lt a 0xf0) }
    ensures { Gives (λ x. (x.0, x.1.now)) result (three_at bytes.now a rest.now) }
{
    match rest {
        [] | [_] => Err(fault((), bytes)),
        [b, c, after @ ..] => {
            if !goes_on(*b) {
                return Err(fault((), bytes));
            }
            if !goes_on(*c) {
                return Err(fault((), bytes));
            }
            let unit = three(a, *b, *c);
            if 0x800 <= unit {
                return Ok((unit, after));
            }
            Err(fault((), bytes))
        }
    }
}

fn unit_of(bytes: &[u8]) -> Result<(u16, &[u8]), ReadError<()>>
    ensures { Gives (λ x. (x.0, x.1.now)) result (unit_at bytes.now) }
{
    match bytes {
        [] => Err(fault((), bytes)),
        [a, rest @ ..] => {
            if stands_alone(*a) {
                return Ok((u16::from(*a), rest));
            }
            if begins_two(*a) {
                return pair_of(bytes, *a, rest);
            }
            if begins_three(*a) {
                return triple_of(bytes, *a, rest);
            }
            Err(fault((), bytes))
        }
    }
}

struct UnitReader;

impl Reader for UnitReader {
    type Kind = ();

    type Item = u16;

    ghost reads = { λ _. unit_at };

    fn read<'a>(&self, _alloc: Global, bytes: &'a [u8]) -> Result<(u16, &'a [u8]), ReadError<()>> {
        unit_of(bytes)
    }
}

/// The text that bytes spell in modified UTF-8 (JVMS 4.4.7). A surrogate stands as a group of its own.
pub fn units_of(alloc: Global, bytes: &[u8]) -> Result<Units, TextError>
    // What is read is spelled so.
    ensures found { IfOk result (λ u. bytes.now ≡ flat_map group u) }
    // What is spelled so is read, unless memory runs out.
    ensures only { (u : List ℕ) → IsTrue (list_all (λ n. nat_lt n 0x1_0000) u) → bytes.now ≡ flat_map group u
        → GivesAt (λ v. v) bytes.now result (Ok u) }
    // Which fault it is: the first byte of the first bad group.
    ensures exact { GivesAt (λ u. u) bytes.now result (text.read bytes.now) }
{
    match many_of(alloc, &UnitReader, (), bytes) {
        Ok(units) => Ok(Units::from_vec(units.into_vec())),
        Err(stop) => Err(stop_at(bytes, stop)),
    }
}

fn put_pair(unit: u16, out: &mut Seq<u8>) -> Result<(), AllocError>
    requires { unit < 0x800 }
    ensures { OnOk result (out.new ≡ out.old ++ (0xc0 + unit / 0x40) ∷ (0x80 + unit % 0x40) ∷ []) }
{
    put_u8((0xc0 + unit / 0x40) as u8, out)?;
    put_u8((0x80 + unit % 0x40) as u8, out)
}

fn put_triple(unit: u16, out: &mut Seq<u8>) -> Result<(), AllocError>
    ensures { OnOk result (out.new ≡ out.old ++ (0xe0 + unit / 0x1000) ∷ (0x80 + unit / 0x40 % 0x40) ∷ (0x80 + unit % 0x40) ∷ []) }
{
    put_u8((0xe0 + unit / 0x1000) as u8, out)?;
    put_u8((0x80 + unit / 0x40 % 0x40) as u8, out)?;
    put_u8((0x80 + unit % 0x40) as u8, out)
}

fn put_unit(unit: u16, out: &mut Seq<u8>) -> Result<(), AllocError>
    ensures { OnOk result (out.new ≡ out.old ++ group unit) }
{
    if unit == 0 {
        return put_pair(0, out);
    }
    if unit < 0x80 {
        return put_u8(unit as u8, out);
    }
    if unit < 0x800 {
        return put_pair(unit, out);
    }
    put_triple(unit, out)
}

struct UnitWriter;

impl Writer for UnitWriter {
    type Item = u16;

    ghost spells = { λ _. group };

    ghost fits = { λ _ _. true };

    fn write(&self, _alloc: Global, unit: &u16, out: &mut Seq<u8>) -> Result<(), AllocError> {
        put_unit(*unit, out)
    }
}

/// The bytes of a text in modified UTF-8 (JVMS 4.4.7).
pub fn bytes_of(alloc: Global, units: &Units) -> Result<Vec<u8>, AllocError>
    ensures { IfOk result (λ bytes. bytes.items ≡ flat_map group units.now) }
{
    let mut out = Seq::new(alloc);
    put_each(alloc, &UnitWriter, units.as_slice(), &mut out)?;
    Ok(out.into_vec())
}

/// No two texts share a spelling.
pub fn spelling_law()
    ensures one { (u v : List ℕ) → IsTrue (list_all (λ n. nat_lt n 0x1_0000) u) → IsTrue (list_all (λ n. nat_lt n 0x1_0000) v)
        → flat_map group u ≡ flat_map group v → u ≡ v }
{}
