ghost use Rattle.std.specs.Prelude.{◌≡◌, None};
ghost use Rattle.jground.specs.jbase.MemoryFailures.{Gives};
ghost use Rattle.jparts.specs.jcode.OperandFormats.{array_type, bounded, case_behind, case_count, falls, i4, interface_call};
ghost use Rattle.jparts.specs.ProofNames.{bounds, span};
ghost use Rattle.jparts.specs.jcode.OperandFormats.{key_of, lookup_switch, nil, nils, padding, table_switch, wide};

use crate::jcode::fault::CodeFault;
use crate::jcode::fault::CodeFault::{BadOperand, Truncated};
use crate::jcode::names::{Access, ArrayType, LocalKind};
use crate::jcode::op::{Case, LookupSwitch, TableSwitch, Wide};
use jground::jbase::Seq;
use jground::jformat::{
    ReadError, Reader, StateReader, fault, i16_of, i32_of, times_by_of, times_of, u8_of, u16_of,
    u32_of,
};
use std::alloc::Global;

fn nil_of(bytes: &[u8]) -> Result<&[u8], ReadError<CodeFault>>
    ensures { Gives (λ x. (tt, x.now)) result (nil.read bytes.now) }
{
    let (n, rest) = u8_of(Truncated, bytes)?;
    if n == 0 {
        return Ok(rest);
    }
    Err(fault(BadOperand, bytes))
}

/// What lies behind the zero bytes that fill up a switch's opcode at a place to a multiple of four.
#[tactic(auto, unfolding(crate::specs::jcode::OperandFormats::nils))]
pub fn padding_of(at: u32, bytes: &[u8]) -> Result<&[u8], ReadError<CodeFault>>
    ensures { Gives (λ x. (tt, x.now)) result ((padding at).read bytes.now) }
{
    match 3 - at % 4 {
        0 => Ok(bytes),
        1 => nil_of(bytes),
        2 => {
            let rest = nil_of(bytes)?;
            nil_of(rest)
        }
        _ => {
            let rest = nil_of(bytes)?;
            let rest = nil_of(rest)?;
            nil_of(rest)
        }
    }
}

fn bounds_of(bytes: &[u8]) -> Result<((i32, i32), &[u8]), ReadError<CodeFault>>
    ensures { Gives (λ x. (x.0, x.1.now)) result (bounds.read bytes.now) }
{
    let (low, rest) = i32_of(Truncated, bytes)?;
    let (high, rest) = i32_of(Truncated, rest)?;
    if high < low {
        return Err(fault(BadOperand, bytes));
    }
    Ok(((low, high), rest))
}

/// How many ints there are from the least to the greatest.
pub fn span_of(low: i32, high: i32) -> usize
    ensures { result ≡ span low high }
{
    (i64::from(high) - i64::from(low)).unsigned_abs() as usize + 1
}

struct Branches;

impl Reader for Branches {
    type Kind = CodeFault;

    type Item = i32;

    ghost reads = { λ _. i4.read };

    fn read<'a>(
        &self,
        _alloc: Global,
        bytes: &'a [u8],
    ) -> Result<(i32, &'a [u8]), ReadError<CodeFault>> {
        i32_of(Truncated, bytes)
    }
}

/// The least and the greatest int of a table, and its branches.
#[tactic(auto, unfolding(crate::specs::jcode::OperandFormats::bounded))]
fn bounded_of(
    alloc: Global,
    bytes: &[u8],
) -> Result<(((i32, i32), Seq<i32>), &[u8]), ReadError<CodeFault>>
    ensures { Gives (λ x. (x.0, x.1.now)) result (bounded.read bytes.now) }
{
    let ((low, high), rest) = bounds_of(bytes)?;
    let (branches, rest) = times_of(alloc, &Branches, span_of(low, high), rest)?;
    Ok((((low, high), branches), rest))
}

/// The operands of a tableswitch at a place.
#[tactic(auto, unfolding(crate::specs::jcode::OperandFormats::table_switch))]
pub fn table_switch_of(
    alloc: Global,
    at: u32,
    bytes: &[u8],
) -> Result<(TableSwitch, &[u8]), ReadError<CodeFault>>
    ensures { Gives (λ x. (x.0, x.1.now)) result ((table_switch at).read bytes.now) }
{
    let rest = padding_of(at, bytes)?;
    let (default, rest) = i32_of(Truncated, rest)?;
    let (((low, high), branches), rest) = bounded_of(alloc, rest)?;
    Ok((
        TableSwitch {
            default,
            low,
            high,
            branches,
        },
        rest,
    ))
}

fn count_of(bytes: &[u8]) -> Result<(u32, &[u8]), ReadError<CodeFault>>
    ensures { Gives (λ x. (x.0, x.1.now)) result (case_count.read bytes.now) }
{
    let (count, rest) = u32_of(Truncated, bytes)?;
    if count >= 0x8000_0000 {
        return Err(fault(BadOperand, bytes));
    }
    Ok((count, rest))
}

fn key_falls(before: Option<i32>, key: i32) -> Option<CodeFault>
    ensures { result ≡ falls before key }
{
    match before {
        None => None,
        Some(least) => {
            if least < key {
                return None;
            }
            Some(BadOperand)
        }
    }
}

fn case_of(before: Option<i32>, bytes: &[u8]) -> Result<(Case, &[u8]), ReadError<CodeFault>>
    ensures { Gives (λ x. (x.0, x.1.now)) result ((case_behind before).read bytes.now) }
{
    let (key, rest) = i32_of(Truncated, bytes)?;
    if let Some(kind) = key_falls(before, key) {
        return Err(fault(kind, bytes));
    }
    let (branch, rest) = i32_of(Truncated, rest)?;
    Ok((Case { key, branch }, rest))
}

struct Cases;

impl StateReader for Cases {
    type Kind = CodeFault;

    type State = Option<i32>;

    type Item = Case;

    ghost reads = { λ _ before. (case_behind before).read };

    ghost goes_to = { λ _. key_of };

    fn read<'a>(
        &self,
        _alloc: Global,
        before: Option<i32>,
        bytes: &'a [u8],
    ) -> Result<(Case, &'a [u8]), ReadError<CodeFault>> {
        case_of(before, bytes)
    }

    fn next(&self, _before: Option<i32>, one: &Case) -> Option<i32> {
        Some(one.key)
    }
}

/// The operands of a lookupswitch at a place.
#[tactic(auto, unfolding(crate::specs::jcode::OperandFormats::lookup_switch))]
pub fn lookup_switch_of(
    alloc: Global,
    at: u32,
    bytes: &[u8],
) -> Result<(LookupSwitch, &[u8]), ReadError<CodeFault>>
    ensures { Gives (λ x. (x.0, x.1.now)) result ((lookup_switch at).read bytes.now) }
{
    let rest = padding_of(at, bytes)?;
    let (default, rest) = i32_of(Truncated, rest)?;
    let (count, rest) = count_of(rest)?;
    let (cases, rest) = times_by_of(alloc, &Cases, None, count as usize, rest)?;
    Ok((LookupSwitch { default, cases }, rest))
}

/// The operands of a call by an interface.
#[tactic(auto, unfolding(crate::specs::jcode::OperandFormats::interface_call))]
pub fn interface_call_of(bytes: &[u8]) -> Result<((u16, u8), &[u8]), ReadError<CodeFault>>
    ensures { Gives (λ x. (x.0, x.1.now)) result (interface_call.read bytes.now) }
{
    let (method, counted) = u16_of(Truncated, bytes)?;
    let (slots, rest) = u8_of(Truncated, counted)?;
    if slots == 0 {
        return Err(fault(BadOperand, counted));
    }
    let rest = nil_of(rest)?;
    Ok(((method, slots), rest))
}

/// The code of newarray.
#[tactic(auto, unfolding(crate::specs::jcode::OperandFormats::array_type))]
pub fn array_type_of(bytes: &[u8]) -> Result<(ArrayType, &[u8]), ReadError<CodeFault>>
    ensures { Gives (λ x. (x.0, x.1.now)) result (array_type.read bytes.now) }
{
    match bytes {
        [] => Err(fault(Truncated, bytes)),
        [4, rest @ ..] => Ok((ArrayType::Boolean, rest)),
        [5, rest @ ..] => Ok((ArrayType::Char, rest)),
        [8, rest @ ..] => Ok((ArrayType::Byte, rest)),
        [9, rest @ ..] => Ok((ArrayType::Short, rest)),
        [10, rest @ ..] => Ok((ArrayType::Int, rest)),
        [11, rest @ ..] => Ok((ArrayType::Long, rest)),
        [_, ..] => Err(fault(BadOperand, bytes)),
    }
}

/// The opcode that a wide instruction widens, and its operands.
#[tactic(auto, unfolding(crate::specs::jcode::OperandFormats::wide))]
pub fn wide_of(bytes: &[u8]) -> Result<(Wide, &[u8]), ReadError<CodeFault>>
    ensures { Gives (λ x. (x.0, x.1.now)) result (wide.read bytes.now) }
{
    let [opcode, rest @ ..] = bytes else {
        return Err(fault(Truncated, bytes));
    };
    let (kind, access) = match *opcode {
        0x15 => (LocalKind::Int, Access::Load),
        0x16 => (LocalKind::Long, Access::Load),
        0x19 => (LocalKind::Ref, Access::Load),
        0x36 => (LocalKind::Int, Access::Store),
        0x37 => (LocalKind::Long, Access::Store),
        0x3a => (LocalKind::Ref, Access::Store),
        0x84 => {
            let (local, rest) = u16_of(Truncated, rest)?;
            let (by, rest) = i16_of(Truncated, rest)?;
            return Ok((Wide::Iinc(local, by), rest));
        }
        0x17 | 0x18 | 0x38 | 0x39 | 0xa9 => return Err(fault(CodeFault::LeftOut(*opcode), bytes)),
        _ => return Err(fault(BadOperand, bytes)),
    };
    let (local, rest) = u16_of(Truncated, rest)?;
    Ok((Wide::Local(kind, access, local), rest))
}
