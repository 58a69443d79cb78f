ghost use Rattle.std.specs.Prelude.{◌≡◌, ◌∷◌, ◌%◌, ◌^◌, [], IfOk, option_and_then, option_map, pos};
ghost use Rattle.std.specs.Fmt.{signed_decimal};
ghost use Rattle.std.specs.Int.{w32, cast_unsigned};
ghost use Rattle.std.specs.Ordering.{int_eq};
ghost use Rattle.jsemantics.specs.ProofNames.{zero_text};
ghost use Rattle.jrows.specs.jtexts.PrintedValues.{int_in, long_in, shown as shown_as, shown_int as int_shown, text_or_null};

use crate::jtexts::texts::{is_null, read_onto, text_of};
use itoa::Buffer;
use jground::jtext::Units;
use jlib::PrintedType;
use jmemory::jheap::Heap;
use jvalues::jops::Value;
use std::alloc::{AllocError, Global};

/// A unit for each byte of a text, with its number: the units of a text of ASCII.
fn widened(alloc: Global, text: &[u8]) -> Result<Units, AllocError>
    ensures { IfOk result (λ units. units ≡ text.now) }
{
    let mut units = Vec::new(alloc);
    for b in text {
        units.push(u16::from(*b))?;
    }
    Ok(Units::from_vec(units))
}

/// An int in decimal digits.
fn decimal_int(alloc: Global, x: i32) -> Result<Units, AllocError>
    ensures { IfOk result (λ units. units ≡ signed_decimal x) }
{
    let mut digits = Buffer::new();
    widened(alloc, digits.format(x).as_bytes())
}

/// A long in decimal digits.
fn decimal_long(alloc: Global, x: i64) -> Result<Units, AllocError>
    ensures { IfOk result (λ units. units ≡ signed_decimal x) }
{
    let mut digits = Buffer::new();
    widened(alloc, digits.format(x).as_bytes())
}

/// The lowest 16 bits of an int, as a text of one unit.
fn char_text(alloc: Global, x: i32) -> Result<Units, AllocError>
    ensures { IfOk result (λ units. units ≡ (cast_unsigned w32 x % 2 ^ 16) ∷ []) }
{
    let mut units = Vec::new(alloc);
    units.push((x.cast_unsigned() % 0x1_0000) as u16)?;
    Ok(Units::from_vec(units))
}

/// `false` where the int is 0, else `true`.
fn flag_text(alloc: Global, x: i32) -> Result<Units, AllocError>
    ensures { IfOk result (λ units. units ≡ zero_text (int_eq x (pos 0))) }
{
    if x == 0 {
        return widened(alloc, b"false");
    }
    widened(alloc, b"true")
}

/// The int that a value is.
#[inline]
fn int_of(value: Value) -> Option<i32>
    ensures { result ≡ int_in value }
{
    match value {
        Value::Int(x) => Some(x),
        Value::Long(_) => None,
        Value::Ref(_) => None,
        Value::Ctx(_) => None,
    }
}

/// The long that a value is.
#[inline]
fn long_of(value: Value) -> Option<i64>
    ensures { result ≡ long_in value }
{
    match value {
        Value::Long(x) => Some(x),
        Value::Int(_) => None,
        Value::Ref(_) => None,
        Value::Ctx(_) => None,
    }
}

/// The units of the text that a value names; of null the word for it.
fn text_shown(alloc: Global, heap: &Heap, value: Value) -> Result<Option<Units>, AllocError>
    ensures { IfOk result (λ units. units ≡ text_or_null heap.now value) }
{
    if is_null(value) {
        let units = widened(alloc, b"null")?;
        return Ok(Some(units));
    }
    let Some(o) = text_of(heap, value) else {
        return Ok(None);
    };
    let mut units = Vec::new(alloc);
    read_onto(heap, o, &mut units)?;
    Ok(Some(Units::from_vec(units)))
}

/// What an int is printed as, which stands for such a piece.
fn int_text(alloc: Global, piece: PrintedType, x: i32) -> Result<Option<Units>, AllocError>
    ensures { IfOk result (λ units. units ≡ int_shown piece x) }
{
    match piece {
        PrintedType::Int => {
            let units = decimal_int(alloc, x)?;
            Ok(Some(units))
        }
        PrintedType::Char => {
            let units = char_text(alloc, x)?;
            Ok(Some(units))
        }
        PrintedType::Bool => {
            let units = flag_text(alloc, x)?;
            Ok(Some(units))
        }
        PrintedType::Long => Ok(None),
        PrintedType::Text => Ok(None),
    }
}

/// What a value is printed as where it is an int that stands for such a piece.
fn value_text(alloc: Global, piece: PrintedType, value: Value) -> Result<Option<Units>, AllocError>
    ensures { IfOk result (λ units. units ≡ option_and_then (int_shown piece) (int_in value)) }
{
    let Some(x) = int_of(value) else {
        return Ok(None);
    };
    int_text(alloc, piece, x)
}

/// What a value is printed as where it is a long.
fn long_text(alloc: Global, value: Value) -> Result<Option<Units>, AllocError>
    ensures { IfOk result (λ units. units ≡ option_map signed_decimal (long_in value)) }
{
    let Some(x) = long_of(value) else {
        return Ok(None);
    };
    let units = decimal_long(alloc, x)?;
    Ok(Some(units))
}

/// What a value is printed as, and appended as.
pub(crate) fn shown(
    alloc: Global,
    heap: &Heap,
    piece: PrintedType,
    value: Value,
) -> Result<Option<Units>, AllocError>
    ensures { IfOk result (λ units. units ≡ shown_as heap.now piece value) }
{
    match piece {
        PrintedType::Text => text_shown(alloc, heap, value),
        PrintedType::Long => long_text(alloc, value),
        PrintedType::Int => value_text(alloc, PrintedType::Int, value),
        PrintedType::Char => value_text(alloc, PrintedType::Char, value),
        PrintedType::Bool => value_text(alloc, PrintedType::Bool, value),
    }
}
