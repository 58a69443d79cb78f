ghost use Rattle.std.specs.Prelude.{◌≡◌};
ghost use Rattle.std.specs.Int.{w8, w16, w32, w64};
ghost use Rattle.jground.specs.jbase.MemoryFailures.{Gives};
ghost use Rattle.jground.specs.jformat.Format.{number_at, signed};
ghost use Rattle.jground.specs.ProofNames.{byte_at};

use crate::jformat::error::ReadError;
use crate::jformat::parts::fault;

/// A byte.
pub fn u8_of<K: Drop>(cut: K, bytes: &[u8]) -> Result<(u8, &[u8]), ReadError<K>>
    ensures { Gives (λ x. (x.0, x.1.now)) result (byte_at cut bytes.now) }
{
    match bytes {
        [] => Err(fault(cut, bytes)),
        [b, rest @ ..] => Ok((*b, rest)),
    }
}

/// A number of two bytes, the high byte first.
pub fn u16_of<K: Drop>(cut: K, bytes: &[u8]) -> Result<(u16, &[u8]), ReadError<K>>
    ensures { Gives (λ x. (x.0, x.1.now)) result (number_at w16 cut bytes.now) }
{
    if bytes.len() < 2 {
        return Err(fault(cut, bytes));
    }
    let (front, rest) = bytes.split_at(2);
    Ok((u16::from_be_bytes([front[0], front[1]]), rest))
}

/// A number of four bytes, the high byte first.
pub fn u32_of<K: Drop>(cut: K, bytes: &[u8]) -> Result<(u32, &[u8]), ReadError<K>>
    ensures { Gives (λ x. (x.0, x.1.now)) result (number_at w32 cut bytes.now) }
{
    if bytes.len() < 4 {
        return Err(fault(cut, bytes));
    }
    let (front, rest) = bytes.split_at(4);
    Ok((
        u32::from_be_bytes([front[0], front[1], front[2], front[3]]),
        rest,
    ))
}

/// A number of eight bytes, the high byte first.
pub fn u64_of<K: Drop>(cut: K, bytes: &[u8]) -> Result<(u64, &[u8]), ReadError<K>>
    ensures { Gives (λ x. (x.0, x.1.now)) result (number_at w64 cut bytes.now) }
{
    if bytes.len() < 8 {
        return Err(fault(cut, bytes));
    }
    let (front, rest) = bytes.split_at(8);
    let word = [
        front[0], front[1], front[2], front[3], front[4], front[5], front[6], front[7],
    ];
    Ok((u64::from_be_bytes(word), rest))
}

/// A byte in two's complement.
pub fn i8_of<K: Drop>(cut: K, bytes: &[u8]) -> Result<(i8, &[u8]), ReadError<K>>
    ensures { Gives (λ x. (x.0, x.1.now)) result ((signed w8 cut).read bytes.now) }
{
    if bytes.is_empty() {
        return Err(fault(cut, bytes));
    }
    let (front, rest) = bytes.split_at(1);
    Ok((i8::from_be_bytes([front[0]]), rest))
}

/// A number of two bytes in two's complement, the high byte first.
pub fn i16_of<K: Drop>(cut: K, bytes: &[u8]) -> Result<(i16, &[u8]), ReadError<K>>
    ensures { Gives (λ x. (x.0, x.1.now)) result ((signed w16 cut).read bytes.now) }
{
    let (n, rest) = u16_of(cut, bytes)?;
    Ok((n.cast_signed(), rest))
}

/// A number of four bytes in two's complement, the high byte first.
pub fn i32_of<K: Drop>(cut: K, bytes: &[u8]) -> Result<(i32, &[u8]), ReadError<K>>
    ensures { Gives (λ x. (x.0, x.1.now)) result ((signed w32 cut).read bytes.now) }
{
    let (n, rest) = u32_of(cut, bytes)?;
    Ok((n.cast_signed(), rest))
}
