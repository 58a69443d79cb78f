ghost use Rattle.std.specs.Prelude.{◌≡◌};
ghost use Rattle.std.specs.Int.{w16};
ghost use Rattle.jground.specs.jbase.MemoryFailures.{Gives};
ghost use Rattle.jground.specs.jformat.Format.{number, run_at, words_at};
ghost use Rattle.jground.specs.ProofNames.{fault_at};
ghost use Rattle.jground.specs.jformat.BodyFormats.{sized};

use crate::jbase::{FaultOrMemory, Seq};
use crate::jformat::error::{Fault, ReadError};
use crate::jformat::numbers::u16_of;
use std::alloc::Global;

/// A fault where these bytes are left.
pub fn fault<K>(kind: K, bytes: &[u8]) -> ReadError<K>
    ensures { result ≡ FaultOrMemory.Fault (fault_at kind bytes.now) }
{
    FaultOrMemory::Fault(Fault {
        left: bytes.len(),
        kind,
    })
}

/// So many bytes, and the rest.
pub fn run_of<K: Drop>(cut: K, count: usize, bytes: &[u8]) -> Result<(&[u8], &[u8]), ReadError<K>>
    ensures { Gives (λ x. (x.0.now, x.1.now)) result (run_at cut count bytes.now) }
{
    if bytes.len() < count {
        return Err(fault(cut, bytes));
    }
    Ok(bytes.split_at(count))
}

/// Bytes behind their number, which has two bytes.
pub fn sized_of<K: Copy>(
    alloc: Global,
    cut: K,
    bytes: &[u8],
) -> Result<(Seq<u8>, &[u8]), ReadError<K>>
    ensures { Gives (λ x. (x.0, x.1.now)) result ((sized (number w16 cut) cut).read bytes.now) }
{
    let (count, rest) = u16_of(cut, bytes)?;
    let (text, rest) = run_of(cut, usize::from(count), rest)?;
    Ok((Seq::from_slice(alloc, text)?, rest))
}

/// What lies behind these very bytes.
pub fn words_of<'a, K: Drop>(
    wrong: K,
    text: &[u8],
    bytes: &'a [u8],
) -> Result<&'a [u8], ReadError<K>>
    ensures { Gives (λ x. (tt, x.now)) result (words_at wrong text.now bytes.now) }
{
    if bytes.len() >= text.len() {
        let (front, rest) = bytes.split_at(text.len());
        if front == text {
            return Ok(rest);
        }
    }
    Err(fault(wrong, bytes))
}
