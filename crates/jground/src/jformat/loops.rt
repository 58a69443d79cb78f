ghost use Rattle.std.specs.Prelude.{◌≡◌, ℕ, List, Result, length};
ghost use Rattle.std.specs.Int.{w16};
ghost use Rattle.jground.specs.jbase.MemoryFailures.{Gives};
ghost use Rattle.jground.specs.declared.jformat.error.Fault.{Fault};
ghost use Rattle.jground.specs.jformat.Format.{number_at};
ghost use Rattle.jground.specs.jformat.BodyFormats.{counted_at, many_at, times_at};

use crate::jbase::Seq;
use crate::jformat::error::ReadError;
use crate::jformat::numbers::u16_of;
use crate::jformat::parts::fault;
use std::alloc::Global;

/// What reads one value from the front of bytes.
pub trait Reader {
    type Kind: Drop;

    type Item: Drop;

    /// The value and the bytes behind it, or the fault.
    ghost reads: { Self → List ℕ → Result (Self.Item × List ℕ) (Fault Self.Kind) };

    fn read<'a>(
        &self,
        alloc: Global,
        bytes: &'a [u8],
    ) -> Result<(Self::Item, &'a [u8]), ReadError<Self::Kind>>
        ensures { Gives (λ x. (x.0, x.1.now)) result (reads self.now bytes.now) };
}

/// So many values, one behind the other.
pub fn times_of<'a, R: Reader>(
    alloc: Global,
    reader: &R,
    count: usize,
    bytes: &'a [u8],
) -> Result<(Seq<R::Item>, &'a [u8]), ReadError<R::Kind>>
    ensures { Gives (λ x. (x.0, x.1.now)) result (times_at (R.reads reader.now) count bytes.now) }
{
    let mut items = Seq::new(alloc);
    let mut rest = bytes;
    for _ in 0..count {
        let (one, after) = reader.read(alloc, rest)?;
        items.push(one)?;
        rest = after;
    }
    Ok((items, rest))
}

/// Values behind their number, which has two bytes.
pub fn counted_of<'a, R: Reader>(
    alloc: Global,
    reader: &R,
    cut: R::Kind,
    bytes: &'a [u8],
) -> Result<(Seq<R::Item>, &'a [u8]), ReadError<R::Kind>>
    ensures { Gives (λ x. (x.0, x.1.now)) result (counted_at (number_at w16 cut) (R.reads reader.now) bytes.now) }
{
    let (count, rest) = u16_of(cut, bytes)?;
    times_of(alloc, reader, usize::from(count), rest)
}

/// Values to the end of the bytes. Bytes that are left behind as many values as there are bytes are a fault `more`.
pub fn many_of<R: Reader>(
    alloc: Global,
    reader: &R,
    more: R::Kind,
    bytes: &[u8],
) -> Result<Seq<R::Item>, ReadError<R::Kind>>
    ensures { Gives (λ x. x) result (many_at more (R.reads reader.now) (length bytes.now) bytes.now) }
{
    let mut items = Seq::new(alloc);
    let mut rest = bytes;
    for _ in 0..bytes.len() {
        if rest.is_empty() {
            return Ok(items);
        }
        let (one, after) = reader.read(alloc, rest)?;
        items.push(one)?;
        rest = after;
    }
    if rest.is_empty() {
        return Ok(items);
    }
    Err(fault(more, rest))
}
