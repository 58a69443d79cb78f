ghost use Rattle.std.specs.Prelude.{◌≡◌, ℕ, ◌≤◌, List, Result, Err, length};
ghost use Rattle.std.specs.Int.{w32};
ghost use Rattle.jground.specs.jbase.MemoryFailures.{Gives};
ghost use Rattle.jground.specs.declared.jformat.error.Fault.{Fault};
ghost use Rattle.jground.specs.jformat.Format.{number_at};
ghost use Rattle.jground.specs.jformat.BodyFormats.{inner_at};
ghost use Rattle.jground.specs.ProofNames.{block_at};

use crate::jbase::FaultOrMemory;
use crate::jformat::error::{Fault, ReadError};
use crate::jformat::numbers::u32_of;
use crate::jformat::parts::run_of;
use std::alloc::Global;

/// What reads one value from all of a text.
pub trait BodyReader {
    type Kind: Copy;

    type Item: Drop;

    /// The value, or the fault.
    ghost reads: { Self → List ℕ → Result Self.Item (Fault Self.Kind) };

    fn read(&self, alloc: Global, bytes: &[u8]) -> Result<Self::Item, ReadError<Self::Kind>>
        ensures { Gives (λ x. x) result (reads self.now bytes.now) };

    /// A fault stands within the text.
    ghost within: { (reader : Self) (bytes : List ℕ) (d : Fault Self.Kind) → reads reader bytes ≡ Err d → d.left ≤ length bytes };
}

/// A text of so many bytes, with faults' places as outside of it.
pub fn inner_of<'a, R: BodyReader>(
    alloc: Global,
    reader: &R,
    cut: R::Kind,
    count: usize,
    bytes: &'a [u8],
) -> Result<(R::Item, &'a [u8]), ReadError<R::Kind>>
    ensures { Gives (λ x. (x.0, x.1.now)) result (inner_at cut (R.reads reader.now) count bytes.now) }
{
    // What the proof needs: a slice has no more bytes than a usize counts.
    let _size = bytes.len();
    let (text, rest) = run_of(cut, count, bytes)?;
    match reader.read(alloc, text) {
        Ok(item) => Ok((item, rest)),
        Err(FaultOrMemory::Memory) => Err(FaultOrMemory::Memory),
        Err(FaultOrMemory::Fault(found)) => Err(FaultOrMemory::Fault(Fault {
            left: found.left + rest.len(),
            kind: found.kind,
        })),
    }
}

/// A text behind the number of its bytes, which has four bytes.
pub fn block_of<'a, R: BodyReader>(
    alloc: Global,
    reader: &R,
    cut: R::Kind,
    bytes: &'a [u8],
) -> Result<(R::Item, &'a [u8]), ReadError<R::Kind>>
    ensures { Gives (λ x. (x.0, x.1.now)) result (block_at (number_at w32 cut) cut (R.reads reader.now) bytes.now) }
{
    let (count, rest) = u32_of(cut, bytes)?;
    inner_of(alloc, reader, cut, count as usize, rest)
}
