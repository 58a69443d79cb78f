ghost use Rattle.std.specs.Prelude.{◌≡◌, ℕ, List, Result};
ghost use Rattle.jground.specs.jbase.MemoryFailures.{Gives};
ghost use Rattle.jground.specs.declared.jformat.error.Fault.{Fault};
ghost use Rattle.jground.specs.jformat.StatefulFormats.{times_from};

use crate::jbase::Seq;
use crate::jformat::error::ReadError;
use std::alloc::Global;

/// What reads one value by a state that the earlier ones made.
pub trait StateReader {
    type Kind: Drop;

    type State: Copy;

    type Item: Drop;

    /// The value at a state and the bytes behind it, or the fault.
    ghost reads: { Self → Self.State → List ℕ → Result (Self.Item × List ℕ) (Fault Self.Kind) };

    /// The state behind a value.
    ghost goes_to: { Self → Self.State → Self.Item → Self.State };

    fn read<'a>(
        &self,
        alloc: Global,
        state: Self::State,
        bytes: &'a [u8],
    ) -> Result<(Self::Item, &'a [u8]), ReadError<Self::Kind>>
        ensures { Gives (λ x. (x.0, x.1.now)) result (reads self.now state bytes.now) };

    fn next(&self, state: Self::State, item: &Self::Item) -> Self::State
        ensures { result ≡ goes_to self.now state item.now };
}

/// So many values, each by the state that the earlier ones made.
pub fn times_by_of<'a, R: StateReader>(
    alloc: Global,
    reader: &R,
    first: R::State,
    count: usize,
    bytes: &'a [u8],
) -> Result<(Seq<R::Item>, &'a [u8]), ReadError<R::Kind>>
    ensures { Gives (λ x. (x.0, x.1.now)) result (times_from (R.reads reader.now) (R.goes_to reader.now) first count bytes.now) }
{
    let mut items = Seq::new(alloc);
    let mut state = first;
    let mut rest = bytes;
    for _ in 0..count {
        let (one, after) = reader.read(alloc, state, rest)?;
        state = reader.next(state, &one);
        items.push(one)?;
        rest = after;
    }
    Ok((items, rest))
}
