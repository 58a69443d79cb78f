ghost use Rattle.std.specs.Prelude.{◌≡◌, ◌++◌, IsTrue, OnOk};
ghost use Rattle.jground.specs.jbase.MemoryFailures.{Gives};
ghost use Rattle.jparts.specs.jpool.PoolEntries;
ghost use Rattle.jparts.specs.jpool.PoolEntries.{begins_wide, narrow, next_slot, shape, slot};

use crate::jpool::coding::{entry_of, put_entry};
use crate::jpool::entry::Entry;
use crate::jpool::fault::PoolFault;
use jground::jbase::Seq;
use jground::jformat::{
    ReadError, StateReader, StateWriter, fault, put_by, put_u16, times_by_of, u16_of,
};
use std::alloc::{AllocError, Global};

/// An index of a pool, before its entry is known.
#[derive(Clone, Copy)]
pub struct Slot {
    /// The number of indices from this one on.
    pub left: u16,
    /// Whether no entry of its own stands here.
    pub taken: bool,
}

/// Whether an entry takes two indices.
pub fn is_wide(one: &Entry) -> bool
    ensures { result ≡ PoolEntries.is_wide one.now }
{
    matches!(one, Entry::Long(_) | Entry::Double(_))
}

fn begins_with_wide(bytes: &[u8]) -> bool
    ensures { result ≡ begins_wide bytes.now }
{
    matches!(bytes, [5 | 6, ..])
}

#[tactic(auto, unfolding(crate::specs::jpool::PoolEntries::narrow))]
fn narrow_of(alloc: Global, bytes: &[u8]) -> Result<(Entry, &[u8]), ReadError<PoolFault>>
    ensures { Gives (λ x. (x.0, x.1.now)) result (narrow.read bytes.now) }
{
    if begins_with_wide(bytes) {
        return Err(fault(PoolFault::BadTag, bytes));
    }
    entry_of(alloc, bytes)
}

#[tactic(auto, unfolding(crate::specs::jpool::PoolEntries::unused))]
fn slot_of(alloc: Global, place: Slot, bytes: &[u8]) -> Result<(Entry, &[u8]), ReadError<PoolFault>>
    ensures { Gives (λ x. (x.0, x.1.now)) result ((slot place).read bytes.now) }
{
    if place.taken {
        return Ok((Entry::Unused, bytes));
    }
    if place.left == 1 {
        return narrow_of(alloc, bytes);
    }
    entry_of(alloc, bytes)
}

#[tactic(auto, unfolding(crate::specs::jpool::PoolEntries::unused, crate::specs::jpool::PoolEntries::narrow), using(crate::proofs::JpoolProofs::EntrySpellings::fits_spelling),)]
fn put_slot(place: Slot, one: &Entry, out: &mut Seq<u8>) -> Result<(), AllocError>
    requires { IsTrue ((slot place).fits one.now) }
    ensures { OnOk result (out.new ≡ out.old ++ (slot place).spell one.now) }
{
    if place.taken {
        return Ok(());
    }
    put_entry(one, out)
}

fn slot_behind(place: Slot, one: &Entry) -> Slot
    ensures { result ≡ next_slot place one.now }
{
    Slot {
        left: place.left.saturating_sub(1),
        taken: is_wide(one),
    }
}

struct Slots;

impl StateReader for Slots {
    type Kind = PoolFault;

    type State = Slot;

    type Item = Entry;

    ghost reads = { λ _ place. (slot place).read };

    ghost goes_to = { λ _. next_slot };

    fn read<'a>(
        &self,
        alloc: Global,
        place: Slot,
        bytes: &'a [u8],
    ) -> Result<(Entry, &'a [u8]), ReadError<PoolFault>> {
        slot_of(alloc, place, bytes)
    }

    fn next(&self, place: Slot, one: &Entry) -> Slot {
        slot_behind(place, one)
    }
}

impl StateWriter for Slots {
    type State = Slot;

    type Item = Entry;

    ghost spells = { λ _ place. (slot place).spell };

    ghost fits = { λ _ place. (slot place).fits };

    ghost goes_to = { λ _. next_slot };

    fn write(
        &self,
        _alloc: Global,
        place: Slot,
        one: &Entry,
        out: &mut Seq<u8>,
    ) -> Result<(), AllocError> {
        put_slot(place, one, out)
    }

    fn next(&self, place: Slot, one: &Entry) -> Slot {
        slot_behind(place, one)
    }
}

/// The entries of a pool by their indices, as far as their shape goes, and the bytes behind them: what stands at index 0
/// and behind an entry of two indices is `Unused`. What the entries name isn't looked at.
#[tactic(auto, unfolding(crate::specs::jpool::PoolEntries::shape))]
pub fn entries_of(alloc: Global, bytes: &[u8]) -> Result<(Seq<Entry>, &[u8]), ReadError<PoolFault>>
    ensures { Gives (λ x. (x.0, x.1.now)) result (shape.read bytes.now) }
{
    let (count, rest) = u16_of(PoolFault::Truncated, bytes)?;
    let first = Slot {
        left: count,
        taken: true,
    };
    let (entries, rest) = times_by_of(alloc, &Slots, first, usize::from(count), rest)?;
    Ok((entries, rest))
}

/// Writes the entries of a pool.
#[tactic(auto, unfolding(crate::specs::jpool::PoolEntries::shape))]
pub fn put_entries(alloc: Global, entries: &[Entry], out: &mut Seq<u8>) -> Result<(), AllocError>
    requires { IsTrue (shape.fits entries.now) }
    ensures { OnOk result (out.new ≡ out.old ++ shape.spell entries.now) }
{
    let count = entries.len() as u16;
    put_u16(count, out)?;
    let first = Slot {
        left: count,
        taken: true,
    };
    put_by(alloc, &Slots, first, entries, out)
}
