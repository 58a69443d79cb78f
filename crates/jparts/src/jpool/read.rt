ghost use Rattle.std.specs.Prelude.{◌≡◌, ◌++◌, ◌+◌, ℕ, List, IfOk, IsTrue, Ok, drop, length};
ghost use Rattle.jground.specs.jbase.MemoryFailures.{Gives};
ghost use Rattle.jground.specs.jformat.FaultOffsets.{GivesAt};
ghost use Rattle.jparts.specs.declared.jpool.entry.Entry.{Entry};
ghost use Rattle.jparts.specs.jpool.ConstantPools;
ghost use Rattle.jparts.specs.jpool.ConstantPools.{Spells, behind_pool, entry_fault, first_fault};

use crate::jpool::entry::Entry;
use crate::jpool::fault::{PoolError, PoolFault};
use crate::jpool::judge::first_fault_of;
use crate::jpool::pool::Pool;
use crate::jpool::slots::{entries_of, put_entries};
use crate::jpool::uses::TextUses;
use jground::jbase::{FaultOrMemory, Seq};
use jground::jformat::{Fault, ReadError, stop_at};
use std::alloc::{AllocError, Global};

/// The first fault of what the entries of a pool name, where so many bytes are left at the first entry.
fn fault_in(
    alloc: Global,
    entries: &[Entry],
    left: usize,
) -> Result<Option<Fault<PoolFault>>, AllocError>
    ensures { IfOk result (λ found. found ≡ first_fault (entry_fault entries.now) left entries.now) }
{
    let uses = TextUses::of(alloc, entries)?;
    let found = first_fault_of(&uses, left, entries);
    Ok(found)
}

/// A pool at the front of bytes, and the bytes behind it.
#[tactic(auto, unfolding(crate::specs::jpool::ConstantPools::pool))]
pub fn pool_of(alloc: Global, bytes: &[u8]) -> Result<(Pool, &[u8]), ReadError<PoolFault>>
    ensures { Gives (λ x. (x.0, x.1.now)) result (ConstantPools.pool.read bytes.now) }
{
    let (entries, rest) = entries_of(alloc, bytes)?;
    let left = bytes.len().saturating_sub(2);
    if let Some(fault) = fault_in(alloc, entries.as_slice(), left)? {
        return Err(FaultOrMemory::Fault(fault));
    }
    Ok((Pool::from_entries(entries), rest))
}

/// The bytes from a place on.
fn behind(bytes: &[u8], at: u32) -> &[u8]
    ensures { result.now ≡ drop at bytes.now }
{
    let at = at as usize;
    if at > bytes.len() {
        return &[];
    }
    let (_, rest) = bytes.split_at(at);
    rest
}

/// The pool that is spelled at an offset, and the offset behind it (JVMS 4.4).
///
/// The count and the entries are read front to back: `Truncated` stands at the first byte of a number or a text that isn't
/// wholly there, `BadTag` at a tag that no entry has, or at that of a long or a double at the last index. Where no such
/// fault is, each entry is looked at in turn: `BadIndex`, `BadName` or `BadDescriptor` stands at its tag. A count of 0 is read
/// as a pool without entries. `Memory` comes where memory runs out, and where the bytes are 4 GiB or more.
pub fn read_pool(alloc: Global, bytes: &[u8], at: u32) -> Result<(Pool, u32), PoolError>
    // What is read is spelled so.
    ensures found { IfOk result (λ r. Spells (drop at bytes.now) r.0 (drop r.1 bytes.now) × (r.1 ≡ behind_pool at r.0)) }
    // What is spelled so is read, unless memory runs out.
    ensures only { (entries : List Entry) (rest : List ℕ) → Spells (drop at bytes.now) entries rest
        → GivesAt (λ r. r) bytes.now result (Ok (entries, behind_pool at entries)) }
    // Which fault it is, and where.
    ensures exact { GivesAt (λ r. (r.0, drop r.1 bytes.now)) bytes.now result (ConstantPools.pool.read (drop at bytes.now)) }
{
    if bytes.len() > u32::MAX as usize {
        return Err(FaultOrMemory::Memory);
    }
    match pool_of(alloc, behind(bytes, at)) {
        Ok((pool, rest)) => Ok((pool, (bytes.len() - rest.len()) as u32)),
        Err(stop) => Err(stop_at(bytes, stop)),
    }
}

/// The bytes that spell a pool.
#[tactic(auto, unfolding(crate::specs::jpool::ConstantPools::pool))]
pub fn write_pool(alloc: Global, pool: &Pool) -> Result<Vec<u8>, AllocError>
    ensures { IfOk result (λ text. text.items ≡ ConstantPools.pool.spell pool.now) }
{
    let mut out = Seq::new(alloc);
    put_entries(alloc, pool.entries(), &mut out)?;
    Ok(out.into_vec())
}
