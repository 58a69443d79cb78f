ghost use Rattle.std.specs.Prelude.{◌≡◌, ◌-◌, IfOk, IsTrue, option_map};
ghost use Rattle.jground.specs.jbase.FirstFaults.{or_else};
ghost use Rattle.jparts.specs.declared.jpool.entry.Entry.{Entry};
ghost use Rattle.jparts.specs.jpool.ConstantPools;
ghost use Rattle.jparts.specs.jpool.ConstantPools.{first_fault};
ghost use Rattle.jclass.specs.IndexFormats.{pool_fault};
ghost use Rattle.jclass.specs.PoolChecks;
ghost use Rattle.jclass.specs.PoolChecks.{text_fault};

use crate::fault::ClassFault;
use crate::shape::pool_fault;
use crate::text::is_modified;
use jground::jformat::Fault;
use jparts::jpool::{Entry, EntryTest, PoolFault, TextUses, first_fault_of};
use std::alloc::{AllocError, Global};

fn text_fault_of(one: &Entry) -> Option<ClassFault>
    ensures { result ≡ text_fault one.now }
{
    match one {
        Entry::Utf8(bytes) => {
            if is_modified(bytes.as_slice()) {
                return None;
            }
            Some(ClassFault::Text)
        }
        _ => None,
    }
}

fn as_pool_fault(found: Option<PoolFault>) -> Option<ClassFault>
    ensures { result ≡ option_map pool_fault found }
{
    match found {
        None => None,
        Some(kind) => Some(pool_fault(kind)),
    }
}

/// The test of an entry among all of its pool.
#[derive(Clone, Copy)]
struct Among<'r, 'a> {
    uses: &'r TextUses<'a>,
}

#[tactic(auto, unfolding(crate::specs::PoolChecks::entry_fault))]
fn fault_among(uses: &TextUses<'_>, one: &Entry) -> Option<ClassFault>
    ensures { result ≡ PoolChecks.entry_fault uses.now one.now }
{
    if let Some(kind) = text_fault_of(one) {
        return Some(kind);
    }
    as_pool_fault(uses.entry_fault(one))
}

impl<'r, 'a> EntryTest for Among<'r, 'a> {
    type Kind = ClassFault;

    ghost faults = { λ test. PoolChecks.entry_fault test.uses.now };

    fn fault_of(&self, one: &Entry) -> Option<ClassFault> {
        fault_among(self.uses, one)
    }
}

/// The first fault of a pool's entries, at its tag, where `left` bytes are left at the first entry.
pub fn judge_pool(
    alloc: Global,
    entries: &[Entry],
    left: usize,
) -> Result<Option<Fault<ClassFault>>, AllocError>
    ensures { IfOk result (λ found. found ≡ first_fault (PoolChecks.entry_fault entries.now) left entries.now) }
{
    let uses = TextUses::of(alloc, entries)?;
    let among = Among { uses: &uses };
    let found = first_fault_of(&among, left, entries);
    Ok(found)
}
