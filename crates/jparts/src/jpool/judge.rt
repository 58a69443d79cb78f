ghost use Rattle.std.specs.Prelude.{◌≡◌, ◌&&◌, Option};
ghost use Rattle.jparts.specs.declared.jpool.entry.Entry.{Entry};
ghost use Rattle.jparts.specs.jpool.PoolEntries.{size};
ghost use Rattle.jground.specs.jformat.Format.{unless};
ghost use Rattle.jparts.specs.declared.jpool.fault.PoolFault.TheVariants as faults;
ghost use Rattle.jparts.specs.jpool.ConstantPools;
ghost use Rattle.jparts.specs.jpool.ConstantPools.{first_fault, is_class, is_name_and_type};

use crate::jpool::entry::Entry;
use crate::jpool::fault::PoolFault;
use crate::jpool::fault::PoolFault::BadIndex;
use jground::jformat::Fault;

#[tactic(auto, unfolding(crate::specs::jpool::ConstantPools::is_utf8))]
pub fn is_utf8(entries: &[Entry], i: u16) -> bool
    ensures { result ≡ ConstantPools.is_utf8 entries.now i }
{
    matches!(entries.get(usize::from(i)), Some(Entry::Utf8(_)))
}

#[tactic(auto, unfolding(crate::specs::jpool::ConstantPools::is_class, crate::specs::jpool::ConstantPools::is_name_and_type))]
pub fn is_member(entries: &[Entry], class: u16, both: u16) -> bool
    ensures { result ≡ is_class entries.now class && is_name_and_type entries.now both }
{
    if !matches!(entries.get(usize::from(class)), Some(Entry::Class(_))) {
        return false;
    }
    matches!(entries.get(usize::from(both)), Some(Entry::NameAndType(..)))
}

pub fn unless_good(good: bool) -> Option<PoolFault>
    ensures { result ≡ unless good faults.BadIndex }
{
    if good { None } else { Some(BadIndex) }
}

/// The number of bytes of an entry.
#[tactic(auto, unfolding(crate::specs::jpool::PoolEntries::size, crate::specs::jpool::PoolEntries::entry))]
fn size_of(one: &Entry) -> usize
    ensures { result ≡ size one.now }
{
    match one {
        Entry::Unused => 0,
        Entry::Utf8(text) => 3 + text.as_slice().len(),
        Entry::Class(_) | Entry::Str(_) | Entry::MethodType(_) => 3,
        Entry::MethodHandle(..) => 4,
        Entry::Long(_) | Entry::Double(_) => 9,
        _ => 5,
    }
}

/// A test of an entry.
pub trait EntryTest {
    type Kind: Copy;

    /// What is wrong with an entry, if anything is.
    ghost faults: { Self → Entry → Option Self.Kind };

    fn fault_of(&self, one: &Entry) -> Option<Self::Kind>
        ensures { result ≡ faults self.now one.now };
}

/// The fault of the first entry that fails a test, at its tag byte, where `left` bytes are left at the first entry.
pub fn first_fault_of<T: EntryTest>(
    test: &T,
    left: usize,
    entries: &[Entry],
) -> Option<Fault<T::Kind>>
    ensures { result ≡ first_fault (T.faults test.now) left entries.now }
{
    let mut left = left;
    for one in entries {
        if let Some(kind) = test.fault_of(one) {
            return Some(Fault { left, kind });
        }
        left = left.saturating_sub(size_of(one));
    }
    None
}
