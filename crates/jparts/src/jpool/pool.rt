ghost use Rattle.std.specs.Prelude.{◌≡◌, ◌++◌, ◌+◌, ℕ, List, IfOk, IsSome, IsTrue, Ok, OnErr, OnOk, drop, length, option_and_then, option_map, slice_get};
ghost use Rattle.jparts.specs.declared.jpool.entry.Entry.{Entry};
ghost use Rattle.jparts.specs.jpool.EntryLayouts.{laid};
ghost use Rattle.jparts.specs.jpool.ConstantPools;
ghost use Rattle.jparts.specs.jpool.ConstantPools.{IsPool, class_name_at, is_class, is_name_and_type, is_utf8, name_and_type_at, utf8_at};
ghost use Rattle.jparts.specs.jpool.PoolEntries.{class_parts};

use crate::jpool::entry::Entry;
use crate::jpool::slots::is_wide;
use jground::jbase::{Seq, all_again};
use std::alloc::{AllocError, Global};
use std::marker::Model;

/// A constant pool (JVMS 4.4). Contracts see it as the list of its entries by their indices: `Unused` stands at index 0 and
/// behind each entry that takes two indices. Each class in it names a text.
#[derive(Debug, Drop)]
pub struct Pool {
    entries: Vec<Entry>,
}

impl Model for Pool {
    ghost use Rattle.std.specs.Prelude.{List};
    ghost use Rattle.jparts.specs.declared.jpool.entry.Entry.{Entry};
    ghost use Rattle.jparts.specs.jpool.ConstantPools.{IsPool};

    ghost Value = { List Entry };

    ghost view = { λ p. p.entries.items };

    ghost invariant = { λ p. IsPool p.entries.items };
}

/// The text at an index.
#[tactic(auto, unfolding(crate::specs::jpool::ConstantPools::utf8_at))]
pub fn text_of(entries: &[Entry], i: u16) -> Option<&[u8]>
    ensures { option_map (λ text. text.now) result ≡ utf8_at entries.now i }
{
    match entries.get(usize::from(i)) {
        Some(Entry::Utf8(text)) => Some(text.as_slice()),
        _ => None,
    }
}

/// The index that the class at an index names.
pub fn name_of(entries: &[Entry], i: u16) -> Option<u16>
    ensures { result ≡ option_and_then class_parts (slice_get entries.now i) }
{
    match entries.get(usize::from(i)) {
        Some(Entry::Class(name)) => Some(*name),
        _ => None,
    }
}

/// The indices of the name and of the descriptor at an index.
#[tactic(auto, unfolding(crate::specs::jpool::ConstantPools::name_and_type_at))]
fn both_of(entries: &[Entry], i: u16) -> Option<(u16, u16)>
    ensures { result ≡ name_and_type_at entries.now i }
{
    match entries.get(usize::from(i)) {
        Some(Entry::NameAndType(name, descriptor)) => Some((*name, *descriptor)),
        _ => None,
    }
}

/// Puts an entry behind others, and `Unused` behind one of two indices. After an error nothing has changed.
fn lay(entries: &mut Vec<Entry>, one: Entry) -> Result<(), AllocError>
    ensures ok { OnOk result (entries.new.items ≡ entries.old.items ++ laid one) }
    ensures err { OnErr result (entries.new.items ≡ entries.old.items) }
{
    entries.reserve(2)?;
    if is_wide(&one) {
        entries.push_reserved(one);
        entries.push_reserved(Entry::Unused);
        return Ok(());
    }
    entries.push_reserved(one);
    Ok(())
}

impl Pool {
    /// The pool of entries by their indices.
    pub fn from_entries(entries: Seq<Entry>) -> Pool
        requires { IsPool entries }
        ensures { result ≡ entries }
    {
        Pool {
            entries: entries.into_vec(),
        }
    }

    /// The entries by their indices, lent.
    pub fn entries(&self) -> &[Entry]
        ensures same { result.now ≡ self.now }
        ensures kept { IsPool self.now }
    {
        self.entries.as_slice()
    }

    /// The same pool again.
    pub fn copy(&self, alloc: Global) -> Result<Pool, AllocError>
        ensures { IfOk result (λ pool. pool ≡ self.now) }
    {
        let entries = all_again(alloc, self.entries.as_slice())?;
        Ok(Pool::from_entries(entries))
    }

    /// The entry at an index. None exactly where the index isn't below the count.
    pub fn entry(&self, i: u16) -> Option<&Entry>
        ensures { option_map (λ one. one.now) result ≡ slice_get self.now i }
    {
        self.entries.as_slice().get(usize::from(i))
    }

    /// The text at an index, as bytes. None exactly where no `Utf8` is there.
    pub fn utf8(&self, i: u16) -> Option<&[u8]>
        ensures { option_map (λ text. text.now) result ≡ utf8_at self.now i }
    {
        text_of(self.entries.as_slice(), i)
    }

    /// The bytes of the text that the class at an index names. None exactly where no `Class` is there.
    #[tactic(auto, unfolding(crate::specs::jpool::ConstantPools::class_name_at))]
    pub fn class_name(&self, i: u16) -> Option<&[u8]>
        ensures text { option_map (λ text. text.now) result ≡ class_name_at self.now i }
        ensures class { IsTrue (is_class self.now i) → IsSome result }
    {
        let entries = self.entries.as_slice();
        let name = name_of(entries, i)?;
        text_of(entries, name)
    }

    /// The indices of the name and of the descriptor at an index. None exactly where no `NameAndType` is there.
    pub fn name_and_type(&self, i: u16) -> Option<(u16, u16)>
        ensures { result ≡ name_and_type_at self.now i }
    {
        both_of(self.entries.as_slice(), i)
    }

    /// Puts an entry behind the others, and `Unused` behind one of two indices. After an error the pool is unchanged.
    pub fn push(&mut self, one: Entry) -> Result<(), AllocError>
        requires { IsPool (self.old ++ laid one) }
        ensures ok { OnOk result (self.new ≡ self.old ++ laid one) }
        ensures err { OnErr result (self.new ≡ self.old) }
    {
        lay(&mut self.entries, one)
    }
}
