ghost use Rattle.std.specs.Prelude.{◌≡◌, [], ◌<◌, ◌≤◌, ◌∷◌, ◌++◌, IfOk, OnOk, OnErr, Some, length, slice_get, take};
ghost use Rattle.jdomain.specs.DomainStacks.{Nothing, Privileged};
ghost use Rattle.jsnapshots.specs.SnapshotEntries.{Below, EntryBelow, Extends, IsBack};
ghost use Rattle.jsnapshots.specs.SnapshotMeanings.{given_at, mark_at, things};

use crate::entry::KeptEntry;
use jground::jbase::Seq;
use jperm::Permission;
use std::alloc::{AllocError, Global};
use std::marker::Model;

/// The entries of a table, by number. Each speaks of earlier ones alone.
#[derive(Drop)]
pub struct Table {
    entries: Vec<KeptEntry>,
    /// The number of the privilege without a given stack and limits, once there is one.
    plain: Option<u64>,
}

impl Model for Table {
    ghost use Rattle.std.specs.Prelude.{List};
    ghost use Rattle.jsnapshots.specs.declared.entry.KeptEntry.{KeptEntry};

    ghost Value = { List KeptEntry };

    ghost use Rattle.jsnapshots.specs.SnapshotEntries.{IsBack};
    ghost use Rattle.jsnapshots.specs.SnapshotMeanings.{IsPlain};

    ghost view = { λ t. t.entries.items };

    ghost invariant = { λ t. IsBack t.entries.items × IsPlain t.entries.items t.plain };
}

impl Table {
    /// A table without entries. It takes no memory.
    pub fn new(alloc: Global) -> Table
        ensures { result ≡ [] }
    {
        Table {
            entries: Vec::new(alloc),
            plain: None,
        }
    }

    /// How many entries there are.
    pub fn len(&self) -> u64
        ensures value { result ≡ length self.now }
        ensures back { IsBack self.now }
    {
        self.entries.len() as u64
    }

    /// The entry of a number.
    pub fn get(&self, n: u64) -> &KeptEntry
        requires { n < length self.now }
        ensures entry { slice_get self.now n ≡ Some result.now }
        ensures back { IsBack self.now }
    {
        &self.entries[n as usize]
    }

    /// Adds an entry that speaks of those that are there, and answers its number. After an error the table is unchanged.
    pub fn add(&mut self, entry: KeptEntry) -> Result<u64, AllocError>
        requires { EntryBelow (length self.old) entry }
        ensures number { IfOk result (λ n. n ≡ length self.old) }
        ensures grown { OnOk result (self.new ≡ self.old ++ entry ∷ []) }
        ensures back { IsBack self.new }
        ensures err { OnErr result (self.new ≡ self.old) }
    {
        let n = self.entries.len();
        self.entries.push(entry)?;
        Ok(n as u64)
    }

    /// Takes all entries but the first ones away.
    pub fn cut(&mut self, len: u64)
        requires { len ≤ length self.old }
        ensures { self.new ≡ take len self.old }
    {
        self.plain = None;
        self.entries.truncate(len as usize);
    }

    // ---- privileges

    /// Adds a privilege of its own number.
    fn own(
        &mut self,
        given: Option<u64>,
        limits: Option<Seq<Permission>>,
    ) -> Result<u64, AllocError>
        requires { Below (length self.old) given }
        ensures given { IfOk result (λ n. n < length self.new) }
        ensures stands { IfOk result (λ n. mark_at (things self.new) (Some n) ≡ Privileged (given_at (things self.old) given) limits) }
        ensures grown { OnOk result (Extends self.old self.new) }
        ensures err { OnErr result (self.new ≡ self.old) }
    {
        let number = self.add(KeptEntry::Privilege { given, limits })?;
        Ok(number)
    }

    /// The privilege without a given stack and limits. It is added once.
    fn plain(&mut self) -> Result<u64, AllocError>
        ensures given { IfOk result (λ n. n < length self.new) }
        ensures stands { IfOk result (λ n. mark_at (things self.new) (Some n) ≡ Privileged Nothing None) }
        ensures grown { OnOk result (Extends self.old self.new) }
        ensures err { OnErr result (self.new ≡ self.old) }
    {
        if let Some(number) = self.plain {
            return Ok(number);
        }
        let number = self.own(None, None)?;
        self.plain = Some(number);
        Ok(number)
    }

    /// Adds a privilege without limits.
    fn unlimited(&mut self, given: Option<u64>) -> Result<u64, AllocError>
        requires { Below (length self.old) given }
        ensures given { IfOk result (λ n. n < length self.new) }
        ensures stands { IfOk result (λ n. mark_at (things self.new) (Some n) ≡ Privileged (given_at (things self.old) given) None) }
        ensures grown { OnOk result (Extends self.old self.new) }
        ensures err { OnErr result (self.new ≡ self.old) }
    {
        match given {
            None => self.plain(),
            Some(_) => self.own(given, None),
        }
    }

    /// Adds a privilege, and answers its number, which is one for all that have neither a given stack nor limits. After an error the
    /// table is unchanged.
    pub fn privilege(
        &mut self,
        given: Option<u64>,
        limits: Option<Seq<Permission>>,
    ) -> Result<u64, AllocError>
        requires { Below (length self.old) given }
        ensures given { IfOk result (λ n. n < length self.new) }
        ensures stands { IfOk result (λ n. mark_at (things self.new) (Some n) ≡ Privileged (given_at (things self.old) given) limits) }
        ensures grown { OnOk result (Extends self.old self.new) }
        ensures err { OnErr result (self.new ≡ self.old) }
    {
        match limits {
            None => self.unlimited(given),
            Some(limits) => self.own(given, Some(limits)),
        }
    }
}
