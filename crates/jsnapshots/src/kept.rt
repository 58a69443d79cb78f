ghost use Rattle.std.specs.Prelude.{◌≡◌, [], ◌<◌, ◌≤◌, ◌++◌, IfOk, OnOk, OnErr, Some, length, take};
ghost use Rattle.std.specs.Option.{option_copied};
ghost use Rattle.jdomain.specs.Domains.{has};
ghost use Rattle.jdomain.specs.DomainStacks.{Privileged, walk};
ghost use Rattle.jsnapshots.specs.SnapshotEntries.{AllBelow, Below, Extends, IsBack};
ghost use Rattle.jsnapshots.specs.SnapshotMeanings.{Keeps, given_at, mark_at, stack_at, stack_of, things};

use crate::entry::KeptEntry;
use crate::mark::InspectMark;
use crate::path::Path;
use crate::table::Table;
use jdomain::{Domains, Verdict};
use jground::jbase::Seq;
use jperm::Permission;
use std::alloc::{AllocError, Global};
use std::marker::Model;

/// The table of kept stacks and of privileges, by numbers from 0 on. Stacks share what lies below. Contracts see the list of its
/// entries, and what each number stands for.
#[derive(Drop)]
pub struct Kept {
    table: Table,
    path: Path,
}

impl Model for Kept {
    ghost use Rattle.std.specs.Prelude.{List, length};
    ghost use Rattle.jsnapshots.specs.declared.entry.KeptEntry.{KeptEntry};

    ghost Value = { List KeptEntry };

    ghost use Rattle.jsnapshots.specs.SnapshotEntries.{Below};
    ghost use Rattle.jsnapshots.specs.SnapshotPath.{Lies};

    ghost view = { λ k. k.table };

    ghost invariant = { λ k. Below (length k.table) k.path.under × Lies k.table k.path.under k.path.frames.items };
}

/// A list of permissions again.
fn copies(alloc: Global, limits: &[Permission]) -> Result<Seq<Permission>, AllocError>
    ensures { IfOk result (λ made. made ≡ limits.now) }
{
    let mut made = Seq::new(alloc);
    for limit in limits {
        made.push(limit.copy(alloc)?)?;
    }
    Ok(made)
}

/// The limits of a privilege again, where there are any.
fn limits_again(
    alloc: Global,
    limits: Option<&[Permission]>,
) -> Result<Option<Seq<Permission>>, AllocError>
    ensures { IfOk result (λ made. made ≡ option_copied limits.entry) }
{
    let Some(limits) = limits else {
        return Ok(None);
    };
    let made = copies(alloc, limits)?;
    Ok(Some(made))
}

impl Kept {
    /// A table that gave no number yet.
    pub fn open(alloc: Global) -> Result<Kept, AllocError>
        ensures { IfOk result (λ kept. kept ≡ []) }
    {
        Ok(Kept {
            table: Table::new(alloc),
            path: Path::new(alloc),
        })
    }

    /// How many numbers were given: those below it.
    pub fn len(&self) -> u64
        ensures { result ≡ length self.now }
    {
        self.table.len()
    }

    /// The number of the stack of marks, the oldest first, on the inherited one. After an error there may be more entries.
    fn keep(&mut self, marks: &[InspectMark], inherited: Option<u64>) -> Result<u64, AllocError>
        requires back { IsBack self.old }
        requires marks { AllBelow (length self.old) marks.now }
        requires inherited { Below (length self.old) inherited }
        ensures given { IfOk result (λ n. n < length self.new) }
        ensures stands { IfOk result (λ n. stack_at (things self.new) (Some n) ≡ stack_of (things self.old) marks.now inherited) }
        ensures grown { Extends self.old self.new }
    {
        let n = self.path.begin(marks, inherited);
        self.path.extend(&mut self.table, &marks[n..])?;
        if let Some(number) = self.path.newest() {
            return Ok(number);
        }
        let number = self.table.add(KeptEntry::Empty)?;
        Ok(number)
    }

    /// Takes all entries but the first ones away.
    fn forget(&mut self, len: u64)
        requires { len ≤ length self.old }
        ensures { self.new ≡ take len self.old }
    {
        self.path.under = None;
        self.path.frames.clear();
        self.table.cut(len);
    }

    /// Keeps the stack of marks, the oldest frame's first, on the inherited one, and answers a number that stands for it. The
    /// numbers of privileges and of the inherited stack are ones that this table gave. Numbers that were given before keep what
    /// they stand for, and after an error the table is unchanged.
    pub fn snapshot(
        &mut self,
        alloc: Global,
        marks: &[InspectMark],
        inherited: Option<u64>,
    ) -> Result<u64, AllocError>
        requires marks { AllBelow (length self.old) marks.now }
        requires inherited { Below (length self.old) inherited }
        ensures given { IfOk result (λ n. n < length self.new) }
        ensures stands { IfOk result (λ n. stack_at (things self.new) (Some n) ≡ stack_of (things self.old) marks.now inherited) }
        ensures earlier { Keeps self.old self.new }
        ensures err { OnErr result (self.new ≡ self.old) }
    {
        let len = self.table.len();
        match self.keep(marks, inherited) {
            Ok(number) => Ok(number),
            Err(_) => {
                self.forget(len);
                Err(AllocError)
            }
        }
    }

    /// Keeps a privilege, and answers a number that stands for its mark. The number of its given stack is one that this table
    /// gave. Numbers that were given before keep what they stand for, and after an error the table is unchanged. All privileges without a
    /// given stack and limits have one number.
    pub fn privilege(
        &mut self,
        alloc: Global,
        given: Option<u64>,
        limits: Option<&[Permission]>,
    ) -> Result<u64, AllocError>
        requires { Below (length self.old) given }
        ensures given { IfOk result (λ n. n < length self.new) }
        ensures stands { IfOk result
            (λ n. mark_at (things self.new) (Some n) ≡ Privileged (given_at (things self.old) given) (option_copied limits.entry)) }
        ensures earlier { Keeps self.old self.new }
        ensures err { OnErr result (self.new ≡ self.old) }
    {
        let limits = limits_again(alloc, limits)?;
        let number = self.table.privilege(given, limits)?;
        Ok(number)
    }

    /// The walk of the stack of marks, the oldest frame's first, on the inherited one, for a permission. The numbers of privileges
    /// and of the inherited stack are ones that this table gave. No kept stack is decided twice.
    pub fn walk(
        &self,
        alloc: Global,
        domains: &Domains,
        marks: &[InspectMark],
        inherited: Option<u64>,
        asked: &Permission,
    ) -> Result<Verdict, AllocError>
        requires marks { AllBelow (length self.now) marks.now }
        requires inherited { Below (length self.now) inherited }
        ensures { IfOk result (λ v. v ≡ walk (has domains.now) asked.now (stack_of (things self.now) marks.now inherited)) }
    {
        self.table.walk(alloc, domains, marks, inherited, asked)
    }
}
