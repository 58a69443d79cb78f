ghost use Rattle.std.specs.Prelude.{◌≡◌, [], IfOk, OnOk};
ghost use Rattle.std.specs.List.{list_any};
ghost use Rattle.jperm.specs.Permissions.{equal};
ghost use Rattle.jdomain.specs.DomainStacks.{some_implies};
ghost use Rattle.jctx.specs.PrivilegeLimits.{add_limits, is_within};

use jperm::Permission;
use std::alloc::{AllocError, Global};
use std::marker::Model;

/// The limits under which a domain is asked, in the order in which they came. Contracts see the list of them.
#[derive(Drop)]
pub struct Limits {
    members: Vec<Permission>,
}

impl Model for Limits {
    ghost use Rattle.std.specs.Prelude.{List};
    ghost use Rattle.jperm.specs.declared.permission.Permission.{Permission};

    ghost Value = { List Permission };

    ghost view = { λ l. l.members.items };
}

impl Limits {
    /// No limits. It takes no memory.
    pub fn new(alloc: Global) -> Limits
        ensures { result ≡ [] }
    {
        Limits {
            members: Vec::new(alloc),
        }
    }

    /// The limits, lent.
    pub fn as_slice(&self) -> &[Permission]
        ensures { result.now ≡ self.now }
    {
        self.members.as_slice()
    }

    /// Whether one of the limits by itself implies a permission.
    #[tactic(auto, unfolding(jdomain::specs::DomainStacks::some_implies))]
    pub fn imply(&self, asked: &Permission) -> bool
        ensures { result ≡ some_implies self.now asked.now }
    {
        self.members.iter().any(|q| q.implies(asked))
    }

    /// Whether one of the limits equals a permission.
    fn contains(&self, p: &Permission) -> bool
        ensures { result ≡ list_any (equal p.now) self.now }
    {
        self.members.iter().any(|q| p.equal(q))
    }

    /// Whether each of the limits is one of the others.
    pub fn is_within(&self, others: &Limits) -> bool
        ensures { result ≡ is_within self.now others.now }
    {
        self.members.iter().all(|p| others.contains(p))
    }

    /// The same limits again.
    pub fn copy(&self, alloc: Global) -> Result<Limits, AllocError>
        ensures { IfOk result (λ l. l ≡ self.now) }
    {
        let mut made = Limits::new(alloc);
        for p in &self.members {
            made.members.push(p.copy(alloc)?)?;
        }
        Ok(made)
    }

    /// Adds each of the new permissions that doesn't equal one already there.
    pub fn add(&mut self, alloc: Global, new: &[Permission]) -> Result<(), AllocError>
        ensures { OnOk result (self.new ≡ add_limits self.old new.now) }
    {
        for p in new {
            if !self.contains(p) {
                self.members.push(p.copy(alloc)?)?;
            }
        }
        Ok(())
    }
}
