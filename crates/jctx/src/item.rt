ghost use Rattle.std.specs.Prelude.{◌≡◌, IfOk};
ghost use Rattle.jdomain.specs.Domains.{has};
ghost use Rattle.jctx.specs.ContextItems.{fails, covers, plain, with_limits};

use crate::limits::Limits;
use jdomain::Domains;
use jperm::Permission;
use std::alloc::{AllocError, Global};

/// A domain that is asked, where none of the limits implies the permission.
#[derive(Drop)]
pub struct Item {
    /// No limits ask the domain about every permission.
    pub limits: Limits,
    pub domain: u32,
}

impl Item {
    /// The item of a domain without limits. It takes no memory.
    pub fn plain(alloc: Global, d: u32) -> Item
        ensures { result ≡ plain d }
    {
        Item {
            limits: Limits::new(alloc),
            domain: d,
        }
    }

    /// Whether the domain lacks a permission and none of the limits implies it.
    pub fn fails(&self, domains: &Domains, asked: &Permission) -> bool
        ensures { result ≡ fails (has domains.now) asked.now self.now }
    {
        !domains.implies(self.domain, asked) && !self.limits.imply(asked)
    }

    /// Whether another item has this domain and all of these limits.
    pub fn covers(&self, other: &Item) -> bool
        ensures { result ≡ covers self.now other.now }
    {
        self.domain == other.domain && self.limits.is_within(&other.limits)
    }

    /// The same item again.
    pub fn copy(&self, alloc: Global) -> Result<Item, AllocError>
        ensures { IfOk result (λ i. i ≡ self.now) }
    {
        Ok(Item {
            limits: self.limits.copy(alloc)?,
            domain: self.domain,
        })
    }

    /// The item with limits added, each left out that equals one already there.
    pub fn with_limits(&self, alloc: Global, new: &[Permission]) -> Result<Item, AllocError>
        ensures { IfOk result (λ i. i ≡ with_limits new.now self.now) }
    {
        let mut limits = self.limits.copy(alloc)?;
        limits.add(alloc, new)?;
        Ok(Item {
            limits,
            domain: self.domain,
        })
    }
}
