ghost use Rattle.std.specs.Prelude.{◌≡◌, ◌<◌, IfOk, length, map, slice_get, Some};
ghost use Rattle.jdomain.specs.Domains.{granted, has};

use crate::lists::{Lists, lists_of};
use crate::share::shares_of;
use crate::source::CodeSource;
use jground::jtext::Units;
use jperm::Permission;
use jpolicy::Policy;
use std::alloc::{AllocError, Global};
use std::marker::Model;

/// The domains of a job: the permissions that a policy grants to each code source. Contracts see the list of their lists. Sources to
/// which the same grants are given share one.
#[derive(Drop)]
pub struct Domains {
    lists: Lists,
}

impl Model for Domains {
    ghost use Rattle.std.specs.Prelude.{◌<◌, All, List, length, map};
    ghost use Rattle.jperm.specs.declared.permission.Permission.{Permission};
    ghost use Rattle.jdomain.specs.GrantShares.{list_at};

    ghost Value = { List (List Permission) };

    ghost view = { λ d. map (list_at d.lists.all) d.lists.numbers };

    ghost invariant = { λ d. All (λ k. k < length d.lists.all) d.lists.numbers };
}

impl Domains {
    /// The domains of code sources, numbered from 0 in their order. A domain's list has the permissions of all grants that
    /// are for its source, in the order of the policy. Names of files are read in the directory `cwd`, an absolute path.
    #[tactic(auto, using(crate::proofs::GrantedShares::all_taken))]
    pub fn open(
        alloc: Global,
        policy: &Policy,
        sources: &[CodeSource],
        cwd: &Units,
    ) -> Result<Domains, AllocError>
        ensures { IfOk result (λ domains. domains ≡ map (granted cwd.now policy.now) sources.now) }
    {
        let shares = shares_of(alloc, policy.as_slice(), cwd)?;
        let lists = lists_of(alloc, shares.as_slice(), sources)?;
        Ok(Domains { lists })
    }

    /// Whether a domain has a permission: whether its list covers it. A number that names no source has none.
    pub fn implies(&self, d: u32, asked: &Permission) -> bool
        ensures { result ≡ has self.now d asked.now }
    {
        match self.lists.numbers.as_slice().get(d as usize) {
            Some(number) => self.lists.all.as_slice()[*number].covers(asked),
            None => false,
        }
    }

    /// The permissions of a domain, in the order of the policy.
    pub fn list(&self, d: u32) -> &[Permission]
        requires { d < length self.now }
        ensures { slice_get self.now d ≡ Some result.now }
    {
        let number = self.lists.numbers.as_slice()[d as usize];
        self.lists.all.as_slice()[number].as_slice()
    }
}
