ghost use Rattle.std.specs.Prelude.{◌≡◌, ◌<◌, ◌∷◌, ◌++◌, [], IfOk, IfSome, None, OnErr, OnOk, Some, length, map, slice_get};
ghost use Rattle.jctx.specs.PrivilegeLimits as limits;
ghost use Rattle.jinterned.specs.ContextDigests;
ghost use Rattle.jinterned.specs.PairLists.{Extends};
ghost use Rattle.jinterned.specs.LimitSets.{AreSets, limits_at};
ghost use Rattle.jinterned.specs.InternedContexts.{IsNew, same_limits};

use crate::alike::are_same;
use crate::digest::digest_limits;
use crate::index::Index;
use crate::limits::{are_within, with_new};
use jground::jbase::Seq;
use jperm::{Permission, permission_laws};
use std::alloc::{AllocError, Global};
use std::marker::Model;

/// Lists of limits by number, each once. Number 0 is none. Contracts see the list of them.
#[derive(Drop)]
pub struct Sets {
    sets: Vec<Seq<Permission>>,
    index: Index,
}

impl Model for Sets {
    ghost use Rattle.std.specs.Prelude.{◌≡◌, List, map};
    ghost use Rattle.jperm.specs.declared.permission.Permission.{Permission};
    ghost use Rattle.jinterned.specs.ContextDigests.{digest_limits};
    ghost use Rattle.jinterned.specs.LimitSets.{AreSets};

    ghost Value = { List (List Permission) };

    ghost view = { λ s. s.sets.items };

    ghost invariant = { λ s. AreSets s.sets.items × (s.index ≡ map digest_limits s.sets.items) };
}

/// Puts limits and their digest behind the others. After an error all is as before.
fn put_behind(
    sets: &mut Vec<Seq<Permission>>,
    index: &mut Index,
    limits: Seq<Permission>,
    digest: u64,
) -> Result<(), AllocError>
    ensures sets { OnOk result (sets.new.items ≡ sets.old.items ++ limits ∷ []) }
    ensures index { OnOk result (index.new ≡ index.old ++ digest ∷ []) }
    ensures same_sets { OnErr result (sets.new.items ≡ sets.old.items) }
    ensures same_index { OnErr result (index.new ≡ index.old) }
{
    let count = sets.len();
    sets.push(limits)?;
    if index.add(digest).is_err() {
        sets.truncate(count);
        return Err(AllocError);
    }
    Ok(())
}

/// A number that fits half a cell; that of more than 4,294,967,296 lists of limits doesn't.
fn narrowed(n: u64) -> Result<u32, AllocError>
    ensures { IfOk result (λ m. m ≡ n) }
{
    match u32::try_from(n) {
        Ok(m) => Ok(m),
        Err(_) => Err(AllocError),
    }
}

impl Sets {
    /// No limits alone.
    pub fn open(alloc: Global) -> Result<Sets, AllocError>
        ensures { IfOk result (λ s. s ≡ [] ∷ []) }
    {
        let mut sets = Vec::new(alloc);
        let limits: Seq<Permission> = Seq::new(alloc);
        let mut index = Index::open(alloc)?;
        index.add(digest_limits(&limits))?;
        sets.push(limits)?;
        Ok(Sets { sets, index })
    }

    /// The laws: number 0 is none, and no two lists of limits are equal. It does nothing; its contract is the laws.
    pub fn distinct(&self)
        ensures { AreSets self.now }
    {
        let _ = self.sets.len();
    }

    /// The limits of a number. They are there.
    #[inline]
    pub fn get(&self, n: u32) -> &Seq<Permission>
        requires { n < length self.now }
        ensures { slice_get self.now n ≡ Some result.now }
    {
        &self.sets[n as usize]
    }

    /// Whether each of the limits of a number is one of those of another.
    #[tactic(auto, using(crate::proofs::LimitNumbers::within_none, crate::proofs::LimitNumbers::within_equal, crate::proofs::LimitNumbers::within_read),)]
    pub fn is_within(&self, a: u32, b: u32) -> bool
        requires a { a < length self.now }
        requires b { b < length self.now }
        ensures { result ≡ limits.is_within (limits_at self.now a) (limits_at self.now b) }
    {
        permission_laws();
        self.distinct();
        if a == 0 {
            return true;
        }
        if a == b {
            return true;
        }
        are_within(self.get(a).as_slice(), self.get(b).as_slice())
    }

    /// The number of limits, where they are there.
    fn find(&self, limits: &Seq<Permission>, digest: u64) -> Option<u64>
        requires { digest ≡ ContextDigests.digest_limits limits.now }
        ensures found { IfSome result (λ n. slice_get self.now n ≡ Some limits.now) }
        ensures only { result ≡ None → IsNew self.now limits.now }
    {
        permission_laws();
        let mut at = self.index.last(digest);
        while at != 0 {
            let i = at - 1;
            if are_same(&self.sets[i], limits) {
                return Some(i as u64);
            }
            at = self.index.find_previous(i, digest);
        }
        None
    }

    /// The number of limits, which are put behind the others where they aren't there.
    fn intern(&mut self, limits: Seq<Permission>) -> Result<u32, AllocError>
        ensures ok { IfOk result (λ n. slice_get self.new n ≡ Some limits) }
        ensures more { Extends self.old self.new }
    {
        let digest = digest_limits(&limits);
        if let Some(n) = self.find(&limits, digest) {
            return narrowed(n);
        }
        let n = self.sets.len();
        put_behind(&mut self.sets, &mut self.index, limits, digest)?;
        narrowed(n as u64)
    }

    /// The number of the limits of another with new ones added.
    pub fn add(&mut self, alloc: Global, n: u32, new: &[Permission]) -> Result<u32, AllocError>
        requires { n < length self.old }
        ensures ok { IfOk result (λ m. slice_get self.new m ≡ Some (limits.add_limits (limits_at self.old n) new.now)) }
        ensures more { Extends self.old self.new }
    {
        let limits = with_new(alloc, self.get(n), new)?;
        self.intern(limits)
    }
}
