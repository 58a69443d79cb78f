ghost use Rattle.std.specs.Prelude.{◌≡◌, ◌<◌, ◌∷◌, ◌++◌, [], IfOk, IfSome, None, OnErr, OnOk, Some, get_or, length, map, option_map, slice_get, true};
ghost use Rattle.std.specs.Option.{option_copied};
ghost use Rattle.jdomain.specs.Domains.{has};
ghost use Rattle.jctx.specs.Contexts as contexts;
ghost use Rattle.jctx.specs.ContextLaws.{IsKept};
ghost use Rattle.jinterned.specs.ContextDigests;
ghost use Rattle.jinterned.specs.PairLists.{Extends};
ghost use Rattle.jinterned.specs.LimitSets.{AreSets};
ghost use Rattle.jinterned.specs.ContextStores.{AllNamed, AreNamed, HoldsList, Stored, context_in, items_of};
ghost use Rattle.jinterned.specs.InternedContexts.{IsNew, alike, begins_with, same_pair};

use crate::alike::holds_at;
use crate::digest::digest_pairs;
use crate::index::Index;
use crate::lists::Lists;
use crate::making::{add_behind, add_given, add_others, begin, decide};
use crate::pairs::Pair;
use crate::sets::Sets;
use jdomain::{Domains, Verdict};
use jperm::{Permission, permission_laws};
use std::alloc::{AllocError, Global};
use std::marker::Model;

/// Contexts as lists of pairs, by number, and limits by number. Contracts see the lists of both.
#[derive(Drop)]
pub struct Store {
    sets: Sets,
    lists: Lists,
    index: Index,
}

impl Model for Store {
    ghost use Rattle.std.specs.Prelude.{◌≡◌, List, length, map};
    ghost use Rattle.jinterned.specs.ContextDigests.{digest_pairs};
    ghost use Rattle.jinterned.specs.ContextStores.{AllNamed, Stored};

    ghost Value = { Stored };

    ghost view = { λ s. record { sets = s.sets; lists = s.lists } };

    ghost invariant = { λ s. AllNamed (length s.sets) s.lists × (s.index ≡ map digest_pairs s.lists) };
}

/// Puts a list and its digest behind the others. After an error all is as before.
fn put_behind(
    alloc: Global,
    lists: &mut Lists,
    index: &mut Index,
    pairs: &[Pair],
    digest: u64,
) -> Result<(), AllocError>
    ensures lists { OnOk result (lists.new ≡ lists.old ++ pairs.now ∷ []) }
    ensures index { OnOk result (index.new ≡ index.old ++ digest ∷ []) }
    ensures same_lists { OnErr result (lists.new ≡ lists.old) }
    ensures same_index { OnErr result (index.new ≡ index.old) }
{
    let count = lists.len();
    lists.push(alloc, pairs)?;
    if index.add(digest).is_err() {
        lists.truncate(count);
        return Err(AllocError);
    }
    Ok(())
}

impl Store {
    /// The empty context alone.
    pub fn open(alloc: Global) -> Result<Store, AllocError>
        ensures { IfOk result (λ s. s ≡ record { sets = [] ∷ []; lists = [] ∷ [] }) }
    {
        let sets = Sets::open(alloc)?;
        let mut lists = Lists::new(alloc);
        let mut index = Index::open(alloc)?;
        index.add(digest_pairs(&[]))?;
        lists.push(alloc, &[])?;
        Ok(Store { sets, lists, index })
    }

    /// The laws: no two lists of limits are equal, and each pair's limits are there. It does nothing; its contract is the laws.
    pub fn named(&self)
        ensures sets { AreSets self.now.sets }
        ensures named { AllNamed (length self.now.sets) self.now.lists }
    {
        self.sets.distinct();
    }

    /// How many contexts there are.
    pub fn len(&self) -> u64
        ensures { result ≡ length self.now.lists }
    {
        self.lists.len() as u64
    }

    /// Whether a context begins with a domain without limits, so that a call within the domain changes nothing.
    #[inline]
    pub fn begins_with(&self, c: u64, d: u32) -> bool
        requires { c < length self.now.lists }
        ensures { result ≡ begins_with (context_in self.now c) d }
    {
        let c = c as usize;
        if self.lists.count(c) == 0 {
            return false;
        }
        let pair = self.lists.head(c);
        if pair.domain != d {
            return false;
        }
        self.sets.get(pair.limits).as_slice().len() == 0
    }

    /// Makes what a domain makes of a context that it enters, none of whose items is covered by an earlier one: its own, and those of other
    /// domains.
    pub fn entered(&self, made: &mut Vec<Pair>, c: u64, d: u32) -> Result<(), AllocError>
        requires there { c < length self.now.lists }
        requires kept { IsKept (context_in self.now c) }
        ensures made { OnOk result (items_of self.now.sets made.new.items ≡ contexts.enter (context_in self.now c) d) }
        ensures named { OnOk result (AreNamed (length self.now.sets) made.new.items) }
    {
        begin(&self.sets, made, d)?;
        add_others(&self.sets, &self.lists, made, c as usize, d)
    }

    /// Makes the context of a privilege that a method of a domain takes in a context. There may be more limits behind.
    pub fn privileged(
        &mut self,
        alloc: Global,
        made: &mut Vec<Pair>,
        d: u32,
        given: Option<u64>,
        limits: Option<&[Permission]>,
        c: u64,
    ) -> Result<(), AllocError>
        requires there { c < length self.old.lists }
        requires given { IfSome given (λ g. g < length self.old.lists) }
        ensures made { OnOk result (items_of self.new.sets made.new.items
            ≡ contexts.privileged d (option_map (context_in self.old) given) (option_copied limits.entry) (context_in self.old c)) }
        ensures named { OnOk result (AreNamed (length self.new.sets) made.new.items) }
        ensures more { Extends self.old.sets self.new.sets }
        ensures lists { self.new.lists ≡ self.old.lists }
    {
        permission_laws();
        begin(&self.sets, made, d)?;
        add_given(&self.sets, &self.lists, made, given)?;
        add_behind(alloc, &mut self.sets, &self.lists, made, limits, c as usize)
    }

    /// The number of a list, where the store holds it.
    fn find(&self, pairs: &[Pair], digest: u64) -> Option<u64>
        requires { digest ≡ ContextDigests.digest_pairs pairs.now }
        ensures found { IfSome result (λ n. slice_get self.now.lists n ≡ Some pairs.now) }
        ensures only { result ≡ None → IsNew self.now.lists pairs.now }
    {
        let mut at = self.index.last(digest);
        while at != 0 {
            let i = at - 1;
            if holds_at(&self.lists, i, pairs) {
                return Some(i as u64);
            }
            at = self.index.find_previous(i, digest);
        }
        None
    }

    /// The number of a list, which is put behind the others where the store doesn't hold it. After an error all is as before.
    pub fn intern(&mut self, alloc: Global, pairs: &[Pair]) -> Result<u64, AllocError>
        requires { AreNamed (length self.old.sets) pairs.now }
        ensures ok { IfOk result (HoldsList self.old.lists pairs.now self.new.lists) }
        ensures err { OnErr result (self.new.lists ≡ self.old.lists) }
        ensures sets { self.new.sets ≡ self.old.sets }
    {
        let digest = digest_pairs(pairs);
        if let Some(n) = self.find(pairs, digest) {
            return Ok(n);
        }
        let n = self.lists.len();
        put_behind(alloc, &mut self.lists, &mut self.index, pairs, digest)?;
        Ok(n as u64)
    }

    /// What a context decides for a permission. It takes no memory.
    pub fn verdict(&self, c: u64, domains: &Domains, asked: &Permission) -> Verdict
        requires { c < length self.now.lists }
        ensures { result ≡ contexts.verdict (has domains.now) asked.now (context_in self.now c) }
    {
        decide(&self.sets, &self.lists, c as usize, domains, asked)
    }
}
