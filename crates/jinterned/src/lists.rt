ghost use Rattle.std.specs.Prelude.{◌≡◌, ◌<◌, ◌≤◌, ◌∷◌, ◌++◌, [], OnErr, OnOk, Some, drop, get_or, length, slice_get, take};
ghost use Rattle.jinterned.specs.PairLists.{BeginsWith, Extends, IsAt};

use crate::pairs::{Pair, Pairs};
use std::alloc::{AllocError, Global};
use std::marker::Model;

/// A list of pairs: the place of its first, how many they are, and its first two themselves. Where it has fewer, these are any.
#[derive(Clone, Copy)]
pub struct Entry {
    first: usize,
    count: usize,
    head: Pair,
    next: Pair,
}

/// Lists of pairs by number. Contracts see the list of them.
#[derive(Drop)]
pub struct Lists {
    pairs: Pairs,
    entries: Vec<Entry>,
}

impl Model for Lists {
    ghost use Rattle.std.specs.Prelude.{List, length};
    ghost use Rattle.jinterned.specs.declared.pairs.Pair.{Pair};
    ghost use Rattle.jinterned.specs.PairLists.{AreWithin, KeepFronts, lists_of};

    ghost Value = { List (List Pair) };

    ghost view = { λ l. lists_of l.pairs l.entries.items };

    ghost invariant = { λ l. AreWithin (length l.pairs) l.entries.items × KeepFronts l.pairs l.entries.items };
}

/// Puts pairs behind the others. After an error some of them are there.
fn push_all(alloc: Global, pairs: &mut Pairs, list: &[Pair]) -> Result<(), AllocError>
    ensures ok { OnOk result (pairs.new ≡ pairs.old ++ list.now) }
    ensures more { Extends pairs.old pairs.new }
{
    for pair in list {
        pairs.push(alloc, *pair)?;
    }
    Ok(())
}

/// A list's pair at a place, or any where it has none there.
fn pair_at(list: &[Pair], i: usize) -> Pair
    ensures { IsAt i list.now result }
{
    match list.get(i) {
        Some(pair) => *pair,
        None => Pair {
            limits: 0,
            domain: 0,
        },
    }
}

impl Lists {
    /// No lists. It takes no memory.
    pub fn new(alloc: Global) -> Lists
        ensures { result ≡ [] }
    {
        Lists {
            pairs: Pairs::new(alloc),
            entries: Vec::new(alloc),
        }
    }

    /// How many lists there are.
    #[inline]
    pub fn len(&self) -> usize
        ensures { result ≡ length self.now }
    {
        self.entries.len()
    }

    /// How many pairs a list has. It is there.
    #[inline]
    pub fn count(&self, n: usize) -> usize
        requires { n < length self.now }
        ensures { result ≡ length (get_or self.now n []) }
    {
        self.entries[n].count
    }

    /// The first pair of a list. It is there.
    #[inline]
    pub fn head(&self, n: usize) -> Pair
        requires list { n < length self.now }
        requires pair { 0 < length (get_or self.now n []) }
        ensures { Some result ≡ slice_get (get_or self.now n []) 0 }
    {
        self.entries[n].head
    }

    /// The second pair of a list. It is there.
    #[inline]
    pub fn next(&self, n: usize) -> Pair
        requires list { n < length self.now }
        requires pair { 1 < length (get_or self.now n []) }
        ensures { Some result ≡ slice_get (get_or self.now n []) 1 }
    {
        self.entries[n].next
    }

    /// A pair of a list. It is there.
    #[inline]
    pub fn read(&self, n: usize, i: usize) -> Pair
        requires list { n < length self.now }
        requires pair { i < length (get_or self.now n []) }
        ensures { Some result ≡ slice_get (get_or self.now n []) i }
    {
        // What the proof needs: a pair's place fits its type.
        let _ = self.pairs.len();
        let first = self.entries[n].first;
        self.pairs.read(first + i)
    }

    /// The pairs of a list from one on that lie in its region, lent. That one is there.
    #[inline]
    pub fn run(&self, n: usize, i: usize) -> &[Pair]
        requires list { n < length self.now }
        requires pair { i < length (get_or self.now n []) }
        ensures { BeginsWith (drop i (get_or self.now n [])) result.now }
    {
        // What the proof needs: a pair's place fits its type.
        let _ = self.pairs.len();
        let entry = self.entries[n];
        self.pairs.run(entry.first + i, entry.count - i)
    }

    /// Puts a list behind the others. After an error all is as before.
    pub fn push(&mut self, alloc: Global, list: &[Pair]) -> Result<(), AllocError>
        ensures ok { OnOk result (self.new ≡ self.old ++ list.now ∷ []) }
        ensures err { OnErr result (self.new ≡ self.old) }
    {
        let first = self.pairs.len();
        let count = list.len();
        push_all(alloc, &mut self.pairs, list)?;
        let head = pair_at(list, 0);
        let next = pair_at(list, 1);
        self.entries.push(Entry {
            first,
            count,
            head,
            next,
        })?;
        Ok(())
    }

    /// Keeps so many lists, which are there.
    pub fn truncate(&mut self, count: usize)
        requires { count ≤ length self.old }
        ensures { self.new ≡ take count self.old }
    {
        self.entries.truncate(count);
    }
}
