ghost use Rattle.std.specs.Prelude.{◌≡◌, ◌<◌, ◌≤◌, ◌+◌, ◌/◌, ◌∷◌, ◌++◌, [], OnErr, OnOk, Some, drop, length, slice_get, take};
ghost use Rattle.jinterned.specs.PairLists.{BeginsWith};
ghost use Rattle.jinterned.specs.PairRegions.{AreFilled, all_of};

use jground::jbase::Seq;
use std::alloc::{AllocError, Global};
use std::marker::Model;

/// How many pairs a region holds.
const PAIRS: usize = 65536;

/// An item by numbers: that of its limits, which is 0 where it has none, and its domain's.
#[derive(Clone, Copy, Debug, PartialEq, Eq)]
pub struct Pair {
    pub limits: u32,
    pub domain: u32,
}

/// Pairs one behind the other in regions. Contracts see the list of them.
#[derive(Drop)]
pub struct Pairs {
    regions: Vec<Seq<Pair>>,
    count: usize,
}

impl Model for Pairs {
    ghost use Rattle.std.specs.Prelude.{◌≡◌, List, length};
    ghost use Rattle.jinterned.specs.declared.pairs.Pair.{Pair};
    ghost use Rattle.jinterned.specs.PairRegions.{AreFilled, all_of};

    ghost Value = { List Pair };

    ghost view = { λ p. all_of p.regions.items };

    ghost invariant = { λ p. AreFilled p.regions.items × (p.count ≡ length (all_of p.regions.items)) };
}

/// Opens a region where those that are there are full. No pair is lost, whatever the result.
fn open_room(alloc: Global, regions: &mut Vec<Seq<Pair>>, at: usize) -> Result<(), AllocError>
    requires filled { AreFilled regions.old.items }
    requires at { at ≡ length (all_of regions.old.items) / 65536 }
    ensures room { OnOk result (at < length regions.new.items) }
    ensures same { all_of regions.new.items ≡ all_of regions.old.items }
    ensures filled { AreFilled regions.new.items }
{
    if at < regions.len() {
        return Ok(());
    }
    let region = Vec::with_capacity(alloc, PAIRS)?;
    regions.push(Seq::from_vec(region))?;
    Ok(())
}

/// Puts a pair into the region that has room. After an error all is as before.
fn put(regions: &mut Vec<Seq<Pair>>, at: usize, pair: Pair) -> Result<(), AllocError>
    requires filled { AreFilled regions.old.items }
    requires at { at ≡ length (all_of regions.old.items) / 65536 }
    requires room { at < length regions.old.items }
    ensures ok { OnOk result (all_of regions.new.items ≡ all_of regions.old.items ++ pair ∷ []) }
    ensures err { OnErr result (all_of regions.new.items ≡ all_of regions.old.items) }
    ensures filled { AreFilled regions.new.items }
{
    regions[at].push(pair)?;
    Ok(())
}

impl Pairs {
    /// No pairs. It takes no memory.
    pub fn new(alloc: Global) -> Pairs
        ensures { result ≡ [] }
    {
        Pairs {
            regions: Vec::new(alloc),
            count: 0,
        }
    }

    /// How many pairs there are.
    #[inline]
    pub fn len(&self) -> usize
        ensures { result ≡ length self.now }
    {
        self.count
    }

    /// A pair by its place. It is there.
    #[inline]
    pub fn read(&self, k: usize) -> Pair
        requires { k < length self.now }
        ensures { Some result ≡ slice_get self.now k }
    {
        self.regions[k / PAIRS].as_slice()[k % PAIRS]
    }

    /// The pairs from a place on that lie in its region, and at most so many, lent. They are there.
    #[inline]
    pub fn run(&self, k: usize, most: usize) -> &[Pair]
        requires some { 0 < most }
        requires there { k + most ≤ length self.now }
        ensures { BeginsWith (take most (drop k self.now)) result.now }
    {
        let region = self.regions[k / PAIRS].as_slice();
        let (_, behind) = region.split_at(k % PAIRS);
        if most < behind.len() {
            return behind.split_at(most).0;
        }
        behind
    }

    /// Puts a pair behind the others. After an error all is as before.
    pub fn push(&mut self, alloc: Global, pair: Pair) -> Result<(), AllocError>
        ensures ok { OnOk result (self.new ≡ self.old ++ pair ∷ []) }
        ensures err { OnErr result (self.new ≡ self.old) }
    {
        let Some(count) = self.count.checked_add(1) else {
            return Err(AllocError);
        };
        let at = self.count / PAIRS;
        open_room(alloc, &mut self.regions, at)?;
        put(&mut self.regions, at, pair)?;
        self.count = count;
        Ok(())
    }
}
