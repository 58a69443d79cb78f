ghost use Rattle.std.specs.Prelude.{◌≡◌, ◌<◌, ◌≤◌, ◌∷◌, [], OnErr, OnOk, Some, drop, length, reverse, slice_get, slice_set, take};
ghost use Rattle.std.specs.List.{flat_map};
ghost use Rattle.jstacks.specs.ListStacks.{bare, closed, from_oldest, on_top, padded, with_newest};

use crate::spread::{Spread, lay};
use std::alloc::{AllocError, Global};
use std::marker::Model;

/// Lists one on the other. Contracts see the newest list and those below it, each with its newest item first. There is always a
/// newest list.
#[derive(Drop)]
pub struct Pile<T> {
    items: Vec<T>,
    start: usize,
    starts: Vec<usize>,
}

impl<T> Model for Pile<T> {
    ghost use Rattle.std.specs.Prelude.{◌≤◌, length, reverse};
    ghost use Rattle.jstacks.specs.ListStacks.{Piled};
    ghost use Rattle.jstacks.specs.ListStarts.{Falls, piled};

    ghost Value = { Piled T };

    ghost view = { λ p. piled p.start (reverse p.starts.items) p.items.items };

    ghost invariant = { λ p. (p.start ≤ length p.items.items) × Falls p.start (reverse p.starts.items) };
}

impl<T: Copy> Pile<T> {
    /// An empty list alone. It takes no memory.
    #[tactic(auto, unfolding(crate::specs::ListStarts::lists_of, crate::specs::ListStarts::Falls))]
    pub fn new(alloc: Global) -> Pile<T>
        ensures { result ≡ bare }
    {
        Pile {
            items: Vec::new(alloc),
            start: 0,
            starts: Vec::new(alloc),
        }
    }

    /// How many items the newest list has.
    #[inline]
    pub fn len(&self) -> usize
        ensures { result ≡ length self.now.newest }
    {
        self.items.len() - self.start
    }

    /// An item of the newest list, counted from its newest. It is there.
    #[inline]
    pub fn get(&self, i: usize) -> T
        requires { i < length self.now.newest }
        ensures { Some result ≡ slice_get self.now.newest i }
    {
        self.items[self.items.len() - 1 - i]
    }

    /// Puts another item in the place of one of the newest list, counted from its newest. It is there.
    #[inline]
    pub fn set(&mut self, i: usize, item: T)
        requires { i < length self.old.newest }
        ensures { self.new ≡ with_newest (slice_set self.old.newest i item) self.old }
    {
        let at = self.items.len() - 1 - i;
        self.items[at] = item;
    }

    /// An item of the newest list, counted from its oldest. It is there.
    #[inline]
    pub fn at(&self, i: usize) -> T
        requires { i < length self.now.newest }
        ensures { Some result ≡ slice_get (from_oldest self.now) i }
    {
        self.items[self.start + i]
    }

    /// Puts another item in the place of one of the newest list, counted from its oldest. It is there.
    #[inline]
    pub fn set_at(&mut self, i: usize, item: T)
        requires { i < length self.old.newest }
        ensures newest { from_oldest self.new ≡ slice_set (from_oldest self.old) i item }
        ensures below { self.new.below ≡ self.old.below }
    {
        let at = self.start + i;
        self.items[at] = item;
    }

    /// Takes room for so many more items, so that as many pushes behind it take no memory.
    #[inline]
    pub fn reserve(&mut self, more: usize) -> Result<(), AllocError>
        ensures { self.new ≡ self.old }
    {
        self.items.reserve(more)
    }

    /// Puts an item on the newest list. After an error the pile is unchanged.
    #[inline]
    pub fn push(&mut self, item: T) -> Result<(), AllocError>
        ensures ok { OnOk result (self.new ≡ with_newest (item ∷ self.old.newest) self.old) }
        ensures err { OnErr result (self.new ≡ self.old) }
    {
        self.items.push(item)?;
        Ok(())
    }

    /// Takes so many of the newest items of the newest list away. They are there.
    #[inline]
    pub fn shrink(&mut self, n: usize)
        requires { n ≤ length self.old.newest }
        ensures { self.new ≡ with_newest (drop n self.old.newest) self.old }
    {
        self.items.truncate(self.items.len() - n);
    }

    /// Takes the newest item of the newest list away. It is there.
    #[inline]
    pub fn pop(&mut self) -> T
        requires { 0 < length self.old.newest }
        ensures item { Some result ≡ slice_get self.old.newest 0 }
        ensures rest { self.new ≡ with_newest (drop 1 self.old.newest) self.old }
    {
        let item = self.get(0);
        self.shrink(1);
        item
    }

    /// The newest items of the newest list, lent, the oldest of them first. They are there.
    #[inline]
    pub fn top(&self, n: usize) -> &[T]
        requires { n ≤ length self.now.newest }
        ensures { result.now ≡ reverse (take n self.now.newest) }
    {
        &self.items[self.items.len() - n..]
    }

    /// Puts an empty list on top. After an error the pile is unchanged.
    #[inline]
    pub fn open(&mut self) -> Result<(), AllocError>
        ensures ok { OnOk result (self.new ≡ on_top [] self.old) }
        ensures err { OnErr result (self.new ≡ self.old) }
    {
        self.starts.push(self.start)?;
        self.start = self.items.len();
        Ok(())
    }

    /// Puts a list on top that holds, from its oldest item on, the parts of the given items, and behind them another item until there
    /// are `len`, where the parts are fewer. After an error the pile is unchanged.
    pub fn open_from<S: Copy, W: Spread<S, T>>(
        &mut self,
        given: &[S],
        len: u32,
        rest: T,
    ) -> Result<(), AllocError>
        ensures newest { OnOk result (from_oldest self.new ≡ padded len rest (flat_map W.spread given.now)) }
        ensures below { OnOk result (self.new.below ≡ self.old.newest ∷ self.old.below) }
        ensures err { OnErr result (self.new ≡ self.old) }
    {
        self.open()?;
        if lay::<S, T, W>(&mut self.items, given, len, rest).is_err() {
            self.close();
            return Err(AllocError);
        }
        Ok(())
    }

    /// Takes the newest list away; of a list alone its items.
    #[inline]
    pub fn close(&mut self)
        ensures { self.new ≡ closed self.old }
    {
        self.items.truncate(self.start);
        self.start = self.starts.pop().unwrap_or(0);
    }
}
