ghost use Rattle.std.specs.Prelude.{◌≡◌, ◌∷◌, ◌++◌, ◌+◌, [], ◌<◌, ◌≤◌, ℕ, ℤ, IfOk, List, Some, length, slice_get};
ghost use Rattle.jresolution.specs.juses.IndexedInstructions.{Switch};
ghost use Rattle.jsemantics.specs.jmachine.BasicInstructions.{case_of};
ghost use Rattle.jready.specs.DecodedInstructions.{lookup_meant, table_meant};
ghost use Rattle.jready.specs.TableGrowth.{AreThere, Grown, part};

use crate::instr::{Lookup, Table};
use crate::keyed::{keyed_to, rising_to};
use jground::jbase::Seq;
use jresolution::juses::{ArrayRef, Key, Span};
use std::alloc::{AllocError, Global};

/// What instructions name by number, as it is too large for them.
#[derive(Debug, Drop)]
pub struct Tables {
    pub longs: Seq<i64>,
    /// Where switches go on whose keys rise by one.
    pub targets: Seq<u32>,
    /// The keys of the other switches, each with where it goes on.
    pub keys: Seq<Key>,
    /// The types of the arrays of references that instructions make.
    pub arrays: Seq<ArrayRef>,
}

/// The number of the next item behind so many. There is no room for more than 2 ^ 32 - 1.
pub(crate) fn next_number(len: usize) -> Result<u32, AllocError>
    ensures { IfOk result (λ n. n ≡ len) }
{
    if len > u32::MAX as usize {
        return Err(AllocError);
    }
    Ok(len as u32)
}

/// Puts an item behind others, and answers its number.
fn put<T: Drop>(items: &mut Seq<T>, item: T) -> Result<u32, AllocError>
    ensures { IfOk result (λ n. (n ≡ length items.old) × (items.new ≡ items.old ++ item ∷ [])) }
{
    let number = next_number(items.as_slice().len())?;
    items.push(item)?;
    Ok(number)
}

/// Puts items behind others, and says where they stand.
fn put_all<T: Copy>(items: &mut Seq<T>, more: &[T]) -> Result<Span, AllocError>
    ensures { IfOk result (λ s. (s.first ≡ length items.old) × (s.count ≡ length more.now) × (items.new ≡ items.old ++ more.now)) }
{
    let first = next_number(items.as_slice().len())?;
    let count = next_number(more.len())?;
    items.extend(more)?;
    Ok(Span { first, count })
}

impl Tables {
    /// Nothing is named yet. It takes no memory.
    pub(crate) fn new(alloc: Global) -> Tables {
        Tables {
            longs: Seq::new(alloc),
            targets: Seq::new(alloc),
            keys: Seq::new(alloc),
            arrays: Seq::new(alloc),
        }
    }

    /// The number of a long.
    pub(crate) fn put_long(&mut self, n: i64) -> Result<u32, AllocError>
        ensures own { IfOk result (λ k. slice_get self.new.longs k ≡ Some n) }
        ensures there { IfOk result (λ k. k < length self.new.longs) }
        ensures grown { IfOk result (λ k. Grown self.old self.new) }
    {
        put(&mut self.longs, n)
    }

    /// The number of a target.
    pub(crate) fn put_target(&mut self, to: u32) -> Result<u32, AllocError>
        ensures there { IfOk result (λ k. (k ≡ length self.old.targets) × (self.new.targets ≡ self.old.targets ++ to ∷ [])) }
        ensures grown { IfOk result (λ k. Grown self.old self.new) }
    {
        put(&mut self.targets, to)
    }

    /// Where some targets stand.
    pub(crate) fn put_targets(&mut self, more: &[u32]) -> Result<Span, AllocError>
        ensures there { IfOk result
            (λ s. (s.first ≡ length self.old.targets) × (s.count ≡ length more.now) × (self.new.targets ≡ self.old.targets ++ more.now)) }
        ensures grown { IfOk result (λ k. Grown self.old self.new) }
    {
        put_all(&mut self.targets, more)
    }

    /// Where some keys stand.
    pub(crate) fn put_keys(&mut self, more: &[Key]) -> Result<Span, AllocError>
        ensures own { IfOk result (λ s. part self.new.keys s.first s.count ≡ more.now) }
        ensures there { IfOk result (λ s. AreThere self.new.keys s.first s.count) }
        ensures grown { IfOk result (λ k. Grown self.old self.new) }
    {
        put_all(&mut self.keys, more)
    }

    /// The number of a type of arrays.
    pub(crate) fn put_array(&mut self, array: ArrayRef) -> Result<u32, AllocError>
        ensures there { IfOk result (λ k. slice_get self.new.arrays k ≡ Some array) }
        ensures grown { IfOk result (λ k. Grown self.old self.new) }
    {
        put(&mut self.arrays, array)
    }
}

// ---- what stands there

impl Tables {
    /// The long of a number.
    #[inline]
    pub fn long(&self, k: u32) -> i64
        requires { k < length self.now.longs }
        ensures { Some result ≡ slice_get self.now.longs k }
    {
        self.longs.as_slice()[k as usize]
    }

    /// The type of the arrays of a number, where it is one of a type.
    #[inline]
    pub fn array(&self, k: u32) -> Option<ArrayRef>
        ensures { result ≡ slice_get self.now.arrays k }
    {
        self.arrays.as_slice().get(k as usize).copied()
    }

    /// The number of the instruction at which a switch whose keys rise by one goes on for a key.
    #[inline]
    pub fn table_to(&self, c: Table, key: i32) -> u32
        requires { (c.first + 1) + c.count ≤ length self.now.targets }
        ensures { (cases : List (ℤ × ℕ)) (other : ℕ) → table_meant self.now c ≡ Some (Switch cases other) → result ≡ case_of key cases other }
    {
        let targets = self.targets.as_slice();
        let other = targets[c.first as usize];
        let (_, behind) = targets.split_at(c.first as usize + 1);
        let (own, _) = behind.split_at(c.count as usize);
        rising_to(c.low, own, other, key)
    }

    /// The same of a switch by keys.
    #[inline]
    pub fn lookup_to(&self, c: Lookup, key: i32) -> u32
        requires { AreThere self.now.keys c.first c.count }
        ensures { (cases : List (ℤ × ℕ)) (other : ℕ) → lookup_meant self.now c ≡ Switch cases other → result ≡ case_of key cases other }
    {
        let (_, behind) = self.keys.as_slice().split_at(c.first as usize);
        let (own, _) = behind.split_at(c.count as usize);
        keyed_to(own, c.other, key)
    }
}
