ghost use Rattle.std.specs.Prelude.{◌≡◌, ◌%◌, ℕ, IfOk, IfSome, None, Some, replicate, slice_set, true};
ghost use Rattle.jcache.specs.CacheEntries.{Holds, Remembers};

use std::alloc::{AllocError, Global};
use std::marker::Model;

const PLACES: usize = 4096;

/// What answers are remembered by. Keys that `==` calls equal are the same key.
pub trait Key: Copy + Eq {
    ghost numbered: { Self → ℕ };

    /// The number that says where the key's answer is looked for. Keys may share one.
    fn number(self) -> u64
        ensures { result ≡ numbered self };

    ghost exact: { (a b : Self) → Self.PartialEq.eq a b ≡ true → a ≡ b };
}

/// Answers by their keys in 4,096 places: a key's place is its number's remainder, and a later answer takes the place of an earlier
/// one. Contracts see the list of the places, each with nothing or with a key and its answer.
#[derive(Drop)]
pub struct Memo<K, V> {
    places: Vec<Option<(K, V)>>,
}

impl<K, V> Model for Memo<K, V> {
    ghost use Rattle.std.specs.Prelude.{◌≡◌, List, Option, length};

    ghost Value = { List (Option (K × V)) };

    ghost view = { λ m. m.places.items };

    ghost invariant = { λ m. length m.places.items ≡ 4096 };
}

impl<K: Key, V: Copy> Memo<K, V> {
    /// Nothing is remembered yet.
    #[tactic(auto, unfolding(crate::specs::CacheEntries::Remembers))]
    pub fn new(alloc: Global) -> Result<Memo<K, V>, AllocError>
        ensures empty { IfOk result (λ m. m ≡ replicate 4096 None) }
        // Whatever the function is, what is remembered are its answers.
        ensures answers { IfOk result (λ m. (f : K → V) → Remembers f m) }
    {
        let mut places = Vec::new(alloc);
        places.resize(PLACES, None)?;
        Ok(Memo { places })
    }

    /// The answer for a key, if its place holds it.
    #[tactic(auto, unfolding(crate::specs::CacheEntries::Remembers))]
    #[inline]
    pub fn get(&self, k: K) -> Option<V>
        ensures found { IfSome result (λ v. Holds K.numbered self.now k v) }
        ensures only { (v : V) → Holds K.numbered self.now k v → result ≡ Some v }
        // Where the answers of a function are remembered, this is one.
        ensures answers { (f : K → V) → Remembers f self.now → IfSome result (λ v. v ≡ f k) }
    {
        let at = (k.number() % PLACES as u64) as usize;
        if let Some((known, v)) = self.places[at] {
            if known == k {
                return Some(v);
            }
        }
        None
    }

    /// Remembers the answer for a key, and forgets what was in its place.
    #[tactic(auto, unfolding(crate::specs::CacheEntries::Remembers))]
    #[inline]
    pub fn put(&mut self, k: K, v: V)
        ensures put { self.new ≡ slice_set self.old (K.numbered k % 4096) (Some (k, v)) }
        // Where the answers of a function are remembered and this is one, its answers are remembered again.
        ensures answers { (f : K → V) → Remembers f self.old → v ≡ f k → Remembers f self.new }
    {
        let at = (k.number() % PLACES as u64) as usize;
        self.places[at] = Some((k, v));
    }
}
