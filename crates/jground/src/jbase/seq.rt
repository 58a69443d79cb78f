ghost use Rattle.std.specs.Prelude.{◌≡◌, [], ◌<◌, ◌∷◌, ◌++◌, IfOk, OnOk, OnErr, length, slice_set};

use std::alloc::{AllocError, Global};
use std::marker::Model;

/// A list of values, which contracts see as nothing else.
#[derive(Debug, Drop)]
pub struct Seq<T> {
    items: Vec<T>,
}

impl<T> Model for Seq<T> {
    ghost use Rattle.std.specs.Prelude.{List};

    ghost Value = { List T };

    ghost view = { λ s. s.items.items };
}

impl<T> Seq<T> {
    /// The empty list. It takes no memory.
    pub fn new(alloc: Global) -> Seq<T>
        ensures { result ≡ [] }
    {
        Seq {
            items: Vec::new(alloc),
        }
    }

    /// The list of a vector's items. It takes no memory.
    pub fn from_vec(items: Vec<T>) -> Seq<T>
        ensures { result ≡ items.items }
    {
        Seq { items }
    }

    /// A vector of the list's items. It takes no memory.
    pub fn into_vec(self) -> Vec<T>
        ensures { result.items ≡ self }
    {
        self.items
    }

    /// The items, lent.
    pub fn as_slice(&self) -> &[T]
        ensures { result.now ≡ self.now }
    {
        self.items.as_slice()
    }
}

impl<T: Copy> Seq<T> {
    /// A list of a slice's items.
    pub fn from_slice(alloc: Global, items: &[T]) -> Result<Seq<T>, AllocError>
        ensures { IfOk result (λ s. s ≡ items.now) }
    {
        Ok(Seq {
            items: Vec::from_slice(alloc, items)?,
        })
    }

    /// The same list again.
    pub fn copy(&self, alloc: Global) -> Result<Seq<T>, AllocError>
        ensures { IfOk result (λ s. s ≡ self.now) }
    {
        Seq::from_slice(alloc, self.items.as_slice())
    }

    /// Puts all items of a slice behind the list's. After an error the list is unchanged.
    pub fn extend(&mut self, more: &[T]) -> Result<(), AllocError>
        ensures ok { OnOk result (self.new ≡ self.old ++ more.now) }
        ensures err { OnErr result (self.new ≡ self.old) }
    {
        self.items.extend_from_slice(more)?;
        Ok(())
    }
}

impl<T: Drop> Seq<T> {
    /// Puts a value in the place of the item at `index`.
    pub fn set(&mut self, index: usize, value: T)
        requires { index < length self.old }
        ensures { self.new ≡ slice_set self.old index value }
    {
        self.items[index] = value;
    }

    /// Puts a value behind the list's items. After an error the list is unchanged.
    pub fn push(&mut self, value: T) -> Result<(), AllocError>
        ensures ok { OnOk result (self.new ≡ self.old ++ value ∷ []) }
        ensures err { OnErr result (self.new ≡ self.old) }
    {
        self.items.push(value)?;
        Ok(())
    }
}
