ghost use Rattle.std.specs.Prelude.{⊤, ◌≡◌, [], ◌∷◌, IsTrue, codes};
ghost use Rattle.jperm.specs.Actions.{file_actions, has_some_of, property_actions};

use bitflags::{Flag, Flags, bitflag_items};
use std::marker::Model;

/// A set of actions, a bit for each.
#[derive(Clone, Copy, Debug, PartialEq, Eq)]
pub struct Actions(u8);

bitflag_items! {
    impl Actions: u8 {
        const READ = 0x01;
        const WRITE = 0x02;
        const EXECUTE = 0x04;
        const DELETE = 0x08;
        const READLINK = 0x10;
    }
}

impl Flags for Actions {
    type Bits = u8;

    ghost exact = { ⊤ };

    ghost table = { (codes "READ", 1) ∷ (codes "WRITE", 2) ∷ (codes "EXECUTE", 4) ∷ (codes "DELETE", 8) ∷ (codes "READLINK", 16) ∷ [] };

    ghost set_of = { λ a. a.0 };

    fn flags<'a>() -> &'a [Flag<Actions>] {
        Actions::FLAGS
    }

    fn bits(&self) -> u8 {
        self.0
    }

    fn from_bits_retain(bits: u8) -> Actions {
        Actions(bits)
    }
}

/// The actions of a permission on a property: some of read and write. Contracts see the number of their bits.
#[derive(Debug, Drop)]
pub struct PropertyActions {
    set: Actions,
}

impl Model for PropertyActions {
    ghost use Rattle.std.specs.Prelude.{ℕ, IsTrue};
    ghost use Rattle.jperm.specs.Actions.{has_some_of, property_actions};

    ghost Value = { ℕ };

    ghost view = { λ a. a.set.0 };

    ghost invariant = { λ a. IsTrue (has_some_of property_actions a.set.0) };
}

impl PropertyActions {
    /// The actions of a set that has some of read and write, and no other.
    pub fn new(set: Actions) -> PropertyActions
        requires { IsTrue (has_some_of property_actions set.0) }
        ensures { result ≡ set.0 }
    {
        PropertyActions { set }
    }

    /// The set of the actions.
    pub fn set(&self) -> Actions
        ensures value { result.0 ≡ self.now }
        ensures some { IsTrue (has_some_of property_actions self.now) }
    {
        self.set
    }

    /// The same actions again.
    pub fn copy(&self) -> PropertyActions
        ensures { result ≡ self.now }
    {
        PropertyActions { set: self.set }
    }
}

/// The actions of a permission on a file: some of the five. Contracts see the number of their bits.
#[derive(Debug, Drop)]
pub struct FileActions {
    set: Actions,
}

impl Model for FileActions {
    ghost use Rattle.std.specs.Prelude.{ℕ, IsTrue};
    ghost use Rattle.jperm.specs.Actions.{file_actions, has_some_of};

    ghost Value = { ℕ };

    ghost view = { λ a. a.set.0 };

    ghost invariant = { λ a. IsTrue (has_some_of file_actions a.set.0) };
}

impl FileActions {
    /// The actions of a set that has some of the five, and no other bit.
    pub fn new(set: Actions) -> FileActions
        requires { IsTrue (has_some_of file_actions set.0) }
        ensures { result ≡ set.0 }
    {
        FileActions { set }
    }

    /// The set of the actions.
    pub fn set(&self) -> Actions
        ensures value { result.0 ≡ self.now }
        ensures some { IsTrue (has_some_of file_actions self.now) }
    {
        self.set
    }

    /// The same actions again.
    pub fn copy(&self) -> FileActions
        ensures { result ≡ self.now }
    {
        FileActions { set: self.set }
    }
}
