ghost use Rattle.std.specs.Prelude.{◌≡◌, [], IfOk};
ghost use Rattle.jground.specs.jtext.Texts.{units_of_text};

use std::alloc::{AllocError, Global};
use std::marker::Model;

/// A text: a list of UTF-16 units, of any values from 0 to 65,535.
#[derive(Debug, Drop)]
pub struct Units {
    units: Vec<u16>,
}

impl Model for Units {
    ghost use Rattle.std.specs.Prelude.{List, ℕ};

    ghost Value = { List ℕ };

    ghost view = { λ u. u.units.items };
}

impl Units {
    /// The empty text. It takes no memory.
    pub fn new(alloc: Global) -> Units
        ensures { result ≡ [] }
    {
        Units {
            units: Vec::new(alloc),
        }
    }

    /// The text of a vector's units. It takes no memory.
    pub fn from_vec(units: Vec<u16>) -> Units
        ensures { result ≡ units.items }
    {
        Units { units }
    }

    /// A vector of the text's units. It takes no memory.
    pub fn into_vec(self) -> Vec<u16>
        ensures { result.items ≡ self }
    {
        self.units
    }

    /// The units, lent.
    pub fn as_slice(&self) -> &[u16]
        ensures { result.now ≡ self.now }
    {
        self.units.as_slice()
    }

    /// The text of a slice's units.
    pub fn from_slice(alloc: Global, units: &[u16]) -> Result<Units, AllocError>
        ensures { IfOk result (λ u. u ≡ units.now) }
    {
        Ok(Units {
            units: Vec::from_slice(alloc, units)?,
        })
    }

    /// The same text again.
    pub fn copy(&self, alloc: Global) -> Result<Units, AllocError>
        ensures { IfOk result (λ u. u ≡ self.now) }
    {
        Units::from_slice(alloc, self.units.as_slice())
    }

    /// The UTF-16 units of a text of Rust, which is UTF-8.
    pub fn from_text(alloc: Global, text: &str) -> Result<Units, AllocError>
        ensures { IfOk result (λ u. u ≡ units_of_text text.now) }
    {
        let mut units = Vec::new(alloc);
        for c in text.chars() {
            let mut pair = [0, 0];
            units.extend_from_slice(c.encode_utf16(&mut pair))?;
        }
        Ok(Units { units })
    }
}
