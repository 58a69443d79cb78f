ghost use Rattle.std.specs.Prelude.{◌≡◌, IfOk};
ghost use Rattle.jground.specs.jtext.Texts.{units_of_text};

use jground::jtext::Units;
use std::alloc::{AllocError, Global};
use std::marker::Model;

/// A text of UTF-8, which contracts see as its bytes.
#[derive(Debug, Drop)]
pub struct Text {
    text: String,
}

impl Model for Text {
    ghost use Rattle.std.specs.Prelude.{List, ℕ, string_bytes};

    ghost Value = { List ℕ };

    ghost view = { λ t. string_bytes t.text };
}

impl Text {
    /// The text of a `str`.
    pub fn from_str(alloc: Global, text: &str) -> Result<Text, AllocError>
        ensures { IfOk result (λ t. t ≡ text.now) }
    {
        Ok(Text {
            text: String::from_str(alloc, text)?,
        })
    }

    /// The text, lent.
    pub fn as_str(&self) -> &str
        ensures { result.now ≡ self.now }
    {
        self.text.as_str()
    }

    /// The text's bytes, lent.
    pub fn as_bytes(&self) -> &[u8]
        ensures { result.now ≡ self.now }
    {
        self.text.as_bytes()
    }

    /// The same text again.
    pub fn copy(&self, alloc: Global) -> Result<Text, AllocError>
        ensures { IfOk result (λ t. t ≡ self.now) }
    {
        Text::from_str(alloc, self.text.as_str())
    }
}

/// The UTF-16 units of a text.
#[tactic(auto, using(crate::proofs::Units::ascii_units))]
pub fn units_of(alloc: Global, text: &str) -> Result<Units, AllocError>
    ensures { IfOk result (λ units. units ≡ units_of_text text.now) }
{
    if text.is_ascii() {
        return widened(alloc, text.as_bytes());
    }
    Units::from_text(alloc, text)
}

/// A unit for each byte of a text, with its number: the units of a text of ASCII.
pub fn widened(alloc: Global, text: &[u8]) -> Result<Units, AllocError>
    ensures { IfOk result (λ units. units ≡ text.now) }
{
    let mut units = Vec::with_capacity(alloc, text.len())?;
    for b in text {
        units.push(u16::from(*b))?;
    }
    Ok(Units::from_vec(units))
}
