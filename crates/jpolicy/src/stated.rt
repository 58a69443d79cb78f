ghost use Rattle.std.specs.Prelude.{◌≡◌};
ghost use Rattle.jpolicy.specs.Productions.{given, is_absent, is_missing, kept};

use jground::jtext::Units;

/// A string that may be left out.
#[derive(Debug, Drop)]
pub enum Stated {
    /// It is left out.
    Absent,
    /// A property that it names is missing.
    Missing,
    /// It stands there, with its properties expanded.
    Given(Units),
}

impl Stated {
    /// A string that stands there, by its expansion.
    pub fn given(text: Option<Units>) -> Stated
        ensures { result ≡ given text }
    {
        match text {
            Some(units) => Stated::Given(units),
            None => Stated::Missing,
        }
    }

    pub fn is_absent(&self) -> bool
        ensures { result ≡ is_absent self.now }
    {
        matches!(self, Stated::Absent)
    }

    pub fn is_missing(&self) -> bool
        ensures { result ≡ is_missing self.now }
    {
        matches!(self, Stated::Missing)
    }

    /// The string, if it is there, or none where a property is missing.
    pub fn kept(self) -> Option<Option<Units>>
        ensures { result ≡ kept self }
    {
        match self {
            Stated::Absent => Some(None),
            Stated::Missing => None,
            Stated::Given(units) => Some(Some(units)),
        }
    }
}
