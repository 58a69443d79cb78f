ghost use Rattle.std.specs.Prelude.{◌≡◌};
ghost use Rattle.jlib.specs.LibraryClasses as library;

use jlib::{LibClass, Side, class};

/// The class of a side's library that has this name.
#[inline]
pub fn class_named(side: Side, name: &[u8]) -> Option<LibClass>
    ensures { result ≡ library.class_named side name.now }
{
    class(side, name)
}
