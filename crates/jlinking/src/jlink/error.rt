ghost use Rattle.std.specs.Prelude.{◌≡◌};
ghost use Rattle.jlinking.specs.declared.jlink.error.LinkError.TheVariants.{Memory};

use jresolution::jprogram::LinkFault;
use std::alloc::AllocError;

/// Why parts make no program that links.
#[derive(Clone, Copy, Debug, PartialEq, Eq)]
pub enum LinkError {
    /// The first broken rule.
    At(LinkFault),
    /// No memory was left. It may come at any time.
    Memory,
}

impl From<AllocError> for LinkError {
    ghost from_gives = { λ _ error. error ≡ Memory };

    fn from(_: AllocError) -> LinkError {
        LinkError::Memory
    }
}
