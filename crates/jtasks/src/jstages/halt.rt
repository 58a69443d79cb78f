ghost use Rattle.std.specs.Prelude.{◌≡◌};
ghost use Rattle.jtasks.specs.declared.jstages.halt.Halt.TheVariants.{Memory};

use jshow::Refusal;
use std::alloc::AllocError;

/// Why there is nothing to do.
#[derive(Debug, Drop)]
pub enum Halt {
    /// A file could not be read.
    Read,
    /// Memory ran out.
    Memory,
    /// Something was refused.
    Refused(Refusal),
}

impl From<AllocError> for Halt {
    ghost from_gives = { λ _ halt. halt ≡ Memory };

    fn from(_: AllocError) -> Self {
        Halt::Memory
    }
}
