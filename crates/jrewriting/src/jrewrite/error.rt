ghost use Rattle.std.specs.Prelude.{◌≡◌};
ghost use Rattle.jrewriting.specs.declared.jrewrite.error.RewriteError.TheVariants.{Memory};

use jmoveclass::RewriteKind;
use std::alloc::AllocError;

/// Why there is no moved program.
#[derive(Clone, Copy, Debug, PartialEq, Eq)]
pub enum RewriteError {
    /// The first limit that is broken: the place of the class among the parts, and the place of the method among its methods, None where
    /// it is the pool's.
    At {
        class: u32,
        method: Option<u32>,
        kind: RewriteKind,
    },
    /// No memory was left. It may come at any time.
    Memory,
}

impl From<AllocError> for RewriteError {
    ghost from_gives = { λ _ error. error ≡ Memory };

    fn from(_: AllocError) -> RewriteError {
        RewriteError::Memory
    }
}
