ghost use Rattle.std.specs.Prelude.{◌≡◌};
ghost use Rattle.jdomain.specs.declared.fault.SourceError.TheVariants.{Memory};

use std::alloc::AllocError;

/// Why a text is no code source.
#[derive(Clone, Copy, Debug, PartialEq, Eq)]
pub enum SourceError {
    /// It is no URL (URL Standard), or it has more bytes than a URL may have.
    NotUrl,
    /// It is a URL whose path doesn't end in `/`.
    NotDirectory,
    /// No memory was left. It may come at any time.
    Memory,
}

impl From<AllocError> for SourceError {
    ghost from_gives = { λ _ e. e ≡ Memory };

    fn from(_: AllocError) -> SourceError {
        SourceError::Memory
    }
}
