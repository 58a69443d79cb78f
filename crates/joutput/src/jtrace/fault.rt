ghost use Rattle.std.specs.Prelude.{◌≡◌};
ghost use Rattle.joutput.specs.declared.jtrace.fault.RunFault.TheVariants.{Memory, Sink};

use crate::jio::PutFault;
use std::alloc::{AllocError, AllocFailed};

/// Why a run that was being written stopped before its end.
#[derive(Clone, Copy, Debug, PartialEq, Eq)]
pub enum RunFault {
    /// A put failed.
    Sink,
    /// No memory was left. It may come at any time.
    Memory,
}

impl From<AllocError> for RunFault {
    ghost from_gives = { λ _ fault. fault ≡ Memory };

    fn from(_: AllocError) -> RunFault {
        RunFault::Memory
    }
}

impl<T: Drop> From<AllocFailed<T>> for RunFault {
    ghost from_gives = { λ _ fault. fault ≡ Memory };

    fn from(_: AllocFailed<T>) -> RunFault {
        RunFault::Memory
    }
}

impl From<PutFault> for RunFault {
    ghost from_gives = { λ _ fault. fault ≡ Sink };

    fn from(_: PutFault) -> RunFault {
        RunFault::Sink
    }
}
