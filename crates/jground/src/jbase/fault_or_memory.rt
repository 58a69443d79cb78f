ghost use Rattle.std.specs.Prelude.{◌≡◌};
ghost use Rattle.jground.specs.declared.jbase.fault_or_memory.FaultOrMemory.TheVariants.{Memory};

use std::alloc::{AllocError, AllocFailed};

/// Why a call that may run out of memory gave no value.
#[derive(Clone, Copy, Debug, PartialEq, Eq)]
pub enum FaultOrMemory<F> {
    /// No memory was left. It may come at any time.
    Memory,
    /// The fault that the call's definition names.
    Fault(F),
}

impl<F> From<AllocError> for FaultOrMemory<F> {
    ghost from_gives = { λ _ stop. stop ≡ Memory };

    fn from(_: AllocError) -> FaultOrMemory<F> {
        FaultOrMemory::Memory
    }
}

impl<F, T: Drop> From<AllocFailed<T>> for FaultOrMemory<F> {
    ghost from_gives = { λ _ stop. stop ≡ Memory };

    fn from(_: AllocFailed<T>) -> FaultOrMemory<F> {
        FaultOrMemory::Memory
    }
}
