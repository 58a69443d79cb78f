ghost use Rattle.std.specs.Prelude.{◌≡◌};
ghost use Rattle.jcheck.specs.declared.fault.TypeFault.TheVariants.{Memory};

use std::alloc::AllocError;

/// Why a program isn't accepted.
#[derive(Clone, Copy, Debug, PartialEq, Eq)]
pub enum TypeFault {
    /// It isn't well typed (JVMS 4.10.1.6): the first place with a test that fails.
    At {
        /// The place of the class among the parts.
        class: u32,
        /// The place of the method among those of its class.
        method: u32,
        /// The place among the bytes of its code.
        at: u32,
    },
    /// No memory was left. It may come at any time.
    Memory,
}

impl From<AllocError> for TypeFault {
    ghost from_gives = { λ _ error. error ≡ Memory };

    fn from(_: AllocError) -> TypeFault {
        TypeFault::Memory
    }
}
