ghost use Rattle.std.specs.Prelude.{◌≡◌};
ghost use Rattle.jmoveclass.specs.declared.limit.ClassError.TheVariants.{Memory};

use std::alloc::AllocError;

/// Why a class isn't moved.
#[derive(Clone, Copy, Debug, PartialEq, Eq)]
pub enum RewriteKind {
    /// A method has no slot for one more parameter: its parameters have 255, `this` included.
    Slots,
    /// A method has no local for the context, as `max_locals` is 65,535; or its frames would have more than 16,777,216 locals and
    /// stack items together.
    Locals,
    /// `max_stack` of a method is above 65,532, so it can't grow by 3.
    Stack,
    /// The code of a method would have this many bytes, more than 32,767.
    TooLong(u32),
    /// The pool has no room for what the methods name.
    PoolFull,
}

/// The first limit that a class breaks: the place of the method among its methods, None where it is the pool's.
#[rattlefmt::skip]
#[derive(Clone, Copy, Debug, PartialEq, Eq)]
pub struct Limit { pub method: Option<u32>, pub kind: RewriteKind }

/// Why there is no moved class.
#[derive(Clone, Copy, Debug, PartialEq, Eq)]
pub enum ClassError {
    /// The first limit that it breaks.
    At(Limit),
    /// No memory was left. It may come at any time.
    Memory,
}

impl From<AllocError> for ClassError {
    ghost from_gives = { λ _ error. error ≡ Memory };

    fn from(_: AllocError) -> ClassError {
        ClassError::Memory
    }
}
