ghost use Rattle.std.specs.Prelude.{◌≡◌};
ghost use Rattle.jmove.specs.declared.method.MoveError.TheVariants.{Memory};

use jground::jbase::Seq;
use jparts::jcode::{Handler, Placed};
use jparts::jmaps::FullFrame;
use std::alloc::AllocError;

/// What an instruction becomes, by what its reference resolves to; each but `Same` with that reference's index in the pool.
#[derive(Clone, Copy, Debug, PartialEq, Eq)]
pub enum Expand {
    /// Itself.
    Same,
    /// A call that hands the context on as its last argument: of a user's method, of `Runnable.run` or `PrivilegedAction.run`, or
    /// of Thread's constructor.
    Call(u16),
    /// `AccessController.checkPermission`: the context is checked.
    Check(u16),
    /// `AccessController.getContext`: the context is put into an object.
    Snapshot(u16),
    /// `AccessController.doPrivileged` of an action alone: only the domain counts.
    Privileged(u16),
    /// `AccessController.doPrivileged` of an action and a context.
    PrivilegedWith(u16),
    /// `AccessController.doPrivileged` of an action, a context and an array of permissions.
    PrivilegedLimited(u16),
}

/// Where a moved method keeps its context, and its domain.
#[derive(Clone, Copy, Debug, PartialEq, Eq)]
pub struct Setting {
    /// The number of the local that holds the context.
    pub local: u16,
    pub domain: u16,
}

/// A method with code (JVMS 4.7.3) that is to be moved.
#[derive(Debug, Drop)]
pub struct MethodIn {
    /// The slots of its parameters, `this` included.
    pub slots: u32,
    pub max_stack: u32,
    pub max_locals: u32,
    pub ops: Seq<Placed>,
    pub handlers: Seq<Handler>,
    pub frames: Seq<FullFrame>,
}

/// A moved method with code.
#[derive(Debug, Drop)]
pub struct MethodOut {
    /// The slots of its parameters, `this` and the context included.
    pub slots: u32,
    pub max_stack: u32,
    pub max_locals: u32,
    pub ops: Seq<Placed>,
    pub handlers: Seq<Handler>,
    pub frames: Seq<FullFrame>,
}

/// Why a method isn't moved.
#[derive(Clone, Copy, Debug, PartialEq, Eq)]
pub enum MoveError {
    /// There is no slot for one more parameter: the parameters have 255, `this` included.
    Slots,
    /// There is no local for the context, as `max_locals` is 65,535; or the frames would have more than 16,777,216 locals and stack
    /// items together.
    Locals,
    /// `max_stack` is above 65,532, so it can't grow by 3.
    Stack,
    /// The code would have this many bytes, more than 32,767.
    TooLong(u32),
    /// The pool has no room for what the code names.
    PoolFull,
    /// No memory was left. It may come at any time.
    Memory,
}

impl From<AllocError> for MoveError {
    ghost from_gives = { λ _ error. error ≡ Memory };

    fn from(_: AllocError) -> MoveError {
        MoveError::Memory
    }
}
