ghost use Rattle.std.specs.Prelude.{◌≡◌};
ghost use Rattle.jparts.specs.declared.jmaps.fault.ExpandError.TheVariants.{Memory};

use jground::jbase::FaultOrMemory;
use jground::jformat::At;
use std::alloc::{AllocError, AllocFailed};

/// What is wrong with the content of a StackMapTable.
#[derive(Clone, Copy, Debug, PartialEq, Eq)]
pub enum MapFault {
    /// A number isn't wholly there. The place is the number's first byte.
    Truncated,
    /// A frame's type byte is 128 to 246. The place is that byte.
    Reserved,
    /// A tag is above 8. The place is the tag byte.
    BadTag,
    /// A tag is that of float or of double. The place is the tag byte.
    LeftOut,
    /// Bytes stand behind the last frame. The place is the first of them.
    Trailing,
}

/// Why stack maps gave no frames: the first fault and the offset of its place, or want of memory, which may come at any time.
pub type MapError = FaultOrMemory<At<MapFault>>;

/// The names that a reader gives to the faults of stack maps.
#[rattlefmt::skip]
#[derive(Clone, Copy, Debug, PartialEq, Eq)]
pub struct Kinds<K> { pub truncated: K, pub reserved: K, pub bad_tag: K, pub left_out: K, pub trailing: K }

/// Why frames could not be expanded: the number of the first frame that takes away more locals than there are, or want of
/// memory.
#[derive(Clone, Copy, Debug, PartialEq, Eq)]
pub enum ExpandError {
    Chop { frame: u32 },
    Memory,
}

impl From<AllocError> for ExpandError {
    ghost from_gives = { λ _ error. error ≡ Memory };

    fn from(_: AllocError) -> ExpandError {
        ExpandError::Memory
    }
}

impl<T: Drop> From<AllocFailed<T>> for ExpandError {
    ghost from_gives = { λ _ error. error ≡ Memory };

    fn from(_: AllocFailed<T>) -> ExpandError {
        ExpandError::Memory
    }
}
