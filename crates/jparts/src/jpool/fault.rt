use jground::jbase::FaultOrMemory;
use jground::jformat::At;

/// What is wrong in a pool's bytes.
#[derive(Clone, Copy, Debug, PartialEq, Eq)]
pub enum PoolFault {
    /// A number or a text isn't wholly there.
    Truncated,
    /// A tag that no entry has, or that of an entry of two indices at the last index.
    BadTag,
    /// An index that isn't in the pool, or whose entry is of another kind than it must be.
    BadIndex,
    /// A class's text that is neither a class name nor an array descriptor.
    BadName,
    /// A text that should be a descriptor and is none.
    BadDescriptor,
}

/// Why bytes gave no pool: a fault and the offset of its first byte, or want of memory, which may come at any time, and comes
/// where an offset has more than 32 bits.
pub type PoolError = FaultOrMemory<At<PoolFault>>;
