use jground::jbase::FaultOrMemory;
use jground::jformat::At;

/// What is wrong with the bytes of a class file.
#[derive(Clone, Copy, Debug, PartialEq, Eq)]
pub enum ClassFault {
    /// A number, or a run of bytes, isn't wholly there. The place is its first byte.
    Truncated,
    /// The file doesn't begin with `cafebabe`.
    Magic,
    /// The major version isn't 50, 51 or 52.
    Version,
    /// A tag that no entry of the pool has, or that of an entry of two indices at the last index.
    Tag,
    /// Bytes stand behind what they should end.
    Trailing,
    /// A text of the pool that isn't modified UTF-8. The place is the entry's tag.
    Text,
    /// An index that isn't in the pool, or whose entry is of another kind than it must be.
    Index,
    /// A class of the pool whose text is neither a class name nor an array descriptor.
    Name,
    /// A text that should be a descriptor and is none.
    Descriptor,
    /// A method that has code and shouldn't, or hasn't and should, or has it twice; or code of a length that isn't 1 to 65,535.
    Code,
    /// An opcode that there isn't.
    Opcode(u8),
    /// An instruction that is left out.
    LeftOut(u8),
    /// An operand that the instruction can't have.
    Operand,
    /// A branch or a handler that leads to no instruction.
    Target,
    /// A frame's type byte that is reserved.
    Reserved,
    /// A frame's tag that no type has.
    MapTag,
    /// A frame's tag of a type that is left out.
    MapLeftOut,
    /// A second StackMapTable of one Code.
    Maps,
}

/// Why bytes gave no class file: the first fault and its place in the bytes, or want of memory, which may come at any time, and
/// comes where an offset has more than 32 bits.
pub type ClassError = FaultOrMemory<At<ClassFault>>;
