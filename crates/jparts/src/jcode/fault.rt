use jground::jbase::FaultOrMemory;
use jground::jformat::At;

/// What is wrong with code. The place of each is the first byte of its instruction.
#[derive(Clone, Copy, Debug, PartialEq, Eq)]
pub enum CodeFault {
    /// An instruction isn't wholly there.
    Truncated,
    /// No instruction has this opcode.
    UnknownOpcode(u8),
    /// The instruction with this opcode is left out: it uses floats or doubles, monitors, subroutines or dynamic calls. Of a wide
    /// instruction this is the opcode that it widens.
    LeftOut(u8),
    /// An operand is none that the instruction may have.
    BadOperand,
    /// A branch leads to no instruction.
    BadTarget,
}

/// Why code gave no instructions: the first fault and its place in the bytes, or want of memory.
pub type CodeError = FaultOrMemory<At<CodeFault>>;
