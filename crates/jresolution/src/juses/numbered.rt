use crate::juses::meaning::Use;
use jground::jbase::Seq;
use jparts::jcode::{ArrayForm, LocalForm, RefTest, Returned, Simple};
use jvalues::jnames::{Compare, Shuffle};

/// When a branch is taken.
#[derive(Clone, Copy, Debug, PartialEq, Eq)]
pub enum Condition {
    Always,
    /// An int against zero.
    If(Compare),
    /// An int against another.
    IfInt(Compare),
    IfRef(RefTest),
}

/// A key of a switch, and the number of the instruction at which it goes on.
#[derive(Clone, Copy, Debug, PartialEq, Eq)]
pub struct Key {
    pub key: i32,
    pub to: u32,
}

/// The keys of a switch, each with the number of the instruction at which it goes on.
#[derive(Debug, Drop)]
pub enum Keys {
    /// The least key, and the numbers of those that rise by one from it.
    From(i32, Seq<u32>),
    Each(Seq<Key>),
}

/// An instruction that says where its method goes on (JVMS 6.5), by the numbers of instructions, counted from 0.
#[derive(Debug, Drop)]
pub enum FlowRef {
    /// Goes on at a number where its test holds.
    Jump(Condition, u32),
    /// Goes on at the number of a key, or else at another.
    Switch(Keys, u32),
    Return(Returned),
    Throw,
}

/// What an instruction is in its method (JVMS 6.5): its form, with the numbers of the instructions to which it may lead, and with what it
/// means in its class, whose classes and types stand by number.
#[derive(Debug, Drop)]
pub enum InstructionRef {
    /// With operands alone.
    Simple(Simple),
    /// With a local.
    Local(LocalForm),
    /// Moves the newest items of the stack.
    Stack(Shuffle),
    Flow(FlowRef),
    /// With an array.
    Array(ArrayForm),
    /// By an entry of the pool.
    Used(Use),
}
