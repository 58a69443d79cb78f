use crate::mark::InspectMark;
use jground::jbase::Seq;
use jperm::Permission;

/// A frame on the stack that an older number stands for; without one it is the oldest frame of all.
#[derive(Clone, Copy)]
pub struct KeptFrame {
    pub mark: InspectMark,
    pub older: Option<u64>,
}

/// What a number was given for.
#[derive(Drop)]
pub enum KeptEntry {
    /// The empty stack.
    Empty,
    /// A stack, by its newest frame.
    Frame(KeptFrame),
    /// A privilege, with the number of the stack that it was given and its limits, if any.
    Privilege {
        given: Option<u64>,
        limits: Option<Seq<Permission>>,
    },
}
