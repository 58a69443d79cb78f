use jground::jtext::Units;
use jperm::Permission;

/// What happened in a step of a run. A thread is named by its number.
#[rattlefmt::skip]
#[derive(Debug, Drop)]
pub enum Event {
    /// A text was printed.
    Out { thread: u32, text: Units },
    /// A check of the asked permission was granted.
    Grant { thread: u32, asked: Permission },
    /// A check of the asked permission was denied by a domain.
    Deny { thread: u32, asked: Permission, domain: u32 },
    /// An exception of a class, its name written with dots, was raised.
    Throw { thread: u32, class: Units },
    /// An exception of a class left the last frame of its thread.
    Uncaught { thread: u32, class: Units },
}

/// How a run ended.
#[derive(Clone, Copy, Debug, PartialEq, Eq)]
pub enum End {
    /// Every started thread ended, and none by an exception.
    Finished,
    /// Every started thread ended, and at least one by an exception.
    Uncaught,
    /// A started thread has not ended, and none can run.
    Deadlock,
    /// A step's charge was above the cells that were left.
    HeapFull,
    /// The run has not ended within its number of steps.
    Bound,
}
