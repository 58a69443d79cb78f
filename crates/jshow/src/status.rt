ghost use Rattle.std.specs.Prelude.{◌≡◌};
ghost use Rattle.jshow.specs.Statuses.{number, status_of};

use joutput::jtrace::End;

/// How the program ends.
#[derive(Clone, Copy, Debug, PartialEq, Eq)]
pub enum Status {
    /// The run ended, and no exception left its thread.
    Finished,
    /// The run ended by an exception that nothing caught.
    Uncaught,
    /// The words are no command.
    Usage,
    /// A file, or how the files join, was refused by one line.
    Refused,
    /// The run has not ended after all its steps.
    Bound,
    /// A charge is above the cells that are left.
    HeapFull,
    /// Threads that were started wait for each other.
    Deadlock,
    /// A file could not be read. Nothing was written.
    ReadFault,
    /// A put failed. What went out before it stands.
    WriteFault,
    /// A file could not be stored. A front of the files stands, and nothing was written.
    StoreFault,
    /// Memory ran out. It may come at any time; what went out is a front of the text.
    OutOfMemory,
}

impl Status {
    /// The status with which the process ends.
    pub fn number(self) -> u8
        ensures { result ≡ number self }
    {
        match self {
            Status::Finished => 0,
            Status::Uncaught => 1,
            Status::Usage => 2,
            Status::Refused => 3,
            Status::Bound => 4,
            Status::HeapFull => 5,
            Status::Deadlock => 6,
            Status::ReadFault => 7,
            Status::WriteFault => 8,
            Status::StoreFault => 9,
            Status::OutOfMemory => 10,
        }
    }
}

/// What the end of a run is as a status.
pub fn status_of(end: End) -> Status
    ensures { result ≡ status_of end }
{
    match end {
        End::Finished => Status::Finished,
        End::Uncaught => Status::Uncaught,
        End::Deadlock => Status::Deadlock,
        End::HeapFull => Status::HeapFull,
        End::Bound => Status::Bound,
    }
}
