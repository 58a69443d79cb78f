use jground::jbase::Seq;
use jground::jtext::Units;
use jresolution::jprogram::MethodId;

/// What a run is given besides its program.
#[derive(Debug, Drop)]
pub struct Plan {
    /// The method that it begins with.
    pub main: MethodId,
    /// Which of the threads that may run comes next, at each turn.
    pub schedule: Seq<u32>,
    /// The directory in which guests' file names are read.
    pub cwd: Units,
    /// The cells of the heap.
    pub heap: u32,
    /// The frames that a thread may have.
    pub depth: u32,
    /// The steps after which the run stops where it has not ended.
    pub steps: u64,
}
