ghost use Rattle.std.specs.Prelude.{◌≡◌};
ghost use Rattle.jjob.specs.declared.job.JobError.TheVariants.{Memory};

use crate::text::Text;
use jdomain::CodeSource;
use jground::jbase::Seq;
use jground::jtext::Units;
use std::alloc::AllocError;
use thiserror::Error;

/// The cells of the heap, where a job doesn't say.
pub const DEFAULT_HEAP: u32 = 1_048_576;

/// The frames of a thread, where a job doesn't say.
pub const DEFAULT_DEPTH: u32 = 1_000;

/// The steps of a run, where a job doesn't say.
pub const DEFAULT_STEPS: u64 = 10_000_000;

/// The most code sources of a job.
pub const MOST_CODES: usize = 4_096;

/// The most class files of a job.
pub const MOST_CLASSES: usize = 65_535;

/// The most numbers of a schedule.
pub const MOST_PICKS: usize = 1_000_000;

/// A code source of a job, and the paths of its class files.
#[rattlefmt::skip]
#[derive(Drop)]
pub struct JobSource { pub source: CodeSource, pub classes: Seq<Text> }

/// What a job file says, with what it doesn't say filled in.
#[derive(Drop)]
pub struct Job {
    /// The path of the policy; without one the policy is empty.
    pub policy: Option<Text>,
    /// The properties by which a policy's strings are expanded: names and values.
    pub props: Seq<(Units, Units)>,
    /// The folder in which the job runs.
    pub cwd: Units,
    pub sources: Seq<JobSource>,
    /// The name of the main class.
    pub main: Units,
    pub schedule: Seq<u32>,
    /// The cells of the heap.
    pub heap: u32,
    /// The frames of a thread.
    pub depth: u32,
    /// The steps of a run.
    pub steps: u64,
}

/// Why bytes are no job.
#[derive(Debug, Drop, Error)]
pub enum JobError {
    /// The first line that is bad.
    #[error("line {line} of the job")]
    Line { line: u32 },
    /// No memory was left. It may come at any time.
    #[error("no memory is left")]
    Memory,
}

impl From<AllocError> for JobError {
    ghost from_gives = { λ _ e. e ≡ Memory };

    fn from(_: AllocError) -> JobError {
        JobError::Memory
    }
}
