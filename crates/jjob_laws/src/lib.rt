//! What is read again: a job that is stored with other class files.
//!
//! - `StoredJobs`: the job that such a text is, and how much a job says.
//!
//! Proved, on a function without a body, `job_laws`: the text that a job is stored as with other paths is read as that job, with these paths
//! in the place of those of its class files, in their order; and a job that is read has no more code sources and class files than a job
//! may have.
#![tactic(auto)]

mod laws;

pub use laws::job_laws;
