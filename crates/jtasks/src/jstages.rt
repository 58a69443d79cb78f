//! The stages on the way to a command's task: its files are read, its classes linked, checked and moved, each judged before the next.
//!
//! - `Stages`: what a call that reads files, or judges what was read, answers beside its definition.
//! - `ReadStage`: the job at a path with its policy, and the class files that it names, or the refusal of the first that isn't as it should be.
//! - `JobPlans`: what a job and its policy say, for each verb; its class files are few and come in the order of their code sources
//!   (`ArePaths`), so that they may be linked.
//! - `LinkStage`: the program that a job's classes make, or the refusal by the first broken rule.
//! - `CheckStage`: a program that is well typed, or the refusal by the first place that isn't.
//! - `RewriteStage`: the moved program, or the refusal by the first limit that is broken.
//!
//! Proved: `ground_at` and `parts_at` answer what the files that the shelf holds say, or the refusal, and leave them as they are; a fault of
//! reading is told only where the shelf counted one, or where a file is missing or too long; what was read are parts that may be linked, each
//! of them a class file. `linked`, `checked` and `rewritten` answer the program or its refusal. For who looks at a job once more:
//! `policy_fault` answers the place of a policy's first fault, and `look_again`, which reads and judges once more what a refusal is of, is
//! proved to leave the shelf as it is, and no more.

mod again;
mod checking;
mod halt;
mod job_setup;
mod linking;
mod policies;
mod programs;
mod reading;
mod rewriting;

pub use again::{Seen, done_with, look_again};
pub use checking::checked;
pub use halt::Halt;
pub use job_setup::{ClassPath, JobSetup, Setting};
pub use linking::{are_classes, linked, units_in};
pub use policies::policy_fault;
pub use reading::{ground_at, ground_in, parts_at, read_at, text_in};
pub use rewriting::rewritten;
