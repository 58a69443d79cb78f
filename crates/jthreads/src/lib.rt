//! Guest threads: the table of them (`Threads`), which contracts see as the list of threads by their numbers, and which of them runs next
//! (`Threads::pick`). The machine's threads (`jguests`) stand on it.
//!
//! - `Schedule`: the number at a place of the schedule, and the thread that it picks.
//! - `ThreadTables`: a thread as started, ended, waits for; the runnable numbers; the table after each call.
//! - `ThreadQueues`: what the table keeps so that nothing is sought: the runnable numbers in order, and how many wait for each thread.
//!
//! Proved: `pick` is the schedule's pick, None exactly where no thread is runnable; each call changes the table by one equation;
//! `thread_laws`: the runnable numbers rise and are exactly those of runnable threads, a thread that was never started isn't among
//! them, and after the end of a thread nobody waits for it.
//!
//! `ProofNames` are names by which proofs and contracts of inner functions call what the definitions say in place.
#![tactic(auto)]

mod laws;
mod order;
mod queue;
mod schedule;
mod table;
mod thread;

pub use laws::thread_laws;
pub use table::{Joined, Threads};
pub use thread::Thread;
