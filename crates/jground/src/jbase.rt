//! What all crates share. `Seq<T>` is a list that contracts see as nothing else, so that a Rust struct is the definition's record.
//! `FaultOrMemory<F>` is want of memory or a definition's fault. `TryClone` is what can be made again by a copy.
//!
//! - `FaultCauses`: when a fault may be told (`Rose`: a count of faults has risen, or stands at its end; `HasCause`), and what a failing
//!   call may have written (`appended`, `IsCut`).
//! - `MemoryFailures`: what a call that may run out of memory answers (`Gives`), and `>>=`.
//! - `FirstFaults`: the first test that fails.
//! - `ListMaps`: a function on each item of a list.
//!
//! Proved: lists are what contracts see; `first_along_laws`: the first failing test is found exactly where one fails; `all_again` gives the
//! same values.

mod each;
mod fault_or_memory;
mod laws;
mod seq;

pub use each::{TryClone, all_again};
pub use fault_or_memory::FaultOrMemory;
pub use laws::first_along_laws;
pub use seq::Seq;
