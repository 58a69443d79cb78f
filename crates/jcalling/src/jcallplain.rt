//! Calls of the library that ask nothing of access control and start no thread, as steps of `jcore`'s machine.
//!
//! - `LibraryRuns`: how the library ran in the running thread.
//! - `CallRowOutcomes`: what stands behind what a row left to do, with what it told.
//!
//! Proved: `call_plain` comes to the machine's step by all rules: the thread goes on behind its call, and what was printed is told; or
//! an exception is raised, the heap is full, or there is no step. What holds of a machine holds behind it, also of the permissions that
//! constructors made.

mod calling;
mod running;
mod settling;

pub use calling::call_plain;
