//! A machine by numbers between steps: the program that it runs, its threads, its heap, and what it keeps of constants, permissions,
//! contexts and calls; and what a step of its running thread comes to for all of them: the thread goes on, or something that was raised
//! is told and thrown on, or a thread ends and another has its turn, or the run is over.
//!
//! - `MachineInvariants`: the state that it stands for, and what holds of it between steps (`IsReady`: among others, the running thread is
//!   runnable and no thread waits for one that has ended) and where nothing is half done to its heap (`IsMachine`).
//! - `MachineOutcomes`: what a step came to, for all rules that are like these.
//! - `AnsweredCalls`: what it asks of access control and is answered, and calls of the library.
//! - `MidStepMachines`: the machine when its running thread has other frames, and it another heap.
//! - `RaiseOutcomes`: an exception that is raised.
//!
//! Proved, for all rules whose marks are those that it keeps: `settle` does what the machine's step has for what `jstep`'s step left;
//! `settle_raised` tells an exception or an object that was thrown, and ends its thread where no frame handles it, by `end_thread`;
//! `raise` raises an exception without a message. `marks` lends what the frames of the running thread carry. Where the run goes on the
//! machine is ready for a next step, and its program and its plan stay. `machine_laws`: the machine that is left in the midst of a
//! step.

mod laws;
mod machine;
mod raising;
mod settling;
mod telling;

pub use laws::machine_laws;
pub use machine::Machine;
pub use raising::raise;
pub use settling::{end_thread, full, settle, settle_raised, tell_uncaught};
