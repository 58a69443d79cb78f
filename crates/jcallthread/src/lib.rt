//! Calls of Thread, as steps of `jcore`'s machine.
//!
//! - `ThreadCalls`: what such a call does to the machine: its threads have changed, and behind the constructor its heap, and nothing else.
//!
//! Proved: `call_thread` comes to the machine's step. The constructor asks what the new thread inherits, and the step is the machine's
//! by all rules that answer so; with other operands nothing is asked, and there is no step. `yield`, `start` and `join` ask nothing:
//! the thread goes on behind its call, another has its turn, the run ends, or an exception is raised, by all rules. What is asked is
//! asked once. Where nothing is asked the guard is as before, also after want of memory. What holds of a machine holds behind it.
#![tactic(auto)]

mod calling;
mod making;
mod turning;

pub use calling::call_thread;
