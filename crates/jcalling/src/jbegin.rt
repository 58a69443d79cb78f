//! How a thread begins, as a step of `jcore`'s machine.
//!
//! - `ThreadStarts`: what the call of its Runnable's `run` comes to, and what the step does by it.
//!
//! Proved: `begin_thread` comes to the machine's step by all rules where the running thread has no frames: it ends at once without a
//! Runnable; else it has the frame of `run`, which on the passing side is given what it inherited, or is ended by the exception in its
//! place.

mod beginning;
mod failing;
mod pushing;

pub use beginning::begin_thread;
