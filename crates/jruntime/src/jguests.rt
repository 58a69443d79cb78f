//! The guest threads of a machine: the one that runs stands beside the others, which wait in a list. `open`, `add`, `turn`.
//!
//! - `GuestThreads`: the threads as the machine's state has them, and that state with a store.
//! - `TurnOutcomes`: what a turn came to.
//!
//! Proved: `turn` gives the turn that the definition's `turned` gives, or ends the run as it does; `add` puts a thread that isn't
//! started behind the others; each thread with frames was there before. Each change of the table keeps that no thread waits for one
//! that has ended (`AwaitLiving`), and a turn is given to a runnable one: so where the run goes on, the thread that runs is runnable
//! and none waits in vain (`Lives`).

mod guests;
mod turns;

pub use guests::{Guest, Guests, guest_laws};
pub use turns::Turned;
