//! The whole machine by numbers: one step of whichever kind, and the run, for any guard (`jguard`) that answers what it asks of access
//! control.
//!
//! - `AccessCalls`: what a call of the library asks of access control (`AsksFor`), by which its step is chosen.
//! - `ExecutedSteps`: a step that was executed, of which a call of the library may be left to make.
//!
//! What a machine and a guard are together, how a run begins and where it is, is `jtables`'s; what its `Holds` says between steps is the
//! invariant of `Engine`, whose `step` asks only that the run has not ended.
//!
//! Proved: `advance` comes to jmachine's step by all rules by numbers that answer as the guard did what the step asks, be it an
//! instruction (`jexecute`), a call of the library (`jcallplain`, `jcallcheck`, `jcallcontext`, `jcallthread`) or the beginning of a
//! thread (`jbegin`); so a machine and its guard (`Moving`) are a machine that `jrun` runs, whose steps are jmachine's by the guard's
//! own rules: as many quick ones (`jexecute`'s `hasten`) as there are, and one behind them, whose call of the library `answer` makes, or
//! that `advance` makes. `run` writes exactly the text of
//! jmachine's run by the guard's rules under the plan's heap, depth and steps, answers its end, and at a fault leaves a front of the
//! text.
//!
//! Proved of `Engine`, which others step, over an `EngineTables` that they keep: `open` stands for jmachine's first state by the guard's
//! rules, or has ended as `HeapFull`, exactly where the plan's heap is below the opening's charge; `step` comes to jmachine's step for
//! each state for which the engine stands, and `ended` is the end that a step was; in each state for which it stands, at the beginning
//! and behind each step, the running thread is runnable and no thread waits for one that has ended; the guard's rules stay, its numbers
//! and marks keep what they stand for, where the step asks something the guard was asked it once, and where it asks nothing the guard
//! is as before; where a step found no memory each later one finds none. `guard` lends the guard as it stands.
//!
//! `count` runs in the same way and counts instead of writing (`jtally`), step by step, so that no text is held: `RunTallies` is what is told of a
//! run, `EnginePositions` where an engine stands in one.

mod advancing;
mod counting;
mod engine;
mod moving;
mod running;

pub use crate::jtables::{EngineTables, is_sound};
pub use counting::count;
pub use engine::Engine;
pub use running::run;
