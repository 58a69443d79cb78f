//! The pass theorem: what a moved program tells, by the machine that is handed contexts, of what the program tells as it was written, by the machine
//! that walks frames: the same events in the same order, and the same end.
//!
//! - `PassRelation`: which states of the one stand for which of the other.
//! - `PassSimulation`: what whole runs tell of one another, with the numbers of steps; and which runs are never stuck.
//!
//! Proved, on `stand_law`: each step of the inspecting machine that isn't stuck is answered by as many of the plain one as its instruction tells
//! (`steps`, of `jsimulation_laws::relation`), which are 1 to 7 and tell nothing before the last. On `pass_law`: what the plain run has told after m
//! steps the inspecting one has told after some k of no more than m, and has ended so, or neither has ended and m is at most 8 k + 15; and where the
//! inspecting run has ended after n steps, any 8 n + 8 steps of the plain one tell the same and end alike. The two programs are any of which a
//! machine knows that the second is the first one moved (`jsimulation_laws::relation`); on `moved_laws` they are each program that links, is well
//! typed and breaks no limit, and its moved program. Where a machine knows no more, this holds as far as the inspecting run isn't stuck; a program
//! that links and is well typed has no run that is (`jsoundness_laws::program`).
//!
//! It stands on the simulation (jsimulation_laws), on what a moved program keeps (jmoved_laws) and on soundness (jsoundness_laws).
#![tactic(auto)]

mod laws;
mod machines;

pub use laws::{moved_laws, pass_law, stand_law};
pub use machines::{ByContexts, ByFrames};
