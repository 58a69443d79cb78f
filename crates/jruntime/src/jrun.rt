//! The run of a machine, whatever it is. `Stepping` is a machine that is run by stretches of steps, of which none but the last tells
//! anything, as a trait; `run` writes a line for each event and one for the end.
//!
//! - `StepOutcomes`: what a step and what a stretch of steps came to, by what the definition's steps come to; runs that begin.
//! - `RunSegments`: some steps of a run.
//!
//! Proved: `run` writes exactly the text of the definition's run after so many steps and answers its end, `Bound` where it hasn't
//! ended; at a fault a front of it went out, and a fault of writing is told only where one was counted. That each state has a step is
//! for the machine to know: `Stepping` has no answer for one that has none, and `Came` is the word of the rooms below it, which do.

mod came;
mod running;
mod stepping;
mod writing;

pub use came::Came;
pub use running::{close, run};
pub use stepping::{Stepped, Stepping, Stretch};
