//! How many lines of each kind a run's text has.
//!
//! - `LineTallies`: how many lines of a text begin with the word of grants, denials, throws and outs, what is told of a run that is counted
//!   (`tally`), and its line.
//! - `EventCounts`: the same counts by events, one after the other.
//!
//! Proved: `tally_laws`, that the lines of a run's text are as many of each kind as its events; `with_all` counts events, and answers none
//! only where a count is above 64 bits; `put_tally` writes exactly the line of a tally, or a front of it.

mod counts;
mod laws;
mod line;

pub use counts::{Counts, Tally};
pub use laws::tally_laws;
pub use line::put_tally;
