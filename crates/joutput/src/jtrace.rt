//! Events and ends of a run, and their lines, without memory.
//!
//! - `TraceLines`: the line of each event and of each end, the text of a run, the parts of a check's line.
//!
//! Proved: `write_event` and `write_end` write exactly the line, or a front of it.

mod event;
mod fault;
mod lines;

pub use event::{End, Event};
pub use fault::RunFault;
pub use lines::{MOST_UNITS, write_end, write_event};
