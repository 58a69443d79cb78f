//! What the program does with its words: the task is found (`jtask`), its files are stored (`jstore`), and what it tells is written (`jshow`,
//! and for a run `jinspect`, `jplain` or `jpass`).
//!
//! - `Answers`: the text, the files and the status of a task, one case a verb, and of words.
//! - `GeneratedRuns`: what is told of the two runs of a job that is made, and the answer to `gen`.
//! - `Headline`: what a run in the pass form answers of the program as it was written.
//! - `RewrittenRuns`: when a shelf holds what a rewriting stored, and what is answered over it.
//! - `JobProgress`: which runs are never stuck.
//! - `PassedRuns`: what is so of a run in the pass form, whatever a call answers.
//!
//! Proved: **the theorem on `javasec(alloc, words, shelf, out)`**, and on `dispatch(alloc, command, shelf, out)`, which is the same
//! behind the words (docs/THEOREMS.md). Laws, on functions without a body:
//!
//! - `passed_law`: over all files that hold bytes, each run in the pass form has the events and the end of the inspecting run, within stated
//!   numbers of steps; the moved program passes the checker; and neither run is ever stuck. Both calls promise this too.
//! - `alike_law`: over a shelf that holds what `rewrite` stored, with the policy as it was, the form plain answers what the form pass answers of
//!   the first job: the same text and the same status.
//! - `unstuck_law`: no run that files ask for is ever stuck, in any form, and neither machine of the theorem is.
//! - `made_law`: the answer to a job that is made has a status. Both calls promise this of whatever reads no file.

mod counting;
mod laws;
mod making;
mod showing;
mod top;

pub use jshow::Status;
pub use laws::{alike_law, made_law, passed_law, unstuck_law};
pub use top::{dispatch, javasec};
