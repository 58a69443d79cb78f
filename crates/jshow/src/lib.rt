//! What is written beside a run, and the statuses with which the program ends. `Refusal` is what is refused.
//!
//! - `CommandAnswers`: an answer is a text, the files that are stored and a status; what a call wrote whose answer is one (`Answers`); and what a
//!   call does to its sink that writes a text (`Puts`) or such an answer (`Shows`).
//! - `Statuses`: the exit number of each status, and what a run's end is as a status.
//! - `Refusals`: the lines of refusals.
//! - `Listings`: the lines of the verb `policy`.
//! - `CheckCounts`: how many methods have code, and the line that tells it.
//!
//! Proved: `show_refusal`, `show_checked` and `put_listing` write exactly these lines, or the part before a fault that the sink
//! counted, or, where no memory is left, a front of them; `number` and `status_of` are their tables.
#![tactic(auto)]

mod counting;
mod listing;
mod refusal;
mod refusing;
mod status;

pub use counting::show_checked;
pub use listing::put_listing;
pub use refusal::Refusal;
pub use refusing::show_refusal;
pub use status::{Status, status_of};
