//! The plain machine's guard: it answers what is asked of access control by the contexts that calls hand on, and never looks at frames
//! (Wallach, Appel and Felten, 2000). The forms `plain` and `pass` run by it.
//!
//! - `PlainGuards`: what an ask makes of the guard.
//!
//! Proved: each answer of `PlainGuard` stands for what the rules of contexts answer; a check leaves the guard as it is; `run_plain` writes exactly
//! the text of the machine's run by these rules under the plan's heap, depth and steps, answers its end, and at a fault leaves a front of the
//! text.
//!
//! `count_plain` answers how many lines of each kind that text has, and its end, and holds no text.

mod counting;
mod plain_guard;
mod running;

pub use crate::jengine::is_sound;
pub use counting::count_plain;
pub use plain_guard::PlainGuard;
pub use running::run_plain;
