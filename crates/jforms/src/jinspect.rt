//! The inspecting machine: its guard, over kept stacks (`jsnapshots`) and a job's domains, and its run.
//!
//! - `InspectingGuards`: which stack a number stands for, what a frame's mark stands for, and what an ask makes of the guard.
//!
//! Proved: `Inspector` answers each ask as the inspecting rules of jrules do, by what its numbers stand for, and numbers that it gave
//! keep that; a check and the entering of a method leave it as it is. `run_inspect` writes exactly the text of the definition's run of
//! a checked program by these rules, answers its end, and at a fault leaves a front of the text.
//!
//! `count_inspect` answers how many lines of each kind that text has, and its end, and holds no text.

mod counting;
mod inspector;
mod running;

pub use counting::count_inspect;
pub use inspector::Inspector;
pub use running::run_inspect;
