//! What a machine by numbers (`jcore`) and a guard (`jguard`) are together, between steps and at the beginning of a run, whatever makes
//! the steps.
//!
//! - `Engines`: what is asked of a program and of rules, so that no run is stuck (`IsSafe`), and what holds between steps of a machine and a
//!   guard (`IsEngine`): that, the machine is ready, its frames' marks are the guard's, and there is a typed state for which its own stands.
//! - `RunTables`: what stands as long as a program runs (`IsGround`), and how a run begins: by numbers for all rules that hand `main` the
//!   same (`IsBegun`), and by the guard's rules (`Starts`), or the heap has too few cells.
//! - `RunPositions`: where the run of an engine is: its end, if it has one (`end_of`), whether a step found no memory (`is_lost`), the
//!   states for which it stands (`Stands`), what is so of the threads of each such state (`AreLive`), what a step of the guard's rules
//!   comes to (`steps`), and what holds of it between steps (`Holds`); contracts see an engine as its guard and where its run is
//!   (`Coursed`).
//!
//! Proved: `EngineTables::of` makes what stands as long as a program runs, with the marks that the guard gives; `start` makes the machine that
//! stands at jmachine's first state by the guard's rules, which has a typed state, or none exactly where the plan's heap is below the
//! opening's charge; the guard's rules stay. `course_of`, `put` and `leave` are where that, another and a step leave a `Course`. A program that
//! links and is well typed is what its typed states rest on (`is_sound`).
//!
//! Laws: what comes of a step of an engine that was answered, that it is an engine again, and that it isn't stuck.

mod beginning;
mod course;
mod grounds;
mod opening;
mod safety;

pub use course::{Course, course_of, leave, put};
pub use grounds::EngineTables;
pub use opening::start;
pub use safety::{ByRules, is_sound};
