//! Kept stacks and privileges by numbers, as the inspecting machine holds them.
//!
//! - `SnapshotMeanings`: what a number stands for, a stack or a mark of a frame.
//! - `SnapshotEntries`: each entry speaks of earlier numbers alone.
//! - `SnapshotPath`: the stack that was kept last, frame by frame, which the next one shares.
//! - `WalkEnds`: where a walk ends, by one frame.
//!
//! Proved: `snapshot` and `privilege` give a number that stands for the stack of these frames on that of the inherited number, or for
//! the mark with its given stack and limits; earlier numbers keep what they stand for, and an error changes nothing. `walk` is exactly
//! the walk of the stack that frames and an inherited number stand for.
#![tactic(auto)]

mod entry;
mod kept;
mod mark;
mod path;
mod table;
mod walking;

pub use kept::Kept;
pub use mark::InspectMark;
