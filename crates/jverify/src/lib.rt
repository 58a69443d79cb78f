//! The walk of the type checker: one pass over each method, with one frame at a time, by numbers.
//!
//! - `InternedMethods`, `CheckedMethods`: methods by number, and what they stand for.
//! - `NewInstructions`: the `new`s of a method.
//! - `FrameTables`, `LocalChains`: the frames that a method declares, whose locals are kept as chains that share their first ones.
//! - `MethodStarts`: how a method begins.
//! - `IncomingFrames`: the frame before an instruction, as far as its method is well typed.
//! - `FrameFacts`: what is known of the frame that is held, so that handlers and locals that are known to serve aren't looked at again.
//! - `MethodPlaces`: what a place in a method stands for.
//!
//! Proved: `first_fault` answers the first place of a program with a test that fails, and none exactly where none fails.
//! `frame_before` answers the frame before an instruction, for those who say what was there where a program isn't well typed.
#![tactic(auto)]

mod before;
mod chains;
mod declared;
mod held;
mod method;
mod news;
mod place;
mod reading;
mod storing;
mod verdict;
mod walk;

pub use before::frame_before;
pub use place::Place;
pub use verdict::first_fault;
