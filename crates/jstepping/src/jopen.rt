//! The state in which a run begins, by numbers: `System.out`, the strings of ConstantValues, each text once, by `jconstants`, the empty
//! array, the statics and the frame of `main`.
//!
//! - `InitialMachines`: what the opening comes to.
//! - `OpeningTexts`, `InitialHeaps`: the heap string by string and step by step.
//! - `StaticRows`: what statics hold at first, by `jready`'s rows.
//!
//! Proved: `open` answers none exactly where the opening's charge is above the heap's cells; else the heap, with the constants that
//! were made, is `jmachine`'s opening store, each object has the cells that its class wants, and the frames are those of its main
//! thread, for all rules whose frames carry the mark and hand the context that were given.

mod heap;
mod opening;
mod statics;
mod texts;

pub use opening::{FirstFrame, Opened, open};
