//! The machine's memory, as rooms: regions of cells (jregion), and the heap of objects that is made of one (jheap). It stands on jvalues.
//!
//! Each room is a module, whose head says what it holds and what is proved of it; its definitions lie in `specs/` under its name, and so does
//! its part of `proofs/`.
#![tactic(auto)]

pub mod jheap;
pub mod jregion;
