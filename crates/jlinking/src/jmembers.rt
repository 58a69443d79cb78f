//! The third phase of linking: what members a class may declare (JVMS 4.5, 4.6, 5.4.5).
//!
//! - `MemberDeclarations`: the tests with their places, methods before fields: twice, left out, missing classes, methods that the library fixes,
//!   final methods.
//! - `MemberSets`, `PoolTexts`: the texts of a pool by numbers, what was met.
//! - `FinalOverrides`: final methods above, as one walk looks for them.
//!
//! Proved: `members_fault` is the first fault of the phase, for every program.

mod again;
mod class_texts;
mod descs;
mod fixed;
mod left_out;
mod numbers;
mod phase;
mod sealed;

pub use phase::members_fault;
