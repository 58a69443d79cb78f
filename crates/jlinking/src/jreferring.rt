//! The fourth phase of linking: what the code of methods names (JVMS 4.7.3, 4.7.4, 6.5).
//!
//! - `ClassNameAccess`, `ClassEntryUses`, `ReferenceUses`: the tests of classes and of members.
//! - `PoolEntryMeanings`: what a pool's entries stand for, seen from the class, each once.
//! - `MemberLookUp`: how a reference's member is looked for.
//! - `CodeUnits`: instructions, handlers, frames.
//! - `InitialFrames`: the frame that a method begins with, which is written nowhere and names the classes of the parameters.
//! - `CodeChecks`: the phase.
//! - `PoolTextCache`: what is noted of a pool's texts, so that each is looked at once.
//!
//! Proved: `code_fault` is the first fault of the phase, unit by unit, on the condition that no interface stands among its own.

mod beginning;
mod code;
mod entries;
mod judged;
mod names;
mod operands;
mod references;
mod units;
mod use_cache;
mod uses;

pub use code::code_fault;
