//! The type checker: what it accepts, as a type. Its one pass over each method is jverify's.
//!
//! - `CheckErrors`: what an error of checking says.
//!
//! Proved: `check` answers the program that was handed in exactly where it is well typed, and else hands it back unchanged with the
//! first place that isn't; a `CheckedProgram` is well typed by both definitions; `into_plain` makes a `PlainProgram` of it exactly
//! where its side is the passing one, and else hands it back.
#![tactic(auto)]

mod checked;
mod fault;
mod verdict;

pub use checked::{CheckedProgram, PlainProgram};
pub use fault::TypeFault;
pub use verdict::check;
