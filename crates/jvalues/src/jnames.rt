//! The names that instructions and operations share (JVMS 6.5), and the kinds of operands.
//!
//! - `Effects`: the one table of the kinds that each instruction which computes takes and gives, the newest operand first; which
//!   comparisons are of references too.
//!
//! Proved: each call gives the row of its definition.

mod effects;
mod kinds;
mod names;

pub use kinds::{Effect, Kind, Kinds};
pub use names::{Compare, Division, OpOne, OpTwo, Shuffle};
