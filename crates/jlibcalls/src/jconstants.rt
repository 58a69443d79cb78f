//! String constants, by numbers: one object for each text, made when it is first loaded. A constant is named by a class and the index
//! of its text; its units are decoded and looked up once for each of these, at the first time, and its object's number stands in a
//! table from then on.
//!
//! - `StringConstants`: the constants that were made, in the order in which the machine's store has them, and what is kept of them: their objects
//!   by their units, and by classes and indices.
//! - `ConstantLoads`: what a load comes to.
//!
//! Proved: `load` is jmachine's row of the instruction that pushes the text, for whatever the heap stands for, with the constants
//! before and behind it; `get` gives the object without a frame, and `find` says whether it was made, by the definition's list.

mod constants;
mod known;
mod loading;
mod table;
mod texts;

pub use constants::Constants;
