//! Which types fit which, by number: what stands above the classes of a program that links, and whether a value of one type may stand
//! where another is wanted, or is one of it. Nothing of the machine is needed for it.
//!
//! - `TypeQueries`: how types are compared, as they fit where a machine runs, or as casts and stores into arrays ask.
//! - `SubtypeTables`: what is kept of each of the program's own classes.
//! - Types are compared by number alone: what stands above a user's class, and whether it is an interface, is kept (`Ancestors`), and of a
//!   class of the library it is told by its kind. Names are looked at where a number stands for no class of the program, which no machine
//!   meets.
//!
//! Proved, for all numbers: `fits` and `is_instance` are the two ways to compare the types that numbers stand for.

mod ancestors;
mod columns;
mod fitting;
mod lines;

pub use ancestors::Ancestors;
pub use fitting::{fits, is_instance};
