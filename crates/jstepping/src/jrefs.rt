//! The row of each instruction by number with references: fields and statics, `System.out`, `new` of both kinds, `anewarray`,
//! `checkcast`, `instanceof`, `aastore`, and branches that test references. It asks `jserve` whether operands serve, and `jobjs` does
//! the row.
//!
//! - `ReferenceRows`: which instructions are here, what lasts while a program runs (`IsLasting`: it links, its parts are class files, the
//!   shapes are tied to it), and what it means that one by number did what it stands for, where there are so many permissions and
//!   contexts.
//! - `NamedEntries`: what an instruction says of a field by number.
//! - `RowInvariance`: the same of rows, whatever else is kept that makes the same of the objects.
//!
//! Proved: `run` does what the instruction stands for by jready's `meant`, where the machine looks for it at the frame's place; where
//! it stands for nothing there is no step; objects are left alike, whatever permissions and kept numbers are there; builders' pieces
//! and the objects' cells stay as they are to be. A field stands at its slot in each object that serves, as linking says which classes
//! extend the one that declares it, and no class of the library stands below a user's.

mod arrays;
mod branches;
mod casts;
mod fields;
mod lasting;
mod looking;
mod making;
mod objects;
mod rows;
mod serving;
mod statics;

pub use lasting::Lasting;
pub use rows::run;
