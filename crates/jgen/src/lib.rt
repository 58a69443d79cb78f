//! Jobs that are made from a number: classes that call one another and check one permission, a policy that grants it to some of them,
//! and the job that runs them.
//!
//! - `Draws`: what is drawn from a seed, and what it says of each class.
//! - `ClassFileItems`: what stands in a class file behind its pool, item by item, and the entries that its items put into the pool.
//! - `GeneratedClasses`: the class files.
//! - `GeneratedFiles`: the job, its policy, and all files in their order.
//! - `MethodParts`: the parts in which two of the methods are put.
//!
//! Proved: `make_job` answers exactly the made files of seed and size, or want of memory, so that equal seeds and sizes make equal bytes.
//! No pool gets full, and a string's index fits the one byte that it has. That each made class is a class file is shown by tests.
//!
//! `ProofNames` are names by which proofs and contracts of inner functions call what the definitions say in place.
#![tactic(auto)]

mod adding;
mod class;
mod class_file_item;
mod draws;
mod laying;
mod making;
mod methods;
mod texts;

pub use making::{MadeFile, MadeJob, make_job};
