//! From the files of a job to a program that may run, as rooms: the stages of reading, linking, checking and rewriting with their refusals
//! (jstages), and the tasks that a command asks for (jtask). It stands on the readers, the checker and the rewriter.
//!
//! Each room is a module, whose head says what it holds and what is proved of it; its definitions lie in `specs/` under its name, and so does
//! its part of `proofs/`.
#![tactic(auto)]

pub mod jstages;
pub mod jtask;
