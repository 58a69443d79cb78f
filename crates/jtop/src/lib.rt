//! The top, as rooms: what each command does with a job's files and what it writes (jdriver), and the command line over the real system
//! (jmain). It stands on tasks, forms and the store.
//!
//! Each room is a module, whose head says what it holds and what is proved of it; its definitions lie in `specs/` under its name, and so does
//! its part of `proofs/`.
#![tactic(auto)]

pub mod jdriver;
pub mod jmain;
