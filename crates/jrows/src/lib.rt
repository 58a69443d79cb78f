//! Rows of instructions by number, as rooms: values and locals (jacts), texts (jtexts), objects (jobjs) and calls (jcalls).
//!
//! Each room is a module, whose head says what it holds and what is proved of it; its definitions lie in `specs/` under its name, and so does
//! its part of `proofs/`.
#![tactic(auto)]

pub mod jacts;
pub mod jcalls;
pub mod jobjs;
pub mod jtexts;
