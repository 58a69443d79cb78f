//! The machine's values, as rooms: kinds and names of operations (jnames), and what operations make of values (jops). It stands on no crate.
//!
//! Each room is a module, whose head says what it holds and what is proved of it; its definitions lie in `specs/` under its name, and so does
//! its part of `proofs/`.
//!
//! `ProofNames` are names by which proofs and contracts of inner functions call what the definitions say in place.
#![tactic(auto)]

pub mod jnames;
pub mod jops;
