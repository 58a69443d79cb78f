//! The parts of class files, as rooms: the constant pool (jpool), stack maps (jmaps) and code (jcode).
//!
//! Each room is a module, whose head says what it holds and what is proved of it; its definitions lie in `specs/` under its name, and so does
//! its part of `proofs/`.
//!
//! `ProofNames` are names by which proofs and contracts of inner functions call what the definitions say in place.
#![tactic(auto)]

pub mod jcode;
pub mod jmaps;
pub mod jpool;
