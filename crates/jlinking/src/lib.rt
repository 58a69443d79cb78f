//! Linking, as rooms: members (jmembers), what code refers to (jreferring), and programs that link (jlink).
//!
//! Each room is a module, whose head says what it holds and what is proved of it; its definitions lie in `specs/` under its name, and so does
//! its part of `proofs/`.
//!
//! `ProofNames` are names by which proofs and contracts of inner functions call what the definitions say in place.
#![tactic(auto)]

pub mod jlink;
pub mod jmembers;
pub mod jreferring;
