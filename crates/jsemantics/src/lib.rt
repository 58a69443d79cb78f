//! What a program means, as rooms: the machine, its states and its steps (jmachine), and the rules of access control by which it decides, by
//! walking frames or by contexts that are handed on (jrules). A reader of the theorem opens this crate: it holds definitions, and no code that a
//! run executes. It stands on jresolution, jtyping and the domains of code (jdomain).
//!
//! Each room is a module, whose head says what it holds and what is proved of it; its definitions lie in `specs/` under its name, and so does
//! its part of `proofs/`.
//!
//! `ProofNames` are names by which proofs and contracts of inner functions call what the definitions say in place.
#![tactic(auto)]

pub mod jmachine;
pub mod jrules;
