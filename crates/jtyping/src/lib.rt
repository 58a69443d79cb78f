//! The type checker's rules, as rooms: the rule of each instruction, by which a frame comes to the next (jrule), and which methods and programs
//! are well typed by it (jwelltyped). The checker itself is jverify. It stands on jresolution.
//!
//! Each room is a module, whose head says what it holds and what is proved of it; its definitions lie in `specs/` under its name, and so does
//! its part of `proofs/`.
//!
//! `ProofNames` are names by which proofs and contracts of inner functions call what the definitions say in place.
#![tactic(auto)]

pub mod jrule;
pub mod jwelltyped;
