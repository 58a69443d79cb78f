//! What names of a program come to, as rooms: its classes with resolution and selection (jprogram), what its instructions use (juses), and where
//! the fields of its objects lie (jlayout). It stands on class files (jclass), types (jtypes) and the library's table (jlib).
//!
//! Each room is a module, whose head says what it holds and what is proved of it; its definitions lie in `specs/` under its name, and so does
//! its part of `proofs/`.
//!
//! `ProofNames` are names by which proofs and contracts of inner functions call what the definitions say in place.
#![tactic(auto)]

pub mod jlayout;
pub mod jprogram;
pub mod juses;
