//! The moved program, as rooms: laws of moved code (jmove_laws), that a moved class is a class file (jmoveclass_laws), and the program that is
//! moved and links (jrewrite). It stands on the moving of one method (jmove) and of one class (jmoveclass).
//!
//! Each room is a module, whose head says what it holds and what is proved of it; its definitions lie in `specs/` under its name, and so does
//! its part of `proofs/`.
#![tactic(auto)]

pub mod jmove_laws;
pub mod jmoveclass_laws;
pub mod jrewrite;
