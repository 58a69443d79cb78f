//! What a moved program keeps, as rooms: what its names come to (names), its code (code), its types (types), and its contexts, which stay small
//! (contexts). Its rooms hold laws: no body of them does anything. It stands on the moved program (jrewriting) and on the simulation's relation
//! (jsimulation_laws).
//!
//! Each room is a module, whose head says what it holds and what is proved of it; its definitions lie in `specs/` under its name, and so does
//! its part of `proofs/`.
#![tactic(auto)]

pub mod code;
pub mod contexts;
pub mod names;
pub mod types;
