//! What operands and calls ask of a program, as rooms: types that fit (jfits), operands that serve (jserve), what calls and throws come to
//! (jinvoke), and what lies in the cells of objects (jcells). It stands on programs made ready (jready) and on rows (jrows).
//!
//! Each room is a module, whose head says what it holds and what is proved of it; its definitions lie in `specs/` under its name, and so does
//! its part of `proofs/`.
#![tactic(auto)]

pub mod jcells;
pub mod jfits;
pub mod jinvoke;
pub mod jserve;
