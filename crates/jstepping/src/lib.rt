//! A machine's step by number, as rooms: the rows of steps (jstep), references (jrefs), opening (jopen), what is told (jtold) and the machine
//! itself (jcore).
//!
//! Each room is a module, whose head says what it holds and what is proved of it; its definitions lie in `specs/` under its name, and so does
//! its part of `proofs/`.
#![tactic(auto)]

pub mod jcore;
pub mod jopen;
pub mod jrefs;
pub mod jstep;
pub mod jtold;
