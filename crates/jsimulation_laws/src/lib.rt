//! The simulation of a program by its moved program, as rooms: machines between the two (between), several steps for one (stuttering), when a
//! state stands for another (relation), and the local simulation, by instruction (local). Its rooms hold laws: no body of them does anything.
//! It stands on the machine's definition (jsemantics).
//!
//! Each room is a module, whose head says what it holds and what is proved of it; its definitions lie in `specs/` under its name, and so does
//! its part of `proofs/`.
#![tactic(auto)]

pub mod between;
pub mod local;
pub mod relation;
pub mod stuttering;
