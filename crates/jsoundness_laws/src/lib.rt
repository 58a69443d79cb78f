//! Type soundness of the machine's definition, as rooms: typed states (typed), what the rows of the library's calls yield (library), that each
//! typed state has a step and that its step leads to a typed state (progress), and that a program which links and is well typed is never stuck
//! (program). Its rooms hold laws: no body of them does anything. It stands on the machine's definition (jsemantics) and on jtyping.
//!
//! Each room is a module, whose head says what it holds and what is proved of it; its definitions lie in `specs/` under its name, and so does
//! its part of `proofs/`.
#![tactic(auto)]

pub mod library;
pub mod program;
pub mod progress;
pub mod typed;
