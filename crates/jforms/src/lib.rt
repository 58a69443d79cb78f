//! Whole runs, as rooms: tables that stand as long as a program runs (jtables), the engine and its steps (jengine), and the forms inspect
//! (jinspect), plain (jplain) and pass (jpass). It stands on the machine's inner rooms, the checker, the soundness and the pass theorem.
//!
//! Each room is a module, whose head says what it holds and what is proved of it; its definitions lie in `specs/` under its name, and so does
//! its part of `proofs/`.
#![tactic(auto)]

pub mod jengine;
pub mod jinspect;
pub mod jpass;
pub mod jplain;
pub mod jtables;
