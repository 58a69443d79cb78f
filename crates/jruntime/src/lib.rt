//! What the code of a machine keeps while it runs, as rooms: states by numbers (jstate), guest threads (jguests), and runs (jrun). It stands on
//! the machine's definition (jsemantics) and the heap (jmemory).
//!
//! Each room is a module, whose head says what it holds and what is proved of it; its definitions lie in `specs/` under its name, and so does
//! its part of `proofs/`.
#![tactic(auto)]

pub mod jguests;
pub mod jrun;
pub mod jstate;
