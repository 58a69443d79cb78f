//! What a run reads and writes, as rooms: files, directories and sinks (jio), the lines that tell a run's events (jtrace), and their counts
//! (jtally). It stands on permissions (jperm), which its lines name; no domain's grants are known here.
//!
//! Each room is a module, whose head says what it holds and what is proved of it; its definitions lie in `specs/` under its name, and so does
//! its part of `proofs/`.
//!
//! `ProofNames` are names by which proofs and contracts of inner functions call what the definitions say in place.
#![tactic(auto)]

pub mod jio;
pub mod jtally;
pub mod jtrace;
