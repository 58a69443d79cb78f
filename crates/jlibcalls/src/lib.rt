//! The library's calls by number, as rooms: strings and builders (jlibrary), contexts (jcontexts), checks (jchecks), threads (jthreading)
//! and constants (jconstants).
//!
//! Each room is a module, whose head says what it holds and what is proved of it; its definitions lie in `specs/` under its name, and so does
//! its part of `proofs/`.
#![tactic(auto)]

pub mod jchecks;
pub mod jconstants;
pub mod jcontexts;
pub mod jlibrary;
pub mod jthreading;
