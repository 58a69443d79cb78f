//! One step of a running thread, whichever it is, as rooms: calls of the library that ask nothing (jcallplain), checks of permissions
//! (jcallcheck), contexts and privileges (jcallcontext), the beginning of a thread (jbegin), and the step by its instruction, with stretches
//! of quick ones (jexecute).
//!
//! Each room is a module, whose head says what it holds and what is proved of it; its definitions lie in `specs/` under its name, and so does
//! its part of `proofs/`.
#![tactic(auto)]

pub mod jbegin;
pub mod jcallcheck;
pub mod jcallcontext;
pub mod jcallplain;
pub mod jexecute;
