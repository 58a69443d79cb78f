//! The moved program of a checked program, as a type: it links on the passing side and is well typed there, and each of its parts is a class
//! file. The verb `rewrite` and the form `pass` stand on it.
//!
//! What it is stands in jrewrite: `RewrittenPrograms`, with the first limit that a program breaks, and `RewrittenFiles`, with its class files as
//! they are stored.
//!
//! Proved: `rewrite` answers the moved program of a checked program of the source side where no limit is broken, and else the first limit;
//! whether it answers or memory runs out, the moved program links and is well typed where no limit is broken; the `main` of each class is
//! the same method. `files` are its class files in its order. `into_plain` is the same program as one that runs on the passing side; it
//! refuses nothing and takes no memory.
#![tactic(auto)]

mod rewritten;

pub use jrewriting::jrewrite::{OutFile, RewriteError, RewriteKind};
pub use rewritten::{RewrittenProgram, rewrite};
