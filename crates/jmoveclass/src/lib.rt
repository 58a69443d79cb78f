//! One moved class: each of its methods takes its caller's context (`jmove`), its pool names what they need, and of the attributes
//! those are kept that say nothing of code. The rewriter (`jrewrite`) stands on it.
//!
//! - `CallExpansion`: what an instruction becomes, by what its reference stands for.
//! - `EntryLocals`: what the locals of a method hold where it begins, as frames say it.
//! - `KeptAttributes`: which attributes are kept.
//! - `MovedMembers`, `MovedClasses`: the moved method, the moved class.
//! - `ClassLimits`: the first limit that a class breaks.
//! - `MovableClasses`: what is asked of a class that is to be moved.
//! - `PoolPuts`: what is put into a pool, item by item.
//!
//! Proved: `moved_class` answers exactly the moved class where no limit is broken, and else the first: the methods in their order, and
//! the pool without room last, with no method.
//!
//! `ProofNames` are names by which proofs and contracts of inner functions call what the definitions say in place.
#![tactic(auto)]

mod beginning;
mod body;
mod calls;
mod frames;
mod kept;
mod limit;
mod limits;
mod method;
mod moving;
mod whole;

pub use limit::{ClassError, Limit, RewriteKind};
pub use moving::Moving;
pub use whole::moved_class;
