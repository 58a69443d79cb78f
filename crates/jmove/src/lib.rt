//! One moved method: it takes its caller's security context as one more parameter, enters its own domain, and hands the context on. The
//! rewriter (`jrewrite`) stands on it.
//!
//! - `AssemblyLines`: an assembler's lines, labels of old places and instructions whose branches count from old places; a place is the sum of
//!   the sizes before it.
//! - `MethodExpansion`: the prologue, the expansion of each instruction, the limits, handlers.
//! - `MovedFrames`: full frames with the context in its local.
//! - `PoolAdditions`: what moved code names, and where it stands in a pool.
//! - `MovedMethods`: the whole.
//! - `PlaceTables`: the table of new places that the code looks up.
//! - `MethodLimits`, `CodePlacement`: the laws.
//!
//! Proved: `limit_of` is the first limit that a method breaks, in the order slots, locals, stack, length; `move_method` answers exactly
//! the moved method and the pool that it needs, each error exactly by its cause, before anything is put where it is a limit, and
//! otherwise with a front of what was to be put. One write an instruction, no search for a label. `limit_laws`: limits, and whether a
//! method can be moved, are the same whatever the indices of references in expansions and of classes in frames; what is put into a pool
//! changes these indices alone; code that breaks no limit has at most 32,767 bytes. `line_laws`: what lines say of the places behind
//! instructions, and that code stands from place 0 to its length.
//!
//! `ProofNames` are names by which proofs and contracts of inner functions call what the definitions say in place.
#![tactic(auto)]

mod adding;
mod branching;
mod descriptor;
mod emission;
mod framing;
mod laws;
mod method;
mod moving;
mod naming;
mod places;
mod sizing;
mod whole;

pub use adding::{put_class, put_text};
pub use descriptor::moved_descriptor;
pub use laws::{limit_laws, line_laws};
pub use method::{Expand, MethodIn, MethodOut, MoveError};
pub use moving::limit_of;
pub use whole::move_method;
