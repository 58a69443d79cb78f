//! New constants: the `Adder`, a constant pool that grows, over `indexmap`.
//!
//! - `EntryInterning`: the least equal entry, or the place behind the others.
//! - `ConstantNumbers`: the numbers that are kept beside the pool, by the bytes that spell each entry.
//!
//! Proved: `Adder::add` answers the least index of an equal entry or puts the entry behind the others, `PoolFull` exactly where there is
//! no room, and leaves the pool as it was at every error. Moving and made jobs put entries by the adder.
#![tactic(auto)]

mod adder;

pub use adder::{AddError, Adder};
