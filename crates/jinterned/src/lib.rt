//! Security contexts by number, each once: `Table`, with `enter`, `privileged`, `verdict`. Number 0 is the empty context. An item is a
//! pair of numbers, of its limits and its domain; pairs lie in regions, and lists of limits have one number each.
//!
//! - `InternedContexts`: what a number stands for, and how a table grows.
//! - `ContextStores`, `LimitSets`, `PairLists`, `PairRegions`: contexts as lists of pairs, limits by number, pairs in regions.
//! - `DigestChains`, `ContextDigests`: chains by which limits and contexts are found, which no contract above sees.
//! - `LimitExtension`: limits with new ones added, by their numbers.
//! - `DomainEntryCache`: what is remembered of contexts that domains enter.
//!
//! Proved: `enter` and `privileged` answer a number whose context is the definition's; each adds at most one context, at the end, and no
//! two are equal; after an error the table is as before; `verdict` is its definition and the walk's of every stack whose context it is,
//! and takes no memory.
#![tactic(auto)]

mod alike;
mod digest;
mod entered;
mod index;
mod limits;
mod lists;
mod making;
mod pairs;
mod sets;
mod store;
mod table;

pub use table::Table;
