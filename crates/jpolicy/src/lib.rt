//! Policy files whole: `read_policy`.
//!
//! - `Characters`, `Strings`, `Tokens`: what is a token, and where it stands.
//! - `Expansion`: properties in strings.
//! - `Grammar`: the grammar over tokens with what each construct states; which tokens begin what it derives, and which token it doesn't
//!   allow.
//! - `Productions`: the same grammar as productions, which say the first fault.
//! - `Policies`: from bytes to grants, and a fault as that of the first token that isn't allowed.
//! - `ListWalks`, `ReaderTermination`: going along a list by steps, and where such a walk ends.
//!
//! Proved: `read_policy` reads exactly what the grammar derives, with the grants that it states and their properties expanded; of other
//! bytes it names the fault that the productions name, and this is the first token that the grammar doesn't allow: the tokens in front
//! of it begin a policy, with it none begins, and it is a self-expansion exactly where another string is allowed there. `walk_laws`:
//! none of its walks ends for want of steps.
//!
//! `ProofNames` are names by which proofs and contracts of inner functions call what the definitions say in place.
#![tactic(auto)]

mod character;
mod clauses;
mod entry;
mod expanding;
mod fault;
mod grant;
mod items;
mod keyword;
mod laws;
mod lexing;
mod parts;
mod quoted;
mod read;
mod stated;
mod token;
mod walk;

pub use fault::{PolicyError, PolicyFault};
pub use grant::{Grant, GrantEntry, Policy};
pub use laws::walk_laws;
pub use read::read_policy;
