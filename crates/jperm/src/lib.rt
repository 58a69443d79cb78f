//! Permissions: `make`, `implies`, `covers`, `equal`, `text`, `copy`, and PERM in parts for writers that take no memory. A permission's
//! actions and paths are types that hold no other values than `make` gives.
//!
//! - `NameCoverage`, `PathCoverage`, `Actions`: when a name and a path cover another; the actions, their words, and what a text of them gives.
//! - `AbsolutePaths`, `WrittenPaths`, `TextPieces`: what path a written name gives in a directory.
//! - `Permissions`: implies, covers, equal.
//! - `PermissionConstructors`: what a class makes of a name and actions, and which fault comes first.
//! - `PermissionTexts`: the text of a permission, whole and in parts.
//! - `PermissionKeys`, `PermissionChains`: a number for each permission, by its kind and name, and the chains in which the entries of a list
//!   stand by these numbers, so that a check looks at few of them.
//!
//! Proved: each call is its definition; `permission_laws`: equality is equality itself, each but an unresolved permission implies
//! itself, and implication is transitive; `covers_laws`: a list covers what a member implies and all that a covered permission implies,
//! and more grants take no permission away; a list with its index (`Indexed`) covers what `covers` says, without memory; `made_laws`:
//! no permission that is made asks for no actions.
//!
//! `ProofNames` are names by which proofs and contracts of inner functions call what the definitions say in place.
#![tactic(auto)]

mod action;
mod chains;
mod coverage;
mod indexed;
mod laws;
mod making;
mod name;
mod path;
mod permission;
mod pieces;
mod set;
mod text;
mod words;
mod written;

pub use action::Action;
pub use indexed::Indexed;
pub use laws::{covers_laws, made_laws, permission_laws, text_laws};
pub use making::{PermClass, PermError, make};
pub use path::{AbsolutePath, FilePath};
pub use permission::{BasicClass, Permission, covers};
pub use set::{Actions, FileActions, PropertyActions};
pub use text::PARTS;
