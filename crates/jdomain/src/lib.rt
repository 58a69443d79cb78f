//! Code sources (`CodeSource`), the domains that a policy makes of them (`Domains`), over the kit's `url`; the verdict on a stack of
//! domains.
//!
//! - `CodeSources`: which texts are code sources, and for which of them a code base stands, over the parts of the URL Standard.
//! - `Domains`: the permission of an entry, what is granted to a source, what a domain has.
//! - `GrantShares`: each grant's code base read once and its permissions made once, and the lists of sources, where those that take of the
//!   same grants have one, with an index.
//! - `DomainStacks`: stacks of domains with marks, given stacks and limits, and the walk that decides a permission.
//!
//! Proved: `CodeSource::read` takes exactly the URLs of directories, and says whether any other text is no URL or no directory;
//! `matches` says exactly whether a grant is for the code of a source; `Domains::open` gives each source exactly the permissions of the
//! grants that are for it, in order, and `implies` whether they cover a permission.
//!
//! `ProofNames` are names by which proofs and contracts of inner functions call what the definitions say in place.
#![tactic(auto)]

mod code;
mod domain;
mod entry;
mod fault;
mod lists;
mod share;
mod source;
mod verdict;

pub use code::MOST_URL;
pub use domain::Domains;
pub use fault::SourceError;
pub use source::CodeSource;
pub use verdict::Verdict;
