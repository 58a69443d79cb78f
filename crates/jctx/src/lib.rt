//! Security contexts as values, in place of the stack below a method (Wallach, Appel and Felten): `top`, `enter`, `privileged`,
//! `Context::verdict`. By them jrules says what the machine that passes contexts does.
//!
//! - `ContextItems`: a domain that is asked, and the limits under which it is.
//! - `PrivilegeLimits`: sets of permissions.
//! - `Contexts`: what a context decides, how one is made at a call and at a privilege, and the context of a stack.
//! - `ContextGrowth`: contexts that grow item by item.
//! - `ContextLaws`: the laws.
//!
//! Proved: each call is its definition; `verdict` takes no memory, and the context of a stack decides as the walk of the stack does,
//! the denying domain included (also on `context_laws`, for every stack and permission); no item of a context that is made is covered
//! by an earlier one; without limits the domains of such a context differ, so that it has no more items than there are domains, and a
//! call within its newest domain changes nothing. A privilege that a method takes in the context that it entered is one in the context
//! in which it was called.
//!
//! `ProofNames` are names by which proofs and contracts of inner functions call what the definitions say in place.
#![tactic(auto)]

mod context;
mod item;
mod laws;
mod limits;
mod making;

pub use context::Context;
pub use item::Item;
pub use laws::context_laws;
pub use limits::Limits;
pub use making::{enter, privileged, top};
