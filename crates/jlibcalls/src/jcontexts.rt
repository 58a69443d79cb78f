//! What getContext and privileged actions do by numbers, how a method of a domain is entered, and how a thread begins.
//!
//! - `PrivilegeRequests`: what the operands of the calls of doPrivileged are, of each form and side.
//! - `PrivilegeCalls`: what such a call wants (`find_privilege`): nothing where something is null, or a privilege, which is to be asked for
//!   exactly where the action's `run` is a user's method that may begin; in between `jinvoke` tells what that call comes to.
//! - `ActionCalls`: the call of the action (`act`).
//! - `DomainEntries`: what calls tell of a context (`find_entering`, `snapshotting`), and what is given for it (`enter`).
//! - `RunnableStarts`: the frame of a thread that begins (`begin`), or the exception that ends it where it does (`fail_beginning`).
//! - `KeptContexts`, `LimitPermissions`, `Snapshots`: contexts and permissions that objects hold.
//!
//! Proved, for all rules and whatever the heap's numbers stand for: the rows of the calls are those of what was found, and so is what they
//! ask; `act`, `enter`, `snapshot`, `begin` and `fail_beginning` do what the step does whose row it is, and the frames that they leave
//! stand. `snapshot` makes an AccessControlContext, whose object holds the place of a kept number; by `AreKept` one more kept number
//! changes no other object.

mod acting;
mod arrays;
mod beginning;
mod contexts;
mod entering;
mod requests;
mod snapshots;
mod wanting;

pub use acting::{Acted, act, fail_law};
pub use arrays::limits;
pub use beginning::{begin, begin_laws, fail_beginning};
pub use contexts::{given, kept_of};
pub use entering::{Entering, enter, find_entering, snapshotting};
pub use requests::PrivilegedForm;
pub use snapshots::snapshot;
pub use wanting::{Privileging, Wanted, find_privilege};
