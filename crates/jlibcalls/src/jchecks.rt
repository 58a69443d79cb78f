//! What `checkPermission` does, by numbers, in two calls, so that the verdict can be given between them by whoever walks the stack.
//!
//! - `PermissionQueries`: which permission a check asks for, by the objects of the heap.
//! - `PermissionVerdicts`: what a step comes to that checks, by the verdict.
//!
//! Proved: `asks_for` finds the permission that the operand holds, or that it is null and asks nothing, or that there is no step, as
//! jmachine's row has it whatever the verdicts are; `judge` comes to the step whose row does what the verdict says: a granted check is
//! told and the thread goes on, a denied one is told and raises an AccessControlException with its message, or changes nothing where
//! the cells for both aren't left.

mod asking;
mod judging;
mod laws;

pub use asking::{Asked, asks_for};
pub use judging::{Judged, judge};
pub use laws::check_laws;
