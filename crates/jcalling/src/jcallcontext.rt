//! Calls of the library whose answer from access control is a context or a privilege, as steps of `jcore`'s machine: getContext, the
//! entering of a method of a domain, and the forms of doPrivileged, on either side.
//!
//! - `ContextCallRows`: the row of a call where the running thread stands, what such a call asks, and what a step comes to by its row.
//! - `ContextRequests`: what each of these calls asks and does, by its operands, and what a call of an action's `run` comes to.
//!
//! Proved: `call_snapshot`, `call_enter` and `call_privileged` ask exactly where the machine's definition says that the step asks, of
//! the marks of the running thread's frames, and come to the step by all rules that answer as was answered: an AccessControlContext
//! that keeps what was answered, the context of the method that is entered, or a frame of the action's `run` with the privilege.
//! doPrivileged asks nothing where something is null, or where no user's method may begin, and raises the exception in place of that.
//! What is asked is asked once. Where the definition asks nothing the guard is as before, also after want of memory. Whatever holds of
//! the machine between steps holds behind the call, where the run goes on.

mod asking;
mod entering;
mod failing;
mod finding;
mod privileging;
mod snapping;

pub use entering::call_enter;
pub use privileging::call_privileged;
pub use snapping::call_snapshot;
