//! Calls of checkPermission, of AccessController and of AccessControlContext, for the whole machine by numbers: what is asked of
//! whoever decides, and what the step comes to.
//!
//! - `CheckRequests`: what a call checks, by its operands: the permission, and whether the running thread or what a context keeps is to grant
//!   it.
//! - `CheckOutcomes`: what a step comes to whose row is known, and the machine within a step.
//!
//! Proved: `call_check` and `call_kept_check` ask exactly where the machine's definition says that the step asks, of the marks of the
//! running thread's frames, and come to the step by all rules that answer as was answered; null and what holds no permission ask
//! nothing. What is asked is asked once. Where the definition asks nothing the guard is as before, also after want of memory. Whatever
//! holds of the machine between steps holds behind the call, where the run goes on.

mod asking;
mod calling;
mod finding;
mod judging;

pub use calling::{call_check, call_kept_check};
