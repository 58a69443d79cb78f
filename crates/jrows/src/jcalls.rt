//! What changes which frames a thread has, by numbers: returns, calls from the operands that they take, and unwinding. What is asked of
//! the program comes in: what frames of each class carry, what is selected, where a method's handlers go on.
//!
//! - `FrameMarks`: what frames carry by the classes of their methods.
//! - `Returns`, `MethodCalls`: what a step comes to that returns or calls, by the machine's definition of a step, with what it asks of
//!   access control and which target it reaches.
//! - `CallLaws`: the target and what is asked, by what a call came to.
//! - `Unwinds`: the frames that are left where something was thrown.
//! - `Throws`: what a step comes to in which something is thrown, or an exception of the library is made and thrown.
//! - `MessageThrows`: the same, with a message.
//! - `Readiness`: which objects of the heap may be used.
//!
//! Proved: a step that returns or calls is the machine's step, whatever the rules and the state are: the frame below goes on behind its
//! call and carries what the rules give to it, or the thread ends; a frame of the method begins, or the exception of the first test
//! that fails is raised, or the library is run, and then that member of it is the call's target by the operands that serve; `unwind`
//! leaves the frames that the definition leaves, in one loop over frames; `raise` and `throw_object` come to what the definition's step
//! does, behind any events.

mod calls;
mod handlers;
mod laws;
mod marks;
mod raising;
mod ready;
mod receiver;
mod returns;
mod telling;
mod unwinding;

pub use calls::{Called, Callee, Room, Selection, call_by_interface, call_on, call_static};
pub use handlers::Handlers;
pub use laws::call_laws;
pub use raising::{Raised, raise, throw_object};
pub use ready::{Counts, Needs, first_cell, is_ready, needs_of};
pub use receiver::{Receiver, receiver_at};
pub use returns::{Leaving, return_int, return_long, return_nothing, return_ref};
pub use telling::raise_with;
pub use unwinding::unwind;
