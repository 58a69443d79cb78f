//! What calls and what is thrown ask of a program, by numbers: where a method's handlers go on for an object of a class, which method
//! is selected, what an interface asks, and from these a whole call. What was asked about a call is remembered: the last answer at a site
//! beside it, with the class by which its entry names the method, and others by the entry that names the method and the class of the object.
//! So is what was asked about the `run` of an action or of a thread, by the class of the object.
//!
//! - `InterfaceCalls`: what a call by an interface of the library comes to that the machine makes itself, such as that of an action's `run`.
//! - `Answers`: what is known of a call: what is selected, whether it has code and how many locals and operands its frames have at most,
//!   whether the object's class has the interface, and whether what is selected isn't public.
//! - `InvokeOutcomes`: what a step comes to that calls.
//! - `CallQueries`: what is asked and remembered, and where its answers are looked for.
//! - `CallSiteCache`: what is remembered beside the sites of calls.
//! - `HandlerLookUps`, `InvokeLaws`: what the laws say.
//!
//! Proved: `ThrownAs` tells of every frame where the machine's definition goes on; an answer is what the definition selects and asks,
//! whether it was remembered or not; `invoke` comes to what the machine's step does, whatever the rules and the state are, where the
//! operands serve; and what a class by the heap's number is.

mod answers;
mod asked;
mod catching;
mod choosing;
mod faces;
mod invoking;
mod laws;
mod method_lookup;
mod sites;

pub use answers::Calls;
pub use asked::Face;
pub use catching::{ThrownAs, told_law};
pub use choosing::{Answer, CallKey, Chosen, number_of};
pub use faces::Target;
pub use jruntime::jstate::class_numbered;
pub use laws::{class_laws, step_laws, within_laws};
pub use method_lookup::MethodLookup;
