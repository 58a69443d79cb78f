//! One step of the running thread of a machine by numbers (`jcore`), but for what the library does: by the instruction that `jready`
//! has where its newest frame stands, the row of a load (`jconstants`), of an instruction with references (`jrefs`) or of any other
//! (`jstep`), and what is left behind it for the machine (`jcore`'s `settle`).
//!
//! - `FrameSteps`: which rows have an instruction, and what a step of a thread's frames came to, with the string constants before and
//!   behind it.
//! - `ThreadSteps`: the same for the machine, of which nothing else changes; what `execute` came to.
//! - `FastSteps`: which instructions are tried quickly, all those that have a row, calls and returns, and what a stretch of such steps came
//!   to.
//!
//! Proved: `hasten` makes steps of the running thread as long as they are quick, and answers how many: each is jmachine's `step` by all
//! such rules as below, goes on, tells nothing and asks nothing; it looks a method's row up where a call or a return has turned to
//! another frame. Such a stretch ends in front of the first instruction that throws, loads a text, or whose row raises or finds too few
//! cells; or behind a step that came to anything else than to go on, such as a call of the library, which is answered as `execute`
//! answers it. Where `execute` answers that the step is done, it came to what jmachine's `step` comes to by all rules whose frames carry
//! what the machine's carry, the machine is ready for a next step if the run goes on, and the step asks nothing of access control. Where
//! the thread stands at a call of the library, nothing has changed of the state; by all such rules the step is what that
//! member of the library comes to with the operands that are there, it asks what that member asks, and an object that is given a message
//! may be told one.

mod advancing;
mod executing;
mod grouping;
mod hastening;
mod loading;
mod referring;

pub use executing::{Executed, execute};
pub use hastening::{Hasty, hasten};
