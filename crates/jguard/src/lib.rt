//! Who answers what a machine by numbers asks of access control: `Guard`, with `Ask` and `Answer`. Contracts see what its numbers and
//! marks stand for, and the rules by which it answers. The machine by numbers is generic over it.
//!
//! - `GuardQueries`: what asks and answers say.
//! - `NumberMeanings`: what numbers, asks, answers, states and outcomes stand for, and that something was asked once, or nothing was
//!   (`AskedOnce`), by what the guard says that an ask makes of it.
//! - `GuardLaws`: what follows for a machine.
//! - `StepQueries`: what a step asks, by its instruction.
//!
//! Proved: `guard_laws`, for each guard: what a state by numbers stands for stays while numbers keep what they stand for; the first
//! states correspond; what a step asks was given; and a step that is the same for all rules by numbers that answer as the guard did
//! stands for the step by the guard's own rules. `ask_check`, `ask_kept_check`, `ask_snapshot`, `ask_inherit`, `ask_enter`,
//! `ask_privilege`: one ask each, made once, with an answer of its kind.
#![tactic(auto)]

mod ask;
mod asking;
mod guard;
mod laws;

pub use ask::{Answer, Ask};
pub use asking::{
    Marked, ask_check, ask_enter, ask_inherit, ask_kept_check, ask_privilege, ask_snapshot,
};
pub use guard::{Guard, OnPassing, OnSource, Sided};
pub use laws::{ByNumbers, ByThings, guard_laws};
