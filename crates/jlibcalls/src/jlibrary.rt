//! Calls of the library that ask nothing of access control, by numbers: from the operands of a frame to jtexts' functions, and the
//! constructors of permissions. What is made stands in a list of permissions, and its object holds its number.
//!
//! - `CallOperands`: the operands that a call takes.
//! - `LibraryOutcomes`: what a call came to, by what the machine's definition says, whatever the rules and the place are (`Runs`).
//! - `HeldPermissions`, `HeldPermissionLaws`: which permissions objects hold: none whose number is above those that are there (`AreHeld`), so
//!   that one more changes none of the others.
//!
//! Proved: `run` does what the definition says of each such call: String's, StringBuilder's and PrintStream's methods, Throwable's
//! constructors and `getMessage`, and the constructors of permissions, with the exceptions that a name or actions raise; what is
//! printed is told as an event of the thread; permissions that were there stay as they are. `held_laws`: a row that does what the
//! definition says leaves held what was, whatever else is kept, and so does an object that is made; and what is held is what the
//! numbers in cells say (`AreWithin`).

mod came;
mod going;
mod laws;
mod making;
mod permissions;
mod printing;
mod rows;
mod running;
mod taken;
mod texts;
mod thrown;

pub use laws::held_laws;
pub use running::{CallEnvironment, Done, run};
