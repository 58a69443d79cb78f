//! What there is to mend, in words: after a command was refused, its refusal again, with what the files say of the place; which word no
//! command has; and what of a policy grants nothing, or less than it seems to.
//!
//! `say_why` does the command's task again over the shelf. A refused line of a job is told with its rule, a token of a policy with what
//! could stand there, a byte of a class file with the part of the file in which it stands, a class or a member that is missing, or is used
//! otherwise than it is declared, with its name, an instruction with what it takes, what it finds and what is wrong there. `say_usage` tries
//! which words begin a command. `say_losses` reads the policy that a command lists. The room has no definitions.
//!
//! Proved: it ends, and leaves the shelf's files and its faults of writing as they were. What it says is in no clause. A line goes out
//! whole or not at all, but for a fault of the sink; where memory runs out nothing is said. Names and paths are written as texts are in
//! lines, and cut where they are long.
#![tactic(auto)]

mod checks;
mod classes;
mod frames;
mod leftouts;
mod limits;
mod lines;
mod links;
mod losses;
mod mains;
mod misuses;
mod opcodes;
mod outline;
mod policies;
mod references;
mod said;
mod scene;
mod stacks;
mod unset;
mod usage;
mod why;

pub use losses::say_losses;
pub use usage::say_usage;
pub use why::{say_file, say_why};
