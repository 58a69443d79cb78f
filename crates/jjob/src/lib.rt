//! What the program is asked to do: the words of a command line, and jobs.
//!
//! - `JobLimits`: how much words and a job may say (`IsWithin`).
//! - `CommandWords`: what words say (`said`), and the command that they are.
//! - `CommandOptions`, `ParseRows`: the parser of the kit's `clap` that reads them, and what its rows say.
//! - `JobNumbers`, `JobLines`: a job's numbers, and what a line says by itself.
//! - `Jobs`: what may not be said behind what was said before, the first bad line, and the job of all lines.
//! - `JobNames`: the first line that says a property's name again, the digests by which it is seen that there is none, and the sorted names
//!   by which it is found.
//! - `JobReaderState`, `JobLineAnswers`: what is told behind some lines, lines that are bad whatever the names of properties are, and what the reader
//!   answers to the next one.
//! - `StoredJobText`: the text of a job with other class files.
//!
//! Proved: `read_words` answers the command exactly where the words are one, and Usage exactly where they are none; `read_job` answers the
//! job exactly where the bytes are one, and else the number of the first bad line; the job has no more code sources and class files than it
//! may have. `clap`'s own walk over the words is shown to be `said`, by induction over the words and the states of the walk. `stored_job`
//! gives the lines in their order, each ended, with other paths in the lines of class files.
//!
//! `ProofNames` are names by which proofs and contracts of inner functions call what the definitions say in place.
#![tactic(auto)]

mod command;
mod digests;
mod job;
mod line;
mod names;
mod number;
mod reader;
mod reading;
mod storing;
mod text;
mod told;
mod verb;
mod words;

pub use command::{Command, Form, WordsError};
pub use job::{Job, JobError, JobSource};
pub use reading::read_job;
pub use storing::stored_job;
pub use text::Text;
pub use words::read_words;
