//! What a command's files come to: the task that is to be done, or why there is none. Its stages are jstages'.
//!
//! - `Tasks`: what is to be done at a command, one case a verb, and for a run one case a form; files are read in order, each judged before
//!   the next. `IsWhole` says of a run that it begins with the `main` of one of its classes, and of a listing that each code source has
//!   its permissions.
//!
//! Proved: `task_of` answers the task of a command that reads files, or its refusal, over the files that the shelf holds, and leaves them
//! as they are; a fault of reading is told only where the shelf counted one, or where a file is missing or too long; what was read for
//! a run are parts that may be linked, each of them a class file. `refused`, for who looks once more at a command that is refused, is proved to
//! leave the shelf as it is, and no more.

mod again;
mod task;
mod tasks;

pub use again::refused;
pub use task::Task;
pub use tasks::task_of;
