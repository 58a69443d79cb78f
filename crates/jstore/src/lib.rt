//! What is stored and what is made: the files of a moved program below a folder, files that are stored one after the other, and the files
//! of a made job as a shelf in memory holds them.
//!
//! - `Folders`: the files that a moved program is stored as.
//! - `FileWrites`: files that are stored one after the other, and what stands where one fails.
//! - `GeneratedShelves`: the files of a job that is made, as a shelf holds them.
//!
//! Proved: `files_below` answers exactly the files of a moved program below a folder, or want of memory. `store_all` stores files in their
//! order, or a front of them, and then all but what stands at the path of the next one is as it was; a fault is told only where the shelf
//! counted one, and nothing is read. `made_shelf` holds exactly the files that a seed and a size make.
#![tactic(auto)]

mod held;
mod storing;

pub use held::made_shelf;
pub use storing::{NewFile, files_below, store_all};
