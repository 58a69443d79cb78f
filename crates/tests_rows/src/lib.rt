//! What the programs of tests share: how the fields of their rows are spelled, and how their rows are asked and counted.
//!
//! Programs of tests alone name it.
#![tactic(auto)]

mod answer;
mod asking;
mod section;
mod words;

pub use answer::Answer;
pub use asking::{Rows, ask};
pub use section::{Line, Section};
pub use words::{
    Unread, bytes_of, debug, debug_behind, first, hex_of, number, put_hex, string_of, unquoted,
    yes_or_no,
};
