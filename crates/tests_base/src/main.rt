//! Asks what a machine stands on (formats, texts, shelves and sinks, operations, the heap, what is remembered, lists one on the other,
//! regions, the library, types, threads and events) what the lines of the input ask, and tells which answers aren't those that the input
//! says. A line is a word, more words, ` | ` and the answer. The input says what the words are.
//!
//! - `SamplePrograms`: a program of few classes, over which types are asked.
//!
//! No room names it.
#![tactic(auto)]

mod events;
mod files;
mod formats;
mod heaps;
mod library;
mod memo;
mod operations;
mod piles;
mod regions;
mod table;
mod texts;
mod threads;
mod types;
mod words;

use std::io;
use table::Table;
use tests_rows::ask;

fn main(rt: HostRuntime) -> io::Result<()> {
    ask(&rt, &mut Table::new(rt.alloc()))
}
