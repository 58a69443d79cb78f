//! Runs the commands of the lines of the input, and tells which don't end and write as they are to.
//!
//! A line `WORDS > NAME STATUS` gives the words of a command, a name and the number of a status. What the command is to write stands in
//! the file `NAME.text`. The input's head says what may stand behind it. Lines `# ..` and empty ones say nothing.
//!
//! Then it does what its own words say, as the program of this repository does, and ends with the number with which that ends.
//!
//! No room names it.
#![tactic(auto)]

mod asking;
mod devices;
mod rows;

use asking::is_right;
use joutput::jio::{RealShelf, Shelf};
use jtop::jmain::run;
use rows::row_of;
use std::io;
use std::process::ExitCode;

/// Whether a line is a row that is answered as it says. One that isn't is told.
fn is_answered<S: Shelf>(rt: &HostRuntime, line: &str, shelf: &mut S) -> io::Result<bool> {
    let is_right = match row_of(line) {
        Some(row) => is_right(rt.alloc(), &row, shelf),
        None => false,
    };
    if !is_right {
        println!(rt; "not as it says: {line}")?;
    }
    Ok(is_right)
}

/// Asks the rows of the input, and tells how many there are, and how many are answered as they say.
fn ask<S: Shelf>(rt: &HostRuntime, shelf: &mut S) -> io::Result<()> {
    let (mut asked, mut right) = (0u32, 0u32);
    for line in rt.lines(rt.alloc()) {
        let line = line?;
        if !line.is_empty() && !line.starts_with('#') {
            asked = asked.saturating_add(1);
            right = right.saturating_add(u32::from(is_answered(rt, line.as_str(), shelf)?));
        }
    }
    println!(rt; "{right} of {asked} as they say")
}

fn main(rt: HostRuntime) -> io::Result<ExitCode> {
    ask(&rt, &mut RealShelf::new(&rt))?;
    Ok(run(&rt))
}
