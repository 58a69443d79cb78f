//! Links programs from the input, checks the types of their methods, and tells which answers aren't those that the input says.
//!
//! The fields of a line are parted by ` | `, and bytes are words of hexadecimal text.
//!
//! - `side source` or `side passing`: the library of what follows.
//! - `name NAME | BYTES`: bytes with a name, of a class file or of what stands before the attributes of a method.
//! - `beside NAME ..`: begins the class of the rows, with the classes that stand before it in each program.
//! - `bytes BYTES | WHAT`: more bytes of that class. They end where its last method begins.
//! - `method SHOWS | NAME | MAXIMA | CODE | HANDLERS | FRAMES | ANSWER`: that class with a last method. ANSWER is `ok`, `plain` where it is
//!   on the passing side, or `at PLACE` in the last method, `at CLASS METHOD PLACE` in another.
//! - `program SHOWS | NAME .. | ANSWER`: the classes of these names.
//! - `over CLASS .. | SHOWS`: the classes that the lines behind it ask about, by their names or their bytes, and maybe what they show.
//!   `N*CLASS` is the same class N times.
//! - `ask QUESTION | ANSWER`: what is asked of the program of those classes, by its word and the words behind it; `link` is which rule of
//!   linking is broken first.
//! - `# ..` and empty lines say nothing.
//!
//! No room names it.
#![tactic(auto)]

mod asked;
mod judging;
mod layered;
mod linked;
mod question;
mod reading;
mod rows;
mod used;
mod words;

use reading::{Group, Line, Table};
use std::{fmt, io};

/// How many rows were asked, and how many were answered as they say.
#[derive(Clone, Copy)]
struct Count {
    asked: u32,
    right: u32,
}

impl Count {
    const NONE: Count = Count { asked: 0, right: 0 };

    fn with(self, right: bool) -> Count {
        Count {
            asked: self.asked.saturating_add(1),
            right: self.right.saturating_add(u32::from(right)),
        }
    }
}

impl fmt::Display for Count {
    fn fmt<W: fmt::Write>(&self, f: &mut fmt::Formatter<W>) -> fmt::Result {
        write!(f, "{} of {} as they say", self.right, self.asked)
    }
}

/// The counts of the rows that are accepted, refused, and questions.
#[derive(Clone, Copy)]
struct Counts {
    accepted: Count,
    refused: Count,
    answered: Count,
}

impl Counts {
    const NONE: Counts = Counts {
        accepted: Count::NONE,
        refused: Count::NONE,
        answered: Count::NONE,
    };

    fn count(&mut self, group: Group, right: bool) {
        match group {
            Group::Accepted => self.accepted = self.accepted.with(right),
            Group::Refused => self.refused = self.refused.with(right),
            Group::Answered => self.answered = self.answered.with(right),
        }
    }
}

/// Asks what a line asks, and tells the answer that was found where it isn't the one that the line wants.
fn ask_line(
    rt: &HostRuntime,
    table: &mut Table,
    place: usize,
    line: &str,
    counts: &mut Counts,
) -> io::Result<()> {
    match table.read(rt.alloc(), line) {
        Ok(Line::Known) => Ok(()),
        Ok(Line::Row(group, shows, wanted, found)) => {
            let right = found.as_str() == wanted;
            counts.count(group, right);
            if right {
                return Ok(());
            }
            println!(rt; "line {place}: {shows}: {}", found.as_str())
        }
        Err(why) => println!(rt; "line {place}: {why}"),
    }
}

fn ask(rt: &HostRuntime, table: &mut Table) -> io::Result<Counts> {
    let mut counts = Counts::NONE;
    for (i, line) in rt.lines(rt.alloc()).enumerate() {
        let line = line?;
        ask_line(rt, table, i.saturating_add(1), line.as_str(), &mut counts)?;
    }
    Ok(counts)
}

fn tell(rt: &HostRuntime, counts: Counts) -> io::Result<()> {
    println!(rt; "accepted: {}", counts.accepted)?;
    println!(rt; "refused: {}", counts.refused)?;
    println!(rt; "answered: {}", counts.answered)
}

fn main(rt: HostRuntime) -> io::Result<()> {
    let mut table = Table::new(rt.alloc());
    let counts = ask(&rt, &mut table);
    drop(table);
    tell(&rt, counts?)
}
