use crate::section::{Line, Section};
use crate::words::{Unread, is_spelled};
use std::io;

/// What reads the lines of an input, and answers those that ask something.
pub trait Rows {
    /// Reads a line, and answers where it asks something.
    fn read<'a>(&mut self, rt: &HostRuntime, line: &'a str) -> Result<Line<'a>, Unread>;
}

/// Counts a row, and tells the answer that was found where it isn't the one that it wants.
fn count(
    rt: &HostRuntime,
    place: usize,
    wanted: &str,
    found: &str,
    section: &mut Section,
) -> io::Result<()> {
    let right = is_spelled(rt.alloc(), wanted, found);
    section.count(right);
    if right {
        return Ok(());
    }
    println!(rt; "line {place}: {found}")
}

/// Ends the rows under one name, and begins those under another.
fn begin(rt: &HostRuntime, name: &str, section: &mut Section) -> io::Result<()> {
    if !section.is_empty() {
        section.tell(rt)?;
    }
    section.begin(name)?;
    Ok(())
}

fn ask_line<T: Rows>(
    rt: &HostRuntime,
    table: &mut T,
    place: usize,
    line: &str,
    section: &mut Section,
) -> io::Result<()> {
    match table.read(rt, line) {
        Ok(Line::Known) => Ok(()),
        Ok(Line::Section(name)) => begin(rt, name, section),
        Ok(Line::Row(wanted, found)) => count(rt, place, wanted, found.as_str(), section),
        Err(why) => println!(rt; "line {place}: {why}"),
    }
}

fn ask_lines<T: Rows>(rt: &HostRuntime, table: &mut T, section: &mut Section) -> io::Result<()> {
    for (i, line) in rt.lines(rt.alloc()).enumerate() {
        let line = line?;
        ask_line(rt, table, i.saturating_add(1), line.as_str(), section)?;
    }
    Ok(())
}

/// Asks what the lines of the input ask, and tells of each section how many answers are those that the input says, and which aren't.
pub fn ask<T: Rows>(rt: &HostRuntime, table: &mut T) -> io::Result<()> {
    let mut section = Section::new(rt.alloc());
    ask_lines(rt, table, &mut section)?;
    section.tell(rt)
}
