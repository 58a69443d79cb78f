use crate::asked::ask;
use crate::judging::{Verdict, judged, part_of};
use crate::rows::Row;
use crate::words::put_u16;
use jlib::Side;
use jresolution::jprogram::CodePart;
use std::alloc::{AllocError, Global};
use tests_rows::{Answer, Unread, hex_of, put_hex};

/// Bytes with a name: a class file, or what stands before a method's attributes.
#[derive(Drop)]
struct Named {
    name: String,
    bytes: Vec<u8>,
}

/// What was read so far.
#[derive(Drop)]
pub struct Table {
    side: Side,
    named: Vec<Named>,
    /// The names of the classes beside the one of the rows.
    beside: String,
    /// The class of the rows, up to its last method.
    class: Vec<u8>,
    /// The classes of which something is asked.
    over: String,
}

/// What a line is.
pub enum Line<'a> {
    /// One that later lines are read by.
    Known,
    /// In which group it counts, what it shows, the answer that it wants, and the one that was found.
    Row(Group, &'a str, &'a str, String),
}

/// Which rows are counted together: those whose methods or programs are accepted, those that are refused, and questions.
#[derive(Clone, Copy)]
pub enum Group {
    Accepted,
    Refused,
    Answered,
}

/// Puts the class that bytes spell behind others.
fn put_class(alloc: Global, bytes: &[u8], parts: &mut Vec<CodePart>) -> Result<(), Unread> {
    let part = part_of(alloc, bytes)?;
    Ok(parts.push(part).map_err(AllocError::from)?)
}

/// The row on a verdict.
fn judged_row<'a>(
    alloc: Global,
    shows: &'a str,
    wanted: &'a str,
    found: Verdict,
) -> Result<Line<'a>, Unread> {
    let said = found.to_string(alloc)?;
    let group = match found {
        Verdict::Typed | Verdict::Plain => Group::Accepted,
        _ => Group::Refused,
    };
    Ok(Line::Row(group, shows, wanted, said))
}

impl Table {
    pub fn new(alloc: Global) -> Table {
        Table {
            side: Side::Source,
            named: Vec::new(alloc),
            beside: String::new(alloc),
            class: Vec::new(alloc),
            over: String::new(alloc),
        }
    }

    fn find(&self, name: &str) -> Result<&[u8], Unread> {
        for one in &self.named {
            if one.name.as_str() == name {
                return Ok(one.bytes.as_slice());
            }
        }
        Err(Unread::Line)
    }

    /// The class of a name, or of bytes that begin as each class file does.
    fn part(&self, alloc: Global, name: &str) -> Result<CodePart, Unread> {
        if name.starts_with("cafebabe") {
            let bytes = hex_of(alloc, name)?;
            return part_of(alloc, bytes.as_slice());
        }
        let bytes = self.find(name)?;
        part_of(alloc, bytes)
    }

    /// Puts a class behind others: its name or its bytes, maybe behind how often it stands and a `*`.
    fn put_part(&self, alloc: Global, word: &str, parts: &mut Vec<CodePart>) -> Result<(), Unread> {
        let (times, name) = word.split_once('*').unwrap_or(("1", word));
        let Ok(times) = times.parse::<u32>() else {
            return Err(Unread::Line);
        };
        for _ in 0..times {
            let part = self.part(alloc, name)?;
            parts.push(part).map_err(AllocError::from)?;
        }
        Ok(())
    }

    /// The classes of these names.
    fn parts(&self, alloc: Global, names: &str) -> Result<Vec<CodePart>, Unread> {
        let mut parts = Vec::new(alloc);
        for word in names.split(' ') {
            if let Err(why) = self.put_part(alloc, word, &mut parts) {
                drop(parts);
                return Err(why);
            }
        }
        Ok(parts)
    }

    /// The class of the rows with the method of one, and no attribute.
    fn class_of(&self, alloc: Global, row: &Row<'_>) -> Result<Vec<u8>, Unread> {
        let mut bytes = Vec::from_slice(alloc, self.class.as_slice())?;
        let head = self.find(row.head)?;
        bytes.extend_from_slice(head)?;
        row.put_code(alloc, &mut bytes)?;
        put_u16(0, &mut bytes)?;
        Ok(bytes)
    }

    /// The verdict on a method.
    fn on_row(&self, alloc: Global, row: &Row<'_>) -> Result<Verdict, Unread> {
        let bytes = self.class_of(alloc, row)?;
        let mut parts = self.parts(alloc, self.beside.as_str())?;
        match put_class(alloc, bytes.as_slice(), &mut parts) {
            Ok(()) => judged(alloc, parts, self.side),
            Err(why) => {
                drop(parts);
                Err(why)
            }
        }
    }

    fn method<'a>(&self, alloc: Global, line: &'a str) -> Result<Line<'a>, Unread> {
        let Some(row) = Row::of(line) else {
            return Err(Unread::Line);
        };
        let found = self.on_row(alloc, &row)?;
        judged_row(alloc, row.shows, row.answer, found)
    }

    fn program<'a>(&self, alloc: Global, line: &'a str) -> Result<Line<'a>, Unread> {
        let Some((shows, rest)) = line.split_once(" | ") else {
            return Err(Unread::Line);
        };
        let Some((names, answer)) = rest.split_once(" | ") else {
            return Err(Unread::Line);
        };
        let parts = self.parts(alloc, names)?;
        let found = judged(alloc, parts, self.side)?;
        judged_row(alloc, shows, answer, found)
    }

    fn ask<'a>(&self, alloc: Global, line: &'a str) -> Result<Line<'a>, Unread> {
        let Some((question, wanted)) = line.split_once(" | ") else {
            return Err(Unread::Line);
        };
        let parts = self.parts(alloc, self.over.as_str())?;
        let mut answer = Answer::new(alloc);
        ask(parts, self.side, question, &mut answer);
        Ok(Line::Row(Group::Answered, question, wanted, answer.into_text()?))
    }

    /// The classes of which the lines behind ask something. What they show stands behind them.
    fn put_over(&mut self, alloc: Global, line: &str) -> Result<(), Unread> {
        let names = match line.split_once(" | ") {
            Some((names, _)) => names,
            None => line,
        };
        self.over = String::from_str(alloc, names)?;
        Ok(())
    }

    fn put_name(&mut self, alloc: Global, line: &str) -> Result<(), Unread> {
        let Some((name, words)) = line.split_once(" | ") else {
            return Err(Unread::Line);
        };
        let mut bytes = Vec::new(alloc);
        put_hex(alloc, words, &mut bytes)?;
        let name = String::from_str(alloc, name)?;
        let named = Named { name, bytes };
        Ok(self.named.push(named).map_err(AllocError::from)?)
    }

    /// Puts bytes behind those of the class of the rows. What they mean stands behind them.
    fn put_bytes(&mut self, alloc: Global, line: &str) -> Result<(), Unread> {
        let words = match line.split_once(" | ") {
            Some((words, _)) => words,
            None => line,
        };
        put_hex(alloc, words, &mut self.class)
    }

    /// Begins the class of the rows, beside others.
    fn begin(&mut self, alloc: Global, names: &str) -> Result<(), Unread> {
        self.class = Vec::new(alloc);
        self.beside = String::from_str(alloc, names)?;
        Ok(())
    }

    fn set_side(&mut self, name: &str) -> Result<(), Unread> {
        self.side = match name {
            "source" => Side::Source,
            "passing" => Side::Passing,
            _ => return Err(Unread::Line),
        };
        Ok(())
    }

    fn known(&mut self, alloc: Global, kind: &str, rest: &str) -> Result<(), Unread> {
        match kind {
            "#" => Ok(()),
            "side" => self.set_side(rest),
            "name" => self.put_name(alloc, rest),
            "beside" => self.begin(alloc, rest),
            "bytes" => self.put_bytes(alloc, rest),
            "over" => self.put_over(alloc, rest),
            _ => Err(Unread::Line),
        }
    }

    /// Reads a line, and answers where it asks something.
    pub fn read<'a>(&mut self, alloc: Global, line: &'a str) -> Result<Line<'a>, Unread> {
        if line.is_empty() {
            return Ok(Line::Known);
        }
        let Some((kind, rest)) = line.split_once(' ') else {
            return Err(Unread::Line);
        };
        match kind {
            "method" => self.method(alloc, rest),
            "program" => self.program(alloc, rest),
            "ask" => self.ask(alloc, rest),
            _ => {
                self.known(alloc, kind, rest)?;
                Ok(Line::Known)
            }
        }
    }
}
