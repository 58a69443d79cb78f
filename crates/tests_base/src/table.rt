use crate::types::type_of;
use crate::{
    events, files, formats, heaps, library, memo, operations, piles, regions, texts, threads, types,
};
use jtypes::VType;
use std::alloc::{AllocError, Global};
use tests_rows::{Answer, Line, Rows, Unread};

/// What was read so far.
#[derive(Drop)]
pub struct Table {
    /// What the lines ask.
    section: String,
    /// The types that marks stand for.
    types: Vec<VType>,
}

impl Table {
    pub fn new(alloc: Global) -> Table {
        Table {
            section: String::new(alloc),
            types: Vec::new(alloc),
        }
    }

    /// Answers a row.
    fn answer(&self, rt: &HostRuntime, kind: &str, words: &str, answer: &mut Answer) {
        match self.section.as_str() {
            "formats" => formats::found(kind, words, answer),
            "texts" => texts::found(kind, words, answer),
            "files" => files::found(rt, kind, words, answer),
            "operations" => operations::found(kind, words, answer),
            "heaps" => heaps::found(kind, words, answer),
            "memo" => memo::found(words, answer),
            "piles" => piles::found(kind, words, answer),
            "regions" => regions::found(kind, words, answer),
            "library" => library::found(kind, words, answer),
            "types" => types::found(words, self.types.as_slice(), answer),
            "threads" => threads::found(kind, words, answer),
            "events" => events::found(kind, words, answer),
            _ => answer.refuse(),
        }
    }

    fn known(&mut self, alloc: Global, kind: &str, rest: &str) -> Result<bool, Unread> {
        match kind {
            "section" => self.section = String::from_str(alloc, rest)?,
            "type" => {
                let one = type_of(alloc, rest)?;
                self.types.push(one).map_err(AllocError::from)?;
            }
            _ => return Ok(false),
        }
        Ok(true)
    }
}

impl Rows for Table {
    fn read<'a>(&mut self, rt: &HostRuntime, line: &'a str) -> Result<Line<'a>, Unread> {
        if line.is_empty() || line.starts_with('#') {
            return Ok(Line::Known);
        }
        let Some((kind, rest)) = line.split_once(' ') else {
            return Err(Unread::Line);
        };
        if self.known(rt.alloc(), kind, rest)? {
            return Ok(Line::Known);
        }
        let Some((words, wanted)) = rest.rsplit_once("| ") else {
            return Err(Unread::Line);
        };
        let mut answer = Answer::new(rt.alloc());
        self.answer(rt, kind, words.trim_end(), &mut answer);
        Ok(Line::Row(wanted, answer.into_text()?))
    }
}
