ghost use Rattle.std.specs.Prelude.{Some};

use jground::jbase::FaultOrMemory;
use jground::jtext::{Units, units_of};
use joutput::jio::{Sink, SinkError, put_all, write_line_text};
use std::alloc::Global;

/// The most units of a text that are told.
const MOST_UNITS: usize = 200;

/// What stands between two marks of a text, at a place counted from 0, or else another text.
pub fn piece_of<'a>(text: &'a str, mark: char, place: usize, other: &'a str) -> &'a str {
    text.split(mark).nth(place).unwrap_or(other)
}

/// What is to be said: a line as it is put together. Where memory runs out it is lost.
#[derive(Drop)]
pub struct Said {
    pub alloc: Global,
    line: Vec<u8>,
    /// How often no memory was left for a piece. Then nothing is to be said.
    faults: u64,
    /// No memory was left for something else that is needed for it. Then nothing is to be said either.
    pub is_lost: bool,
    /// It says of what it is alone, and nothing of that. Then nothing is to be said either.
    pub open: bool,
}

impl Sink for Said {
    ghost out = { λ s. Some s.line.items };

    ghost faults = { λ s. s.faults };

    /// Puts the piece behind the line's bytes. It fails where no memory is left.
    fn put(&mut self, piece: &[u8]) -> Result<usize, SinkError> {
        if self.line.extend_from_slice(piece).is_err() {
            self.faults = self.faults.saturating_add(1);
            return Err(SinkError::Failed);
        }
        Ok(piece.len())
    }
}

impl Said {
    /// A line that begins with the program's name.
    pub fn new(alloc: Global) -> Said {
        let mut said = Said {
            alloc,
            line: Vec::new(alloc),
            faults: 0,
            is_lost: false,
            open: true,
        };
        let _ = put_all(&mut said, b"javasec: ");
        said
    }

    /// A line that begins with the program's name and a file's.
    pub fn of_file(alloc: Global, path: &str) -> Said {
        let mut said = Said::new(alloc);
        said.text(path);
        said
    }

    /// Words of the program's own.
    pub fn words<const N: usize>(&mut self, words: &[u8; N]) {
        let _ = put_all(self, words);
        self.open = false;
    }

    /// Words that were looked for in a table of them, or handed on.
    pub fn told(&mut self, words: &str) {
        let _ = put_all(self, words.as_bytes());
        self.open = false;
    }

    /// A text of a file or of the command, as texts are written in lines; of a long one the front.
    pub fn units(&mut self, units: &[u16]) {
        let (front, rest) = units.split_at(units.len().min(MOST_UNITS));
        let _ = write_line_text(self, front);
        if !rest.is_empty() {
            let _ = put_all(self, b"..");
        }
    }

    /// The same of a text of UTF-8.
    pub fn text(&mut self, text: &str) {
        match Units::from_text(self.alloc, text) {
            Ok(units) => self.units(units.as_slice()),
            Err(_) => self.is_lost = true,
        }
    }

    /// The same of a text of a class file; bytes that are no modified UTF-8 aren't told.
    pub fn name(&mut self, bytes: &[u8]) {
        self.open = false;
        match units_of(self.alloc, bytes) {
            Ok(units) => self.units(units.as_slice()),
            Err(FaultOrMemory::Fault(_)) => {}
            Err(FaultOrMemory::Memory) => self.is_lost = true,
        }
    }

    /// A number between words.
    pub fn number<const A: usize, const B: usize>(
        &mut self,
        front: &[u8; A],
        number: u64,
        end: &[u8; B],
    ) {
        let mut digits = itoa::Buffer::new();
        self.words(front);
        let _ = put_all(self, digits.format(number).as_bytes());
        self.words(end);
    }

    /// Writes the line, unless it is lost.
    pub fn send<K: Sink>(&mut self, out: &mut K) {
        let _ = put_all(self, b"\n");
        if self.faults == 0 && !self.is_lost && !self.open {
            let _ = put_all(out, self.line.as_slice());
        }
    }
}
