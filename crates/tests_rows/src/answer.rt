use crate::words::{Unread, hex_of, number, spelled, text_of};
use std::alloc::{AllocError, Global};
use std::fmt;
use std::str::FromStr;

/// The answer to a row, as far as it is told. What keeps it from being one is known at its end alone, so that a function which tells some of
/// it has no other way out.
#[derive(Drop)]
pub struct Answer {
    alloc: Global,
    text: String,
    fault: Option<Unread>,
}

impl Answer {
    /// Nothing yet.
    pub fn new(alloc: Global) -> Answer {
        Answer {
            alloc,
            text: String::new(alloc),
            fault: None,
        }
    }

    pub fn alloc(&self) -> Global {
        self.alloc
    }

    /// The row isn't one that has an answer.
    pub fn refuse(&mut self) {
        self.fault = Some(Unread::Line);
    }

    /// There was no memory for it.
    pub fn lack(&mut self) {
        self.fault = Some(Unread::Memory);
    }

    /// There is none, for this reason.
    pub fn fail(&mut self, why: Unread) {
        self.fault = Some(why);
    }

    /// Goes on where there was memory.
    pub fn needs(&mut self, done: Result<(), AllocError>) {
        if done.is_err() {
            self.lack();
        }
    }

    /// Tells a text.
    pub fn tell(&mut self, text: &str) {
        let done = self.text.push_str(text);
        self.needs(done);
    }

    /// Tells a value, as `{:?}` does.
    pub fn debug<T: fmt::Debug>(&mut self, one: &T) {
        let done = write!(self.text, "{one:?}");
        self.needs(done);
    }

    /// Tells a space, if something stands in front of it.
    pub fn space(&mut self) {
        if !self.text.is_empty() {
            self.tell(" ");
        }
    }

    /// Tells a value, and a space between it and what stands in front.
    pub fn spaced<T: fmt::Debug>(&mut self, one: &T) {
        self.space();
        self.debug(one);
    }

    /// Tells two values, with a space between.
    pub fn debug_pair<A: fmt::Debug, B: fmt::Debug>(&mut self, one: &A, other: &B) {
        self.debug(one);
        self.tell(" ");
        self.debug(other);
    }

    /// Tells units, in which an unpaired surrogate is a sign that stands for what isn't a text.
    pub fn units(&mut self, units: &[u16]) {
        match String::from_utf16_lossy(self.alloc, units) {
            Ok(text) => self.tell(text.as_str()),
            Err(_) => self.lack(),
        }
    }

    /// Tells bytes, by two hexadecimal digits each.
    pub fn hex(&mut self, bytes: &[u8]) {
        match hex::encode(self.alloc, bytes) {
            Ok(digits) => self.tell(digits.as_str()),
            Err(_) => self.lack(),
        }
    }

    /// Tells bytes that are a text, between signs.
    pub fn tell_between(&mut self, front: &str, text: &[u8], end: &str) {
        match str::from_utf8(text) {
            Ok(text) => {
                self.tell(front);
                self.tell(text);
                self.tell(end);
            }
            Err(_) => self.refuse(),
        }
    }

    /// What stands in front of a sign, and what stands behind it. Where there is no such sign there is no answer.
    pub fn parted<'a>(&mut self, words: &'a str, sign: &str) -> (&'a str, &'a str) {
        match words.split_once(sign) {
            Some(parts) => parts,
            None => {
                self.refuse();
                (words, "")
            }
        }
    }

    /// The number that is written so. Where it is none there is no answer.
    pub fn number<N: FromStr + Default>(&mut self, word: &str) -> N
    where
        N::Err: Drop,
    {
        match number::<N>(word) {
            Ok(n) => n,
            Err(_) => {
                self.refuse();
                N::default()
            }
        }
    }

    /// The bytes that words of hexadecimal text are, `-` none. Where they aren't such there is no answer.
    pub fn bytes(&mut self, words: &str) -> Vec<u8> {
        match hex_of(self.alloc, words) {
            Ok(bytes) => bytes,
            Err(why) => {
                self.fault = Some(why);
                Vec::new(self.alloc)
            }
        }
    }

    /// The bytes that a field spells between quotes. Where it doesn't there is no answer.
    pub fn spelled(&mut self, field: &str) -> Vec<u8> {
        match spelled(self.alloc, field) {
            Ok(bytes) => bytes,
            Err(why) => {
                self.fault = Some(why);
                Vec::new(self.alloc)
            }
        }
    }

    /// The text that a field spells between quotes. Where it doesn't there is no answer.
    pub fn text_of(&mut self, field: &str) -> String {
        match text_of(self.alloc, field) {
            Ok(text) => text,
            Err(why) => {
                self.fault = Some(why);
                String::new(self.alloc)
            }
        }
    }

    /// What was told, where it is an answer.
    pub fn into_text(self) -> Result<String, Unread> {
        let Answer { text, fault, .. } = self;
        match fault {
            None => Ok(text),
            Some(why) => Err(why),
        }
    }
}
