use crate::policies::{quoted_at, token_size};
use crate::said::Said;
use jground::jtext::Units;
use joutput::jio::Sink;
use std::alloc::Global;

/// A place in a policy's text.
#[derive(Clone, Copy)]
struct Place<'a> {
    alloc: Global,
    path: &'a str,
    /// Its line, counted from 1.
    line: u64,
    /// It stands in a grant.
    is_granting: bool,
    /// It stands in a grant's braces.
    is_inside: bool,
}

impl<'a> Place<'a> {
    /// The place behind what stands there.
    fn behind(self, lexeme: &[u8]) -> Place<'a> {
        let opens = lexeme == b"{".as_slice();
        let closes = lexeme == b"}".as_slice();
        Place {
            alloc: self.alloc,
            path: self.path,
            line: self.line,
            is_granting: !closes && (self.is_granting || has_letters(lexeme, b"grant")),
            is_inside: !closes && (self.is_inside || opens),
        }
    }

    /// A line that begins with the place.
    fn sentence(&self) -> Said {
        let mut said = Said::of_file(self.alloc, self.path);
        said.number(b", line ", self.line, b": ");
        said
    }

    /// Says that the grant or the entry at the place gives nothing, and to whom.
    fn say_lost<K: Sink>(&self, cause: &str, out: &mut K) {
        let mut said = self.sentence();
        said.told(cause);
        if self.is_inside {
            said.words(b", so the entry grants nothing");
        } else {
            said.words(b", so the grant gives nothing");
        }
        said.send(out);
    }
}

// ---- lexemes

/// The size of the comment at the front of a text.
fn comment_size(text: &[u8]) -> usize {
    let is_line = text.starts_with(b"//");
    let mut last: u8 = 0;
    let mut size: usize = 0;
    for byte in text {
        size = size.saturating_add(1);
        let ends_line = is_line && b"\n\r".contains(byte);
        let closes = !is_line && last == b'*' && *byte == b'/' && 3 < size;
        if ends_line || closes {
            return size;
        }
        last = *byte;
    }
    size
}

/// The size of what stands at the front of a text: a comment, a string, a word or one byte.
fn lexeme_size(text: &[u8]) -> usize {
    if text.starts_with(b"//") || text.starts_with(b"/*") {
        return comment_size(text);
    }
    if text.starts_with(b"\"") {
        return quoted_at(text).size;
    }
    token_size(text)
}

/// Whether a word has these letters, which are small, in either case.
fn has_letters(word: &[u8], letters: &[u8]) -> bool {
    for (i, byte) in word.iter().enumerate() {
        let letter = letters.get(i).copied().unwrap_or(0);
        if *byte | 0x20 != letter {
            return false;
        }
    }
    word.len() == letters.len()
}

// ---- properties

/// Whether a property of a name is there.
fn is_set(alloc: Global, name: &str, props: &[(Units, Units)]) -> bool {
    let Ok(name) = Units::from_text(alloc, name) else {
        return true;
    };
    for prop in props {
        if prop.0.as_slice() == name.as_slice() {
            return true;
        }
    }
    name.as_slice() == [b'/' as u16].as_slice()
}

/// Says of each property in a string that isn't there that what the string stands in is left out.
fn say_unset<K: Sink>(place: &Place<'_>, text: &str, props: &[(Units, Units)], out: &mut K) {
    let mut pieces = text.split("${");
    let _ = pieces.next();
    for piece in pieces {
        if let Some((name, _)) = piece.split_once('}') {
            if !is_set(place.alloc, name, props) {
                let mut said = place.sentence();
                said.words(b"`${");
                said.text(name);
                said.words(b"}` is no property of the job, so ");
                if place.is_inside {
                    said.words(b"the entry is left out");
                } else {
                    said.words(b"the grant is left out");
                }
                said.send(out);
            }
        }
    }
}

// ---- a policy's text

/// Says what is lost by what stands at a place.
fn say_lexeme<K: Sink>(place: &Place<'_>, lexeme: &[u8], props: &[(Units, Units)], out: &mut K) {
    if !place.is_granting {
        return;
    }
    if lexeme.starts_with(b"\"") {
        if let Ok(text) = str::from_utf8(lexeme) {
            say_unset(place, text, props, out);
        }
    } else if has_letters(lexeme, b"signedby") {
        place.say_lost(
            "a signer is asked for, and class files of a job have none",
            out,
        );
    } else if !place.is_inside && has_letters(lexeme, b"principal") {
        place.say_lost("a principal is asked for, and a job has none", out);
    }
}

/// Says what is lost by a policy's clauses: by properties that aren't there, by signers and by principals.
pub fn say_clauses<K: Sink>(
    alloc: Global,
    path: &str,
    text: &[u8],
    props: &[(Units, Units)],
    out: &mut K,
) {
    let mut place = Place {
        alloc,
        path,
        line: 1,
        is_granting: false,
        is_inside: false,
    };
    let mut next: usize = 0;
    for (at, byte) in text.iter().enumerate() {
        if next <= at {
            let rest = text.get(at..).unwrap_or(b"");
            next = at.saturating_add(lexeme_size(rest));
            let lexeme = text.get(at..next).unwrap_or(b"");
            say_lexeme(&place, lexeme, props, out);
            place = place.behind(lexeme);
        }
        if *byte == b'\n' {
            place.line = place.line.saturating_add(1);
        }
    }
}
