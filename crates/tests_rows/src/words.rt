use std::alloc::{AllocError, Global};
use std::fmt;
use std::str::FromStr;

/// Why a line of the input has no answer.
#[derive(Clone, Copy)]
pub enum Unread {
    /// It isn't one of the kinds of lines, or what it spells isn't read.
    Line,
    Memory,
}

impl fmt::Display for Unread {
    fn fmt<W: fmt::Write>(&self, f: &mut fmt::Formatter<W>) -> fmt::Result {
        match *self {
            Unread::Line => write!(f, "not read"),
            Unread::Memory => write!(f, "no memory"),
        }
    }
}

impl From<AllocError> for Unread {
    fn from(_: AllocError) -> Unread {
        Unread::Memory
    }
}

/// The first field of some, and those behind it.
pub fn first(fields: &str) -> Result<(&str, &str), Unread> {
    fields.split_once(" | ").ok_or(Unread::Line)
}

/// Puts a byte some times, and what stands behind it.
fn put_run(run: &str, bytes: &mut Vec<u8>) -> Result<(), Unread> {
    let Some((times, rest)) = run.split_once('*') else {
        return Err(Unread::Line);
    };
    let times = number::<u32>(times)?;
    let [byte, behind @ ..] = rest.as_bytes() else {
        return Err(Unread::Line);
    };
    for _ in 0..times {
        bytes.push(*byte).map_err(AllocError::from)?;
    }
    Ok(bytes.extend_from_slice(behind)?)
}

/// Puts the byte that the two digits behind a `~` are, and what stands behind them.
fn put_piece(alloc: Global, piece: &str, bytes: &mut Vec<u8>) -> Result<(), Unread> {
    if let Some(run) = piece.strip_prefix('*') {
        return put_run(run, bytes);
    }
    let Some((digits, rest)) = piece.split_at_checked(2) else {
        return Err(Unread::Line);
    };
    match hex::decode(alloc, digits) {
        Ok(more) => bytes.extend_from_slice(more.as_slice())?,
        Err(_) => return Err(Unread::Line),
    }
    Ok(bytes.extend_from_slice(rest.as_bytes())?)
}

/// The bytes that a text spells: `~` and two hexadecimal digits are a byte, `~*N*` is the byte behind it N times.
pub fn bytes_of(alloc: Global, text: &str) -> Result<Vec<u8>, Unread> {
    let mut bytes = Vec::new(alloc);
    let mut pieces = text.split('~');
    if let Some(plain) = pieces.next() {
        bytes.extend_from_slice(plain.as_bytes())?;
    }
    for piece in pieces {
        put_piece(alloc, piece, &mut bytes)?;
    }
    Ok(bytes)
}

/// What stands between the quotes of a field.
pub fn unquoted(field: &str) -> Result<&str, Unread> {
    let Some(text) = field.strip_prefix('\'') else {
        return Err(Unread::Line);
    };
    text.strip_suffix('\'').ok_or(Unread::Line)
}

/// The text that is spelled so.
pub fn string_of(alloc: Global, text: &str) -> Result<String, Unread> {
    match String::from_utf8(bytes_of(alloc, text)?) {
        Ok(text) => Ok(text),
        Err(_) => Err(Unread::Line),
    }
}

/// The bytes that a field spells between quotes.
pub fn spelled(alloc: Global, field: &str) -> Result<Vec<u8>, Unread> {
    bytes_of(alloc, unquoted(field)?)
}

/// The text that a field spells between quotes.
pub fn text_of(alloc: Global, field: &str) -> Result<String, Unread> {
    string_of(alloc, unquoted(field)?)
}

/// The number that is written so.
pub fn number<N: FromStr>(word: &str) -> Result<N, Unread>
where
    N::Err: Drop,
{
    match word.parse::<N>() {
        Ok(n) => Ok(n),
        Err(_) => Err(Unread::Line),
    }
}

/// A value, as `{:?}` tells it.
pub fn debug<T: fmt::Debug>(alloc: Global, one: &T) -> Result<String, AllocError> {
    format!(in alloc; "{one:?}")
}

/// The same of a value behind words.
pub fn debug_behind<T: fmt::Debug>(
    alloc: Global,
    words: &str,
    one: &T,
) -> Result<String, AllocError> {
    format!(in alloc; "{words}{one:?}")
}

/// How a yes or a no is told.
pub fn yes_or_no(yes: bool) -> &'static str {
    if yes { "yes" } else { "no" }
}

/// Puts the bytes of a word of hexadecimal text, which `N*` in front of it puts N times.
fn put_word(alloc: Global, word: &str, bytes: &mut Vec<u8>) -> Result<(), Unread> {
    let (times, digits) = match word.split_once('*') {
        Some((times, digits)) => (number::<u32>(times)?, digits),
        None => (1, word),
    };
    let Ok(more) = hex::decode(alloc, digits) else {
        return Err(Unread::Line);
    };
    for _ in 0..times {
        bytes.extend_from_slice(more.as_slice())?;
    }
    Ok(())
}

/// Puts the bytes of words of hexadecimal text behind others.
pub fn put_hex(alloc: Global, words: &str, bytes: &mut Vec<u8>) -> Result<(), Unread> {
    for word in words.split(' ') {
        put_word(alloc, word, bytes)?;
    }
    Ok(())
}

/// The bytes that words of hexadecimal text are; `-` are none.
pub fn hex_of(alloc: Global, words: &str) -> Result<Vec<u8>, Unread> {
    let mut bytes = Vec::new(alloc);
    if words != "-" {
        put_hex(alloc, words, &mut bytes)?;
    }
    Ok(bytes)
}

/// Whether an answer is the text that a row spells.
pub fn is_spelled(alloc: Global, wanted: &str, found: &str) -> bool {
    match string_of(alloc, wanted) {
        Ok(wanted) => wanted.as_str() == found,
        Err(_) => false,
    }
}
