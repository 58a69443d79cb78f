use crate::said::Said;
use jpolicy::PolicyFault;
use jtasks::jstages::policy_fault;

/// The longest front of a policy of which is tried what could stand behind it.
const MOST_TRIED: usize = 1_000_000;

/// What is tried, in this order: marks, a string, any word, and a policy's own words.
const TOKENS: &str =
    ";|}|{|,|*|\"text\"|a word|grant|permission|codeBase|signedBy|principal|keystore|keystorePasswordURL";

/// What stands for any word. Where it may stand, so may each of a policy's own.
const ANY: &str = "a word";

// ---- the place

/// Says the file, and the line and the column behind the front of its text, counted from 1.
fn say_place(path: &str, front: &[u8], said: &mut Said) {
    let mut line: u64 = 1;
    let mut column: u64 = 1;
    for byte in front {
        if *byte == b'\n' {
            line = line.saturating_add(1);
            column = 1;
        } else if *byte < 0x80 || 0xc0 <= *byte {
            column = column.saturating_add(1);
        }
    }
    said.text(path);
    said.number(b", line ", line, b"");
    said.number(b", column ", column, b": ");
}

/// A string at the front of a text, as far as its line goes.
#[derive(Clone, Copy)]
pub struct Quoted {
    pub size: usize,
    /// It is closed there.
    is_closed: bool,
    /// It has an escape in digits.
    has_digits: bool,
}

/// The string at the front of a text.
pub fn quoted_at(text: &[u8]) -> Quoted {
    let mut found = Quoted {
        size: 0,
        is_closed: false,
        has_digits: false,
    };
    let mut is_escaped = false;
    for byte in text {
        let ends = *byte == b'"' && !is_escaped && found.size != 0;
        if found.is_closed || b"\n\r".contains(byte) {
            return found;
        }
        found.size = found.size.saturating_add(1);
        found.is_closed = ends;
        found.has_digits = found.has_digits || (is_escaped && b"01234567".contains(byte));
        is_escaped = *byte == b'\\' && !is_escaped;
    }
    found
}

/// The size of the token at the front of a text that is no string, 0 at its end: a word or one byte.
pub fn token_size(text: &[u8]) -> usize {
    if text.starts_with(b"/*") {
        return 2;
    }
    let mut size: usize = 0;
    for byte in text {
        if !byte.is_ascii_alphanumeric() && *byte < 0x80 && !b"._$".contains(byte) {
            return size.max(1);
        }
        size = size.saturating_add(1);
    }
    size
}

// ---- what may stand there

/// Whether a token may stand behind a policy's front: then the first fault of both, if they have any, isn't at that token.
fn may_stand(front: &[u8], token: &str, said: &mut Said) -> bool {
    let Ok(tried) = [front, b" ".as_slice(), token.as_bytes()].concat(said.alloc) else {
        said.is_lost = true;
        return false;
    };
    if 0x7fff_ffff < tried.len() {
        return false;
    }
    match policy_fault(said.alloc, &tried) {
        Ok(Some(place)) => place as usize != front.len().saturating_add(1),
        Ok(None) => true,
        Err(_) => {
            said.is_lost = true;
            false
        }
    }
}

/// Says what may stand behind the front of a policy.
fn say_allowed(front: &[u8], said: &mut Said) {
    said.words(b"; what may stand there:");
    for token in TOKENS.split('|') {
        if may_stand(front, token, said) {
            said.words(b" ");
            said.told(token);
            if token == ANY {
                return;
            }
        }
    }
}

/// Says what is wrong with the token at the front of a text.
fn say_token(text: &[u8], said: &mut Said) {
    let is_string = text.starts_with(b"\"");
    let quoted = quoted_at(text);
    let size = if is_string {
        quoted.size
    } else {
        token_size(text)
    };
    let token = text.get(..size).unwrap_or(text);
    if token.is_empty() {
        said.words(b"the text ends there");
        return;
    }
    said.words(b"`");
    said.text(str::from_utf8(token).unwrap_or(".."));
    if token.starts_with(b"/*") {
        said.words(b"` begins a comment that isn't closed");
    } else if is_string && !quoted.is_closed {
        said.words(b"` is a string that its line doesn't end");
    } else if is_string && quoted.has_digits {
        said.words(b"` has an escape in digits, which isn't read");
    } else {
        said.words(b"` isn't allowed there");
    }
}

/// Says of a policy's text what is wrong at its byte of a number, and what may stand there.
pub fn say_policy(path: &str, text: &[u8], at: u32, kind: PolicyFault, said: &mut Said) {
    let Some((front, rest)) = text.split_at_checked(at as usize) else {
        return;
    };
    say_place(path, front, said);
    match kind {
        PolicyFault::NotUtf8 => said.words(b"the bytes there are no UTF-8"),
        PolicyFault::SelfExpansion => {
            said.words(b"`${{..}}` isn't read here: write what it stands for");
        }
        PolicyFault::Syntax => {
            say_token(rest, said);
            if front.len() <= MOST_TRIED {
                say_allowed(front, said);
            }
        }
    }
}
