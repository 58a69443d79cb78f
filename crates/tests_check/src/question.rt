use jresolution::jprogram::{ClassId, Member, MethodId};
use tests_rows::Answer;

/// A question: its word, and up to four words behind it, which are empty where they aren't there.
#[derive(Clone, Copy)]
pub struct Question<'a> {
    pub word: &'a str,
    pub a: &'a str,
    pub b: &'a str,
    pub c: &'a str,
    pub d: &'a str,
}

/// A word, and what stands behind it, nothing where it is the last.
fn first(text: &str) -> (&str, &str) {
    match text.split_once(' ') {
        Some((word, rest)) => (word, rest),
        None => (text, ""),
    }
}

impl<'a> Question<'a> {
    /// The question of a text.
    pub fn of(text: &'a str) -> Question<'a> {
        let (word, rest) = first(text);
        let (a, rest) = first(rest);
        let (b, rest) = first(rest);
        let (c, d) = first(rest);
        Question { word, a, b, c, d }
    }
}

/// A method by the numbers of its class and of its own.
pub fn method_of(class: &str, method: &str, answer: &mut Answer) -> Member {
    Member::Method(MethodId {
        class: answer.number(class),
        method: answer.number(method),
    })
}

/// The class of an object: a number, or an array.
pub fn class_id(word: &str, answer: &mut Answer) -> ClassId {
    match word {
        "array" => ClassId::Array,
        _ => ClassId::User(answer.number(word)),
    }
}
