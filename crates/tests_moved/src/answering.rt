use crate::asking::selected;
use crate::comparing::difference;
use crate::difference::Difference;
use crate::pair::{Pair, Unmoved, pair_of};
use jlinking::jlink::LinkedProgram;
use jresolution::jprogram::{CodePart, Selected};
use std::alloc::Global;
use tests_rows::{Unread, debug};

fn difference_text(alloc: Global, found: Option<Difference>) -> Result<String, Unread> {
    match found {
        Some(found) => Ok(found.to_string(alloc)?),
        None => Ok(String::from_str(alloc, "same")?),
    }
}

fn selected_text(
    alloc: Global,
    found: Selected,
    other: Option<Selected>,
) -> Result<String, Unread> {
    match other {
        Some(other) => Ok(format!(in alloc; "{found:?} and {other:?}")?),
        None => Ok(debug(alloc, &found)?),
    }
}

/// What is answered of a program and its moved program.
fn answer(
    alloc: Global,
    p: &LinkedProgram,
    q: &LinkedProgram,
    question: Option<&str>,
) -> Result<String, Unread> {
    let Some(question) = question else {
        return difference_text(alloc, difference(alloc, p, q)?);
    };
    let (found, other) = selected(p, q, question)?;
    selected_text(alloc, found, other)
}

fn answer_of(alloc: Global, pair: Pair, question: Option<&str>) -> Result<String, Unread> {
    let answer = answer(alloc, pair.program(), pair.moved(), question);
    drop(pair);
    answer
}

fn no_answer(alloc: Global, why: Unmoved) -> Result<String, Unread> {
    match why {
        Unmoved::Memory => Err(Unread::Memory),
        _ => Ok(why.to_string(alloc)?),
    }
}

/// What the program of parts and its moved program select where a question asks it, and else what differs first between them, or that
/// nothing does; where there is no moved program, why.
pub fn answered(
    alloc: Global,
    parts: Vec<CodePart>,
    question: Option<&str>,
) -> Result<String, Unread> {
    match pair_of(alloc, parts) {
        Ok(pair) => answer_of(alloc, pair, question),
        Err(why) => no_answer(alloc, why),
    }
}
