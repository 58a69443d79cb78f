use jground::jbase::FaultOrMemory;
use jparts::jcode::{
    OpForm, Placed, Switch, branch_at, branch_count, decode, effect_of, encode, form_of, goes_on,
};
use std::alloc::AllocError;
use tests_rows::Answer;

/// Tells how many instructions a code has that is written back as it was, or that it isn't.
fn tell_count(
    count: usize,
    again: &Result<Vec<u8>, AllocError>,
    bytes: &[u8],
    answer: &mut Answer,
) {
    match again {
        Ok(again) if again.as_slice() == bytes => answer.debug(&count),
        Ok(_) => answer.tell("not written as it was"),
        Err(_) => answer.lack(),
    }
}

/// How many instructions a code has, if it is written back as it was, or its first fault.
pub fn read(words: &str, answer: &mut Answer) {
    let bytes = answer.bytes(words);
    match decode(answer.alloc(), bytes.as_slice()) {
        Ok(ops) => {
            let again = encode(answer.alloc(), ops.as_slice());
            tell_count(ops.len(), &again, bytes.as_slice(), answer);
            drop(ops);
        }
        Err(FaultOrMemory::Fault(fault)) => answer.debug_pair(&fault.at, &fault.kind),
        Err(FaultOrMemory::Memory) => answer.lack(),
    }
}

/// What of a code that is one is asked.
#[derive(Clone, Copy)]
pub enum Asked {
    /// Its instructions, each with its place.
    List,
    /// The form of its first instruction, and what that takes and gives, where the form alone says that.
    Form,
    /// Where its first instruction leads, and whether the next one may follow.
    Branches,
}

fn tell_list(ops: &[Placed], answer: &mut Answer) {
    for (i, one) in ops.iter().enumerate() {
        if i > 0 {
            answer.tell(", ");
        }
        answer.debug_pair(&one.at, &one.op);
    }
}

fn tell_form(form: &OpForm<&Switch>, answer: &mut Answer) {
    answer.debug(form);
    if let Some(effect) = effect_of(form) {
        answer.tell(" takes ");
        answer.debug(&effect.takes);
        answer.tell(" gives ");
        answer.debug(&effect.gives);
    }
}

/// Tells the distance of each branch, and whether there are no others: one more is asked than the form has.
fn tell_branches(form: &OpForm<&Switch>, answer: &mut Answer) {
    for i in 0..=branch_count(form) {
        if let Some(by) = branch_at(form, i) {
            answer.debug(&by);
            answer.tell(" ");
        }
    }
    answer.tell(if goes_on(form) { "on" } else { "ends" });
}

fn tell_asked(asked: Asked, ops: &[Placed], answer: &mut Answer) {
    match (asked, ops.first()) {
        (Asked::List, _) => tell_list(ops, answer),
        (Asked::Form, Some(one)) => tell_form(&form_of(&one.op), answer),
        (Asked::Branches, Some(one)) => tell_branches(&form_of(&one.op), answer),
        _ => answer.refuse(),
    }
}

/// What is asked of a code that is one.
pub fn ask(asked: Asked, words: &str, answer: &mut Answer) {
    let bytes = answer.bytes(words);
    match decode(answer.alloc(), bytes.as_slice()) {
        Ok(ops) => {
            tell_asked(asked, ops.as_slice(), answer);
            drop(ops);
        }
        Err(FaultOrMemory::Fault(_)) => answer.refuse(),
        Err(FaultOrMemory::Memory) => answer.lack(),
    }
}
