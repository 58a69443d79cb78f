use crate::words::units;
use jground::jbase::FaultOrMemory;
use jground::jtext::{Units, bytes_of, same_ignoring_case, units_of};
use std::alloc::{AllocError, Global};
use tests_rows::Answer;

/// The bytes of units.
fn written(alloc: Global, units: &[u16]) -> Result<Vec<u8>, AllocError> {
    let units = Units::from_slice(alloc, units)?;
    bytes_of(alloc, &units)
}

/// Tells the bytes of units, where these are read from them again.
fn told(units: &[u16], bytes: &[u8], answer: &mut Answer) {
    match units_of(answer.alloc(), bytes) {
        Ok(text) if text.as_slice() == units => {
            answer.tell("<");
            answer.hex(bytes);
            answer.tell(">");
        }
        _ => answer.refuse(),
    }
}

/// The bytes of units, where these are read from them again.
fn spelled(word: &str, answer: &mut Answer) {
    let units = units(word, answer);
    match written(answer.alloc(), units.as_slice()) {
        Ok(bytes) => told(units.as_slice(), bytes.as_slice(), answer),
        Err(_) => answer.lack(),
    }
}

/// The place of the fault in bytes behind others that are a text.
fn fault_behind(front: &[u8], bad: &[u8], answer: &mut Answer) {
    let alloc = answer.alloc();
    let mut all = Vec::new(alloc);
    answer.needs(all.extend_from_slice(front));
    answer.needs(all.extend_from_slice(bad));
    match units_of(alloc, all.as_slice()) {
        Err(FaultOrMemory::Fault(fault)) => answer.spaced(&fault.at),
        _ => answer.refuse(),
    }
}

/// The places of the fault behind no, one and up to eight groups of one, two and three bytes each.
fn faults(word: &str, answer: &mut Answer) {
    let bad = answer.bytes(word);
    let mut front = Vec::new(answer.alloc());
    for _ in 0..9 {
        fault_behind(front.as_slice(), bad.as_slice(), answer);
        answer.needs(front.extend_from_slice(b"a\xc3\xa9\xe4\xb8\xad"));
    }
}

/// The units of a text, copied.
fn copied(alloc: Global, text: &str) -> Result<Units, AllocError> {
    let units = Units::from_text(alloc, text)?;
    units.copy(alloc)
}

/// The units of a text.
fn taken(text: &str, answer: &mut Answer) {
    match copied(answer.alloc(), text) {
        Ok(units) => answer.debug(&units.as_slice()),
        Err(_) => answer.lack(),
    }
}

/// Whether two texts, parted by `=`, are one but for the case of letters.
fn same(texts: &str, answer: &mut Answer) {
    let Some((text, word)) = texts.split_once('=') else {
        return answer.refuse();
    };
    match Units::from_text(answer.alloc(), text) {
        Ok(units) => answer.debug(&same_ignoring_case(units.as_slice(), word.as_bytes())),
        Err(_) => answer.lack(),
    }
}

/// What is asked of texts.
pub fn found(kind: &str, words: &str, answer: &mut Answer) {
    match kind {
        "spelled" => spelled(words, answer),
        "bad" => faults(words, answer),
        "units" => taken(words, answer),
        "same" => same(words, answer),
        _ => answer.refuse(),
    }
}
