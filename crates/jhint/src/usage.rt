use crate::said::Said;
use jjob::read_words;
use joutput::jio::Sink;
use std::alloc::Global;

/// What may stand behind words that begin a command, so that they are one.
const ENDS: &str = "|1|1 1|run 1|pass|pass 1|pass run 1";

/// Puts words behind others.
fn put_words(alloc: Global, end: &str, words: &mut Vec<String>) -> Option<()> {
    for word in end.split(' ') {
        if !word.is_empty() {
            words.push(String::from_str(alloc, word).ok()?).ok()?;
        }
    }
    Some(())
}

/// The same words again.
fn copied(alloc: Global, words: &[String]) -> Option<Vec<String>> {
    let mut copies = Vec::new(alloc);
    for word in words {
        copies
            .push(String::from_str(alloc, word.as_str()).ok()?)
            .ok()?;
    }
    Some(copies)
}

/// Whether words are a command with others behind them. None where no memory is left.
fn is_command(alloc: Global, words: &[String], end: &str) -> Option<bool> {
    let mut tried = copied(alloc, words)?;
    put_words(alloc, end, &mut tried)?;
    Some(read_words(alloc, &tried).is_ok())
}

/// Whether words begin a command.
fn begin(words: &[String], said: &mut Said) -> bool {
    for end in ENDS.split('|') {
        match is_command(said.alloc, words, end) {
            Some(true) => return true,
            Some(false) => {}
            None => said.is_lost = true,
        }
    }
    false
}

/// Says the first word with which no command goes on, or that one is missing.
fn say_word(words: &[String], said: &mut Said) {
    for (at, word) in words.iter().enumerate() {
        let front = words.get(..at.saturating_add(1)).unwrap_or(words);
        if !begin(front, said) {
            said.words(b"`");
            said.text(word.as_str());
            return said.words(b"` isn't allowed there");
        }
    }
    if words.is_empty() {
        said.words(b"there is no word, or one that is no UTF-8");
    } else {
        said.words(b"a word is missing");
    }
}

/// Says of words that are no command which one isn't allowed, and which commands there are.
pub fn say_usage<K: Sink>(alloc: Global, words: &[String], out: &mut K) {
    let mut said = Said::new(alloc);
    say_word(words, &mut said);
    said.words(
        b"; the commands are `run JOB`, `check JOB`, `rewrite JOB OUT`, `policy JOB` and `gen SEED SIZE`, where SIZE is 1 to 1000; ",
    );
    said.words(b"the first two take --form=inspect, --form=pass or --form=plain");
    said.send(out);
}
