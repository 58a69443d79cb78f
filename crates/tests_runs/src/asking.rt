use crate::devices::{Drip, MuteShelf, MuteSink};
use crate::rows::{Asked, Faults, Row, Stored};
use joutput::jio::{MemoryShelf, MemorySink, Shelf, Sink};
use jtop::jmain::javasec;
use std::alloc::{AllocError, Global};
use tests_rows::Answer;

/// Files by their paths, with what they hold.
type Files = Vec<(String, Vec<u8>)>;

/// What a command answered: the number of its status, and what it wrote.
#[derive(Drop)]
struct Outcome {
    status: u8,
    sink: MemorySink,
}

// ---- words and files

/// A text that was made, or an empty one where there was no memory for it.
fn kept(text: Result<String, AllocError>, answer: &mut Answer) -> String {
    match text {
        Ok(text) => text,
        Err(_) => {
            answer.lack();
            String::new(answer.alloc())
        }
    }
}

/// Puts one behind others.
fn put<T: Drop>(one: T, others: &mut Vec<T>, answer: &mut Answer) {
    if others.push(one).is_err() {
        answer.lack();
    }
}

/// A word with a line feed for each `¶`, since a line of rows can't hold one, and the empty word for `∅`.
fn word_of(word: &str, answer: &mut Answer) -> String {
    let text = match word {
        "∅" => Ok(String::new(answer.alloc())),
        _ => word.replace(answer.alloc(), '¶', "\n"),
    };
    kept(text, answer)
}

/// The words of a text, parted by single spaces.
fn words_of(text: &str, answer: &mut Answer) -> Vec<String> {
    let mut words = Vec::new(answer.alloc());
    for word in text.split(' ') {
        if !word.is_empty() {
            let word = word_of(word, answer);
            put(word, &mut words, answer);
        }
    }
    words
}

/// The bytes of a file, which can be read.
fn file_of<S: Shelf>(path: &str, shelf: &mut S, answer: &mut Answer) -> Vec<u8> {
    match shelf.read(answer.alloc(), path) {
        Ok(bytes) => bytes,
        Err(_) => {
            answer.refuse();
            Vec::new(answer.alloc())
        }
    }
}

/// The file of this name in the folder `memory`.
fn memory_file<S: Shelf>(name: &str, shelf: &mut S, answer: &mut Answer) -> Vec<u8> {
    let alloc = answer.alloc();
    let path = kept(format!(in alloc; "memory/{name}"), answer);
    file_of(path.as_str(), shelf, answer)
}

/// The file of a word `PATH=NAME`, with what the file of this name in the folder `memory` holds.
fn named_file<S: Shelf>(word: &str, shelf: &mut S, answer: &mut Answer) -> (String, Vec<u8>) {
    let (path, name) = answer.parted(word, "=");
    let bytes = memory_file(name, shelf, answer);
    (word_of(path, answer), bytes)
}

/// The path that a line of a job names, as a class file or a policy.
fn named_in(line: &str) -> Option<&str> {
    match line.split_once(' ') {
        Some(("class" | "policy", path)) => Some(path),
        _ => None,
    }
}

/// Puts a file behind others.
fn push_file(path: &str, bytes: Vec<u8>, files: &mut Files, answer: &mut Answer) {
    let path = kept(String::from_str(answer.alloc(), path), answer);
    put((path, bytes), files, answer);
}

/// Puts the files that a job names behind others.
fn push_named<S: Shelf>(job: &[u8], files: &mut Files, shelf: &mut S, answer: &mut Answer) {
    let Ok(text) = str::from_utf8(job) else {
        answer.refuse();
        return;
    };
    for line in text.lines() {
        if let Some(path) = named_in(line) {
            let bytes = file_of(path, shelf, answer);
            push_file(path, bytes, files, answer);
        }
    }
}

/// The files of words `PATH=NAME`, or of the job that is named behind the word `of`: this job, at the path `job`, and the files that it
/// names at their paths.
fn files_of<S: Shelf>(words: &str, shelf: &mut S, answer: &mut Answer) -> Files {
    let mut files = Vec::new(answer.alloc());
    if let Some(path) = words.strip_prefix("of ") {
        let job = file_of(path, shelf, answer);
        push_named(&job, &mut files, shelf, answer);
        push_file("job", job, &mut files, answer);
        return files;
    }
    for word in words.split(' ') {
        let file = named_file(word, shelf, answer);
        put(file, &mut files, answer);
    }
    files
}

// ---- commands

/// A shelf of files in memory, where their paths differ.
fn memory_of(files: Files, faults: Faults, answer: &mut Answer) -> Option<MemoryShelf> {
    if !MemoryShelf::paths_differ(&files) {
        drop(files);
        return None;
    }
    let alloc = answer.alloc();
    let reads = vec![in alloc; faults.read];
    let writes = vec![in alloc; faults.write];
    match (reads, writes) {
        (Ok(reads), Ok(writes)) => MemoryShelf::open(alloc, files, reads, writes).ok(),
        _ => {
            drop(files);
            None
        }
    }
}

/// A sink in memory.
fn sink_of(alloc: Global, faults: Faults) -> Option<MemorySink> {
    match vec![in alloc; faults.put] {
        Ok(puts) => MemorySink::open(alloc, faults.room, puts).ok(),
        Err(_) => None,
    }
}

/// The number of the status of what the words answer over these devices.
fn status_over<S: Shelf, K: Sink>(
    words: &str,
    shelf: &mut S,
    sink: &mut K,
    answer: &mut Answer,
) -> u8 {
    let words = words_of(words, answer);
    javasec(answer.alloc(), &words, shelf, sink).number()
}

/// What the words answer. Nothing where memory ran out.
fn outcome_of<S: Shelf>(
    words: &str,
    shelf: &mut S,
    faults: Faults,
    answer: &mut Answer,
) -> Option<Outcome> {
    let Some(mut sink) = sink_of(answer.alloc(), faults) else {
        return None;
    };
    let status = status_over(words, shelf, &mut sink, answer);
    Some(Outcome { status, sink })
}

/// What the words answer over files in memory.
fn outcome_over(words: &str, files: Files, faults: Faults, answer: &mut Answer) -> Option<Outcome> {
    match memory_of(files, faults, answer) {
        Some(mut memory) => outcome_of(words, &mut memory, faults, answer),
        None => None,
    }
}

/// Whether an outcome is what a row says.
fn is_as(got: &Option<Outcome>, row: &Row<'_>, wanted: &[u8]) -> bool {
    match got {
        Some(got) => got.status == row.status && got.sink.bytes() == wanted,
        None => false,
    }
}

/// Whether a command ended well.
fn is_well(got: &Option<Outcome>) -> bool {
    match got {
        Some(got) => got.status == 0,
        None => false,
    }
}

// ---- fronts of a file

/// The files of a row, the last one cut behind some bytes; none where it isn't longer.
fn cut_files<S: Shelf>(
    words: &str,
    length: usize,
    shelf: &mut S,
    answer: &mut Answer,
) -> Option<Files> {
    let mut files = files_of(words, shelf, answer);
    let Some((_, bytes)) = files.last_mut() else {
        return None;
    };
    if bytes.len() <= length {
        return None;
    }
    bytes.truncate(length);
    Some(files)
}

/// Whether a text has what stands before the `*` of a pattern in front, and what stands behind it at its end.
fn fits(text: &[u8], pattern: &[u8]) -> bool {
    let Ok(pattern) = str::from_utf8(pattern) else {
        return false;
    };
    match pattern.split_once('*') {
        Some((front, back)) => {
            text.starts_with(front.as_bytes()) && text.ends_with(back.as_bytes())
        }
        None => false,
    }
}

/// Whether an outcome is one that a row says of fronts.
fn is_of_front(got: &Option<Outcome>, row: &Row<'_>, wanted: &[u8]) -> bool {
    match got {
        Some(got) => got.status == row.status && fits(got.sink.bytes(), wanted),
        None => false,
    }
}

/// Whether a row is answered as it says with each front of its last file.
fn are_fronts_right<S: Shelf>(
    row: &Row<'_>,
    wanted: &[u8],
    shelf: &mut S,
    answer: &mut Answer,
) -> bool {
    for length in 0..usize::MAX {
        let Some(files) = cut_files(row.files, length, shelf, answer) else {
            return length > 0;
        };
        let got = outcome_over(row.words, files, Faults::NONE, answer);
        if !is_of_front(&got, row, wanted) {
            return false;
        }
    }
    false
}

// ---- numbers of steps

/// A job that begins with this number of steps.
fn put_steps(steps: u32, job: &mut Vec<u8>, answer: &mut Answer) {
    let alloc = answer.alloc();
    let mut text = kept(format!(in alloc; "steps {steps}\n"), answer).into_bytes();
    answer.needs(text.extend_from_slice(job.as_slice()));
    *job = text;
}

/// The files of a row, whose job begins with this number of steps.
fn files_within<S: Shelf>(row: &Row<'_>, steps: u32, shelf: &mut S, answer: &mut Answer) -> Files {
    let mut files = files_of(row.files, shelf, answer);
    for (path, bytes) in files.iter_mut() {
        if path.as_str() == "job" {
            put_steps(steps, bytes, answer);
        }
    }
    files
}

/// What words answer where the job begins with this number of steps.
fn outcome_within<S: Shelf>(
    words: &str,
    row: &Row<'_>,
    steps: u32,
    shelf: &mut S,
    answer: &mut Answer,
) -> Option<Outcome> {
    let files = files_within(row, steps, shelf, answer);
    outcome_over(words, files, Faults::NONE, answer)
}

/// The number of the status of a run that its steps bound, and its last line.
const BOUND: (u8, &[u8]) = (4, b"end bound\n");

/// What a command answers within some steps, by what its row says.
#[derive(Clone, Copy)]
enum Within {
    /// As the row says.
    Right,
    /// Bounded, behind so many bytes of what the row says.
    Bounded(usize),
    Wrong,
}

fn within_of(got: &Option<Outcome>, row: &Row<'_>, wanted: &[u8]) -> Within {
    let Some(got) = got else {
        return Within::Wrong;
    };
    let text = got.sink.bytes();
    if got.status == row.status && text == wanted {
        return Within::Right;
    }
    match text.strip_suffix(BOUND.1) {
        Some(told) if got.status == BOUND.0 && wanted.starts_with(told) => {
            Within::Bounded(told.len())
        }
        _ => Within::Wrong,
    }
}

/// Whether a row is answered as it says from some number of steps on, which is above none, and is bounded before: then the lines before
/// the bound's are a front of what it is to write, no shorter than with a step less.
fn are_steps_right<S: Shelf>(
    row: &Row<'_>,
    most: u32,
    wanted: &[u8],
    shelf: &mut S,
    answer: &mut Answer,
) -> bool {
    let (mut shown, mut bounded) = (0, 0);
    for steps in 0..most {
        let got = outcome_within(row.words, row, steps, shelf, answer);
        match within_of(&got, row, wanted) {
            Within::Right => {}
            Within::Bounded(told) if bounded == steps && shown <= told => {
                shown = told;
                bounded = steps.saturating_add(1);
            }
            _ => return false,
        }
    }
    0 < bounded && bounded < most
}

/// Whether the form `pass` answers so with this number of steps, by what the form `inspect` answers with each number up to it: as one of
/// these, which has ended too, or of which so many steps are at most eight times as many and fifteen; and as each that has ended, from eight
/// times as many and eight on.
fn is_beside(told: &[Option<Outcome>], steps: usize, got: &Option<Outcome>) -> bool {
    let Some(got) = got else {
        return false;
    };
    let has_ended = got.status != BOUND.0;
    let mut is_told = false;
    for (k, one) in told.iter().enumerate() {
        let Some(one) = one else {
            return false;
        };
        let is_same = got.status == one.status && got.sink.bytes() == one.sink.bytes();
        let eightfold = k.saturating_mul(8);
        if one.status != BOUND.0 && eightfold.saturating_add(8) <= steps && !is_same {
            return false;
        }
        if is_same && (has_ended || steps <= eightfold.saturating_add(15)) {
            is_told = true;
        }
    }
    is_told
}

/// Whether the form `pass` answers with each number of steps as it may by what a row's words answer, of which the last is as the row says.
fn are_forms_right<S: Shelf>(
    row: &Row<'_>,
    most: u32,
    wanted: &[u8],
    shelf: &mut S,
    answer: &mut Answer,
) -> bool {
    let mut told = Vec::new(answer.alloc());
    let mut is_last_right = false;
    for steps in 0..most {
        let one = outcome_within(row.words, row, steps, shelf, answer);
        is_last_right = is_as(&one, row, wanted);
        put(one, &mut told, answer);
        let got = outcome_within("run --form=pass job", row, steps, shelf, answer);
        if !is_beside(&told, steps as usize, &got) {
            return false;
        }
    }
    is_last_right
}

// ---- moved programs

/// Whether what a row says is answered over its files, and by `check --form=plain` once more over what `rewrite` stores of them.
fn is_moved_right<S: Shelf>(
    row: &Row<'_>,
    wanted: &[u8],
    shelf: &mut S,
    answer: &mut Answer,
) -> bool {
    let files = files_of(row.files, shelf, answer);
    let Some(mut memory) = memory_of(files, Faults::NONE, answer) else {
        return false;
    };
    let first = outcome_of(row.words, &mut memory, Faults::NONE, answer);
    let moved = outcome_of("rewrite job out", &mut memory, Faults::NONE, answer);
    let words = "check --form=plain out/job";
    let again = outcome_of(words, &mut memory, Faults::NONE, answer);
    is_as(&first, row, wanted) && is_well(&moved) && is_as(&again, row, wanted)
}

/// Whether what a row says is answered when `rewrite` has stored what it makes of the job's files.
fn is_rewritten_right<S: Shelf>(
    row: &Row<'_>,
    wanted: &[u8],
    shelf: &mut S,
    answer: &mut Answer,
) -> bool {
    let files = files_of(row.files, shelf, answer);
    let Some(mut memory) = memory_of(files, Faults::NONE, answer) else {
        return false;
    };
    let moved = outcome_of("rewrite job out", &mut memory, Faults::NONE, answer);
    let got = outcome_of(row.words, &mut memory, Faults::NONE, answer);
    is_well(&moved) && is_as(&got, row, wanted)
}

// ---- files that are stored

/// Whether a file of a list stands as the list says, or doesn't where it isn't to.
fn is_stored(memory: &MemoryShelf, path: &str, wanted: &[u8], is_wanted: bool) -> bool {
    match memory.file(path) {
        Some(bytes) => is_wanted && bytes == wanted,
        None => !is_wanted,
    }
}

/// Whether the files of a list stand, so many of them, and those behind them don't.
fn are_stored<S: Shelf>(
    stored: Stored<'_>,
    memory: &MemoryShelf,
    shelf: &mut S,
    answer: &mut Answer,
) -> bool {
    let list = memory_file(stored.list, shelf, answer);
    let Ok(text) = str::from_utf8(list.as_slice()) else {
        return false;
    };
    for (i, word) in text.lines().enumerate() {
        let (path, wanted) = named_file(word, shelf, answer);
        if !is_stored(memory, path.as_str(), wanted.as_slice(), i < stored.count) {
            return false;
        }
    }
    stored.count <= text.lines().count()
}

/// Whether what a row is to store stands, where it says something of it.
fn is_kept<S: Shelf>(
    row: &Row<'_>,
    memory: &MemoryShelf,
    shelf: &mut S,
    answer: &mut Answer,
) -> bool {
    row.stored.list.is_empty() || are_stored(row.stored, memory, shelf, answer)
}

/// A shelf of a row's files and a sink, both in memory.
fn devices_of<S: Shelf>(
    row: &Row<'_>,
    faults: Faults,
    shelf: &mut S,
    answer: &mut Answer,
) -> Option<(MemoryShelf, MemorySink)> {
    let files = files_of(row.files, shelf, answer);
    let memory = memory_of(files, faults, answer)?;
    match sink_of(answer.alloc(), faults) {
        Some(sink) => Some((memory, sink)),
        None => {
            drop(memory);
            None
        }
    }
}

/// Whether a row over files in memory is answered as it says, and stores what it says.
fn is_told_right<S: Shelf>(
    row: &Row<'_>,
    faults: Faults,
    wanted: &[u8],
    shelf: &mut S,
    answer: &mut Answer,
) -> bool {
    let Some((mut memory, mut sink)) = devices_of(row, faults, shelf, answer) else {
        return false;
    };
    let status = status_over(row.words, &mut memory, &mut sink, answer);
    status == row.status && sink.bytes() == wanted && is_kept(row, &memory, shelf, answer)
}

/// So too over devices that tell nothing, around those in memory.
fn is_mute_right<S: Shelf>(
    row: &Row<'_>,
    faults: Faults,
    wanted: &[u8],
    shelf: &mut S,
    answer: &mut Answer,
) -> bool {
    let Some((memory, sink)) = devices_of(row, faults, shelf, answer) else {
        return false;
    };
    let (mut memory, mut sink) = (MuteShelf::new(memory), MuteSink { sink });
    let status = status_over(row.words, &mut memory, &mut sink, answer);
    status == row.status
        && sink.sink.bytes() == wanted
        && is_kept(row, &memory.memory, shelf, answer)
}

// ---- sinks that take one byte a put

/// The number of the status of a fault of writing.
const WRITE_FAULT: u8 = 8;

/// The status and the bytes of a row where the put of this number fails of a sink that takes one byte a put: each put before takes a byte
/// of what the row is to write. Where it has no more bytes, they are the row's own.
fn dripped(status: u8, wanted: &[u8], put: usize) -> (u8, &[u8]) {
    if wanted.len() < put {
        return (status, wanted);
    }
    let (front, _) = wanted.split_at(put.saturating_sub(1));
    (WRITE_FAULT, front)
}

/// Whether a row is answered as it says by a sink that takes one byte a put.
fn is_drip_right<S: Shelf>(
    row: &Row<'_>,
    faults: Faults,
    wanted: &[u8],
    shelf: &mut S,
    answer: &mut Answer,
) -> bool {
    let Some((mut memory, sink)) = devices_of(row, faults, shelf, answer) else {
        return false;
    };
    let mut drip = Drip { sink };
    let status = status_over(row.words, &mut memory, &mut drip, answer);
    status == row.status && drip.sink.bytes() == wanted && is_kept(row, &memory, shelf, answer)
}

/// So too over devices that tell nothing, around these.
fn is_mute_drip_right<S: Shelf>(
    row: &Row<'_>,
    faults: Faults,
    wanted: &[u8],
    shelf: &mut S,
    answer: &mut Answer,
) -> bool {
    let Some((memory, sink)) = devices_of(row, faults, shelf, answer) else {
        return false;
    };
    let sink = Drip { sink };
    let (mut memory, mut mute) = (MuteShelf::new(memory), MuteSink { sink });
    let status = status_over(row.words, &mut memory, &mut mute, answer);
    status == row.status
        && mute.sink.sink.bytes() == wanted
        && is_kept(row, &memory.memory, shelf, answer)
}

/// Whether a row is answered so for each put of a byte of what it is to write that fails, and for one behind them, by devices that tell
/// what they hold and by those that don't.
fn are_drips_right<S: Shelf>(
    row: &Row<'_>,
    wanted: &[u8],
    shelf: &mut S,
    answer: &mut Answer,
) -> bool {
    for j in 0..=wanted.len() {
        let put = j.saturating_add(1);
        let (status, front) = dripped(row.status, wanted, put);
        let row = Row { status, ..*row };
        let faults = Faults {
            put: put as u64,
            ..Faults::NONE
        };
        if !is_drip_right(&row, faults, front, shelf, answer)
            || !is_mute_drip_right(&row, faults, front, shelf, answer)
        {
            return false;
        }
    }
    true
}

// ---- rows

/// What a row is to write.
fn wanted_of<S: Shelf>(row: &Row<'_>, shelf: &mut S, answer: &mut Answer) -> Vec<u8> {
    let alloc = answer.alloc();
    let path = match row.asked {
        Asked::Real => format!(in alloc; "{}.text", row.name),
        _ => format!(in alloc; "memory/{}.text", row.name),
    };
    let path = kept(path, answer);
    file_of(path.as_str(), shelf, answer)
}

/// Whether a row is answered as it says, where all is there that it needs.
fn is_answered<S: Shelf>(row: &Row<'_>, wanted: &[u8], shelf: &mut S, answer: &mut Answer) -> bool {
    match row.asked {
        Asked::Fronts => are_fronts_right(row, wanted, shelf, answer),
        Asked::Steps(most) => are_steps_right(row, most, wanted, shelf, answer),
        Asked::Forms(most) => are_forms_right(row, most, wanted, shelf, answer),
        Asked::Moved => is_moved_right(row, wanted, shelf, answer),
        Asked::Rewritten => is_rewritten_right(row, wanted, shelf, answer),
        Asked::Drips => are_drips_right(row, wanted, shelf, answer),
        Asked::Memory(faults) => {
            is_told_right(row, faults, wanted, shelf, answer)
                && is_mute_right(row, faults, wanted, shelf, answer)
        }
        Asked::Real => {
            let got = outcome_of(row.words, shelf, Faults::NONE, answer);
            is_as(&got, row, wanted)
        }
    }
}

/// Whether a row is answered as it says.
pub fn is_right<S: Shelf>(alloc: Global, row: &Row<'_>, shelf: &mut S) -> bool {
    let mut answer = Answer::new(alloc);
    let wanted = wanted_of(row, shelf, &mut answer);
    let is_right = is_answered(row, &wanted, shelf, &mut answer);
    answer.into_text().is_ok() && is_right
}
