ghost use Rattle.std.specs.Prelude.{◌≡◌, ◌+◌, ◌<◌, ◌≤◌, ◌^◌, None, IfOk, OnErr, length, min, take};
ghost use Rattle.jground.specs.jbase.FaultCauses.{HasCause, appended};

use crate::words::units;
use joutput::jio::{
    MemoryShelf, MemorySink, Part, RealShelf, RealSink, Shelf, Sink, SinkError, put_all,
    write_line, write_line_text,
};
use std::alloc::{AllocError, Global};
use std::fs;
use tests_rows::Answer;

/// Takes one byte a put, and fails at one put.
#[derive(Drop)]
struct Drip {
    len: usize,
    puts: u64,
    bad_put: u64,
    faults: u64,
}

impl Drip {
    fn new(bad_put: u64) -> Drip {
        Drip {
            len: 0,
            puts: 0,
            bad_put,
            faults: 0,
        }
    }
}

impl Sink for Drip {
    ghost out = { λ _. None };

    ghost faults = { λ s. s.faults };

    fn put(&mut self, piece: &[u8]) -> Result<usize, SinkError> {
        if piece.is_empty() {
            return Ok(0);
        }
        self.puts = self.puts.saturating_add(1);
        if self.puts == self.bad_put {
            self.faults = self.faults.saturating_add(1);
            return Err(SinkError::Failed);
        }
        self.len = self.len.saturating_add(1);
        Ok(1)
    }
}

/// A sink in memory, whose put of a number fails.
pub fn sink(alloc: Global, room: usize, bad_put: u64) -> Result<MemorySink, AllocError> {
    let bad_puts = Vec::from_slice(alloc, &[bad_put])?;
    MemorySink::open(alloc, room, bad_puts)
}

/// What a line has of a short text.
fn text(word: &str, answer: &mut Answer) {
    let units = units(word, answer);
    if 100 < units.len() {
        return answer.refuse();
    }
    let Ok(mut sink) = sink(answer.alloc(), 100, 0) else {
        return answer.lack();
    };
    match write_line_text(&mut sink, units.as_slice()) {
        Ok(()) => answer.tell_between("<", sink.bytes(), ">"),
        Err(_) => answer.refuse(),
    }
}

/// What becomes of a line with a text where the put of a number fails, and how many bytes went out.
fn pieces_of(text: &[u16], bad_put: u64, answer: &mut Answer)
    requires { length text.now < 2 ^ 16 }
{
    let Ok(mut sink) = sink(answer.alloc(), 1000, bad_put) else {
        return answer.lack();
    };
    let parts = [Part::Number(7), Part::Plain(" "), Part::Text(text)];
    let written = write_line(&mut sink, &parts);
    answer.debug_pair(&written, &sink.bytes().len());
}

/// The same of a text of so many letters.
fn pieces(words: &str, answer: &mut Answer) {
    let (letters, bad_put) = answer.parted(words, " ");
    let alloc = answer.alloc();
    let bad_put = answer.number(bad_put);
    match vec![in alloc; 0x78u16; usize::from(answer.number::<u16>(letters))] {
        Ok(text) => pieces_of(text.as_slice(), bad_put, answer),
        Err(_) => answer.lack(),
    }
}

/// What becomes of 18 bytes that go out one by one where the put of a number fails, and how many went out.
fn drips(bad_put: &str, answer: &mut Answer) {
    let mut drip = Drip::new(answer.number(bad_put));
    let put = put_all(&mut drip, b"grant 0 (\"a\" \"b\")\n");
    answer.debug_pair(&put, &drip.len);
}

/// What becomes of each word that is put into a sink with room for six bytes, whose second put fails, and what it holds then.
fn puts(words: &str, answer: &mut Answer) {
    let Ok(mut sink) = sink(answer.alloc(), 6, 2) else {
        return answer.lack();
    };
    for word in words.split(' ') {
        answer.spaced(&sink.put(word.as_bytes()));
    }
    answer.tell_between(" <", sink.bytes(), ">");
}

fn file(alloc: Global, path: &str, bytes: &str) -> Result<(String, Vec<u8>), AllocError> {
    let name = String::from_str(alloc, path)?;
    Ok((name, Vec::from_slice(alloc, bytes.as_bytes())?))
}

/// A shelf of two files in memory, whose second read fails, and whose first and third write.
fn memory(alloc: Global) -> Result<MemoryShelf, AllocError> {
    let mut files = Vec::new(alloc);
    files.push(file(alloc, "a/one", "first")?)?;
    files.push(file(alloc, "two", "second")?)?;
    if !MemoryShelf::paths_differ(&files) {
        return Err(AllocError);
    }
    let bad_reads = Vec::from_slice(alloc, &[2])?;
    let bad_writes = Vec::from_slice(alloc, &[1, 3])?;
    MemoryShelf::open(alloc, files, bad_reads, bad_writes)
}

/// Tells whether the bytes of hexadecimal text are stored.
fn store<S: Shelf>(shelf: &mut S, path: &str, what: &str, answer: &mut Answer) {
    let bytes = answer.bytes(what);
    let stored = shelf.write(answer.alloc(), path, bytes.as_slice());
    answer.debug(&stored.is_ok());
}

/// Tells the bytes at a path.
fn tell_file<S: Shelf>(shelf: &mut S, path: &str, answer: &mut Answer) {
    match shelf.read(answer.alloc(), path) {
        Ok(bytes) => answer.hex(bytes.as_slice()),
        Err(_) => answer.tell("none"),
    }
}

/// What a shelf answers, word by word: to a path what it reads, to a path with `=` and bytes behind it whether these are stored.
fn steps<S: Shelf>(shelf: &mut S, words: &str, answer: &mut Answer) {
    for word in words.split(' ') {
        answer.space();
        match word.split_once('=') {
            Some((path, what)) => store(shelf, path, what, answer),
            None => tell_file(shelf, word, answer),
        }
    }
}

/// What a shelf in memory answers, word by word, and what its files are then.
fn in_memory(words: &str, answer: &mut Answer) {
    let Ok(mut shelf) = memory(answer.alloc()) else {
        return answer.lack();
    };
    steps(&mut shelf, words, answer);
    for path in ["a/one", "two", "three"] {
        answer.tell(" <");
        answer.hex(shelf.file(path).unwrap_or(&[]));
        answer.tell(">");
    }
}

/// What the shelf of real files answers, word by word. What it made goes then.
fn real(rt: &HostRuntime, words: &str, answer: &mut Answer) {
    steps(&mut RealShelf::new(rt), words, answer);
    if fs::remove_dir_all(rt, "made").is_err() {
        answer.refuse();
    }
}

/// Puts words into a real file.
fn put_words(rt: &HostRuntime, path: &str, words: &str, answer: &mut Answer) {
    let Ok(file) = fs::File::create(rt, path) else {
        return answer.refuse();
    };
    let mut sink = RealSink::new(file);
    for word in words.split(',') {
        if put_all(&mut sink, word.as_bytes()).is_err() {
            answer.refuse();
        }
    }
}

/// What a real file holds into which words were put one behind the other. It goes then.
fn real_sink(rt: &HostRuntime, words: &str, answer: &mut Answer) {
    let path = "written_by_a_test.txt";
    put_words(rt, path, words, answer);
    tell_file(&mut RealShelf::new(rt), path, answer);
    if fs::remove_file(rt, path).is_err() {
        answer.refuse();
    }
}

/// What becomes of four bytes that are put where there is room for three, and of four more.
fn short_sink(answer: &mut Answer) {
    let mut three = [0u8; 3];
    let mut sink = RealSink::new(three.as_mut_slice());
    let first = sink.put(b"four");
    let second = sink.put(b"four");
    answer.debug_pair(&first, &second);
}

/// What is asked of shelves, of sinks and of lines.
pub fn found(rt: &HostRuntime, kind: &str, words: &str, answer: &mut Answer) {
    match kind {
        "text" => text(words, answer),
        "pieces" => pieces(words, answer),
        "drips" => drips(words, answer),
        "puts" => puts(words, answer),
        "memory" => in_memory(words, answer),
        "real" => real(rt, words, answer),
        "real_sink" => real_sink(rt, words, answer),
        "short_sink" => short_sink(answer),
        _ => answer.refuse(),
    }
}
