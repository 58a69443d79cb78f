use crate::move_given::Sizes;
use jground::jbase::Seq;
use jmove::Expand;
use jparts::jcode::{Handler, decode};
use jparts::jmaps::{FullFrame, MapType};
use tests_rows::Answer;

/// A letter, and what stands behind it.
fn lettered(word: &str) -> (&str, &str) {
    word.split_at_checked(1).unwrap_or(("", word))
}

/// What becomes of an instruction: a letter, and behind most an index into the pool.
fn kind_of(word: &str, answer: &mut Answer) -> Expand {
    let (letter, i) = lettered(word);
    if letter == "s" {
        return Expand::Same;
    }
    let i = answer.number(i);
    match letter {
        "c" => Expand::Call(i),
        "k" => Expand::Check(i),
        "n" => Expand::Snapshot(i),
        "p" => Expand::Privileged(i),
        "w" => Expand::PrivilegedWith(i),
        "l" => Expand::PrivilegedLimited(i),
        _ => {
            answer.refuse();
            Expand::Same
        }
    }
}

/// That each instruction of code stays the same.
fn same_of(code: &[u8], answer: &mut Answer) -> Vec<Expand> {
    let mut kinds = Vec::new(answer.alloc());
    let Ok(ops) = decode(answer.alloc(), code) else {
        answer.refuse();
        return kinds;
    };
    for _ in ops.as_slice() {
        if kinds.push(Expand::Same).is_err() {
            answer.lack();
        }
    }
    drop(ops);
    kinds
}

/// What becomes of each instruction of code; of `-` each stays the same.
fn kinds_of(code: &[u8], words: &str, answer: &mut Answer) -> Vec<Expand> {
    if words == "-" {
        return same_of(code, answer);
    }
    let mut kinds = Vec::new(answer.alloc());
    for word in words.split(' ') {
        let kind = kind_of(word, answer);
        if kinds.push(kind).is_err() {
            answer.lack();
        }
    }
    kinds
}

fn handler_of(word: &str, answer: &mut Answer) -> Handler {
    let (range, behind) = answer.parted(word, ":");
    let (start, end) = answer.parted(range, "-");
    let (at, class) = answer.parted(behind, ":");
    Handler {
        start: answer.number(start),
        end: answer.number(end),
        at: answer.number(at),
        class: answer.number(class),
    }
}

fn handlers_of(words: &str, answer: &mut Answer) -> Seq<Handler> {
    let mut handlers = Seq::new(answer.alloc());
    if words == "-" {
        return handlers;
    }
    for word in words.split(' ') {
        let one = handler_of(word, answer);
        answer.needs(handlers.push(one));
    }
    handlers
}

/// A type of a frame: a letter, and behind some a number.
fn type_of(word: &str, answer: &mut Answer) -> MapType {
    let (letter, n) = lettered(word);
    match letter {
        "T" => MapType::Top,
        "I" => MapType::Int,
        "J" => MapType::Long,
        "O" => MapType::Object(answer.number(n)),
        "U" => MapType::Uninit(answer.number(n)),
        _ => {
            answer.refuse();
            MapType::Top
        }
    }
}

fn types_of(words: &str, answer: &mut Answer) -> Seq<MapType> {
    let mut types = Seq::new(answer.alloc());
    for word in words.split(',') {
        if !word.is_empty() {
            let one = type_of(word, answer);
            answer.needs(types.push(one));
        }
    }
    types
}

/// Puts a frame behind others.
fn put_frame(at: u32, locals: &str, stack: &str, frames: &mut Seq<FullFrame>, answer: &mut Answer) {
    let locals = types_of(locals, answer);
    let stack = types_of(stack, answer);
    answer.needs(frames.push(FullFrame { at, locals, stack }));
}

/// Puts frames behind others: one `PLACE:LOCALS:STACK`, or as many as the number before a `*`, at the places from 0 on.
fn put_frames(word: &str, frames: &mut Seq<FullFrame>, answer: &mut Answer) {
    if let Some((times, locals)) = word.split_once('*') {
        for at in 0..answer.number::<u32>(times) {
            put_frame(at, locals, "", frames, answer);
        }
        return;
    }
    let (at, behind) = answer.parted(word, ":");
    let (locals, stack) = answer.parted(behind, ":");
    put_frame(answer.number(at), locals, stack, frames, answer);
}

fn frames_of(words: &str, answer: &mut Answer) -> Seq<FullFrame> {
    let mut frames = Seq::new(answer.alloc());
    if words == "-" {
        return frames;
    }
    for word in words.split(' ') {
        put_frames(word, &mut frames, answer);
    }
    frames
}

fn sizes_of(words: &str, answer: &mut Answer) -> Sizes {
    let (slots, behind) = answer.parted(words, " ");
    let (stack, locals) = answer.parted(behind, " ");
    (
        answer.number(slots),
        answer.number(stack),
        answer.number(locals),
    )
}

/// A method, and what becomes of each of its instructions.
#[derive(Drop)]
pub struct Given {
    pub sizes: Sizes,
    pub code: Vec<u8>,
    pub kinds: Vec<Expand>,
    pub handlers: Seq<Handler>,
    pub frames: Seq<FullFrame>,
}

/// The method of fields: its sizes, its code, what becomes of each instruction, its handlers and its frames.
pub fn read(fields: &str, answer: &mut Answer) -> Given {
    let (sizes, rest) = answer.parted(fields, " | ");
    let (code, rest) = answer.parted(rest, " | ");
    let (kinds, rest) = answer.parted(rest, " | ");
    let (handlers, frames) = answer.parted(rest, " | ");
    let sizes = sizes_of(sizes, answer);
    let code = answer.bytes(code);
    let kinds = kinds_of(code.as_slice(), kinds, answer);
    let handlers = handlers_of(handlers, answer);
    let frames = frames_of(frames, answer);
    Given {
        sizes,
        code,
        kinds,
        handlers,
        frames,
    }
}
