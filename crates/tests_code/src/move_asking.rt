ghost use Rattle.std.specs.Prelude.{◌<◌};
ghost use Rattle.jmove.specs.MethodExpansion.{CanMove};

use crate::move_given::method_of;
use crate::move_reading::{Given, read};
use jadder::Adder;
use jground::jbase::Seq;
use jmove::{Expand, MethodIn, MethodOut, MoveError, limit_of, move_method, moved_descriptor};
use jparts::jcode::{Handler, Placed, decode};
use jparts::jmaps::{FullFrame, MapType};
use jparts::jpool::{Entry, Pool, read_pool, write_pool};
use std::alloc::Global;
use tests_rows::{Answer, debug};

/// Adds a text, where there is one.
fn add_text(alloc: Global, adder: &mut Adder, added: &str) -> bool {
    if added == "-" {
        return true;
    }
    if added.len() > 0xffff {
        return false;
    }
    match Seq::from_slice(alloc, added.as_bytes()) {
        Ok(text) => adder.add(Entry::Utf8(text)).is_ok(),
        Err(_) => false,
    }
}

/// An adder over the pool that bytes spell, to which a text was added, where there is one.
fn adder_of(alloc: Global, bytes: &[u8], added: &str) -> Option<Adder> {
    let Ok((pool, _)) = read_pool(alloc, bytes, 0) else {
        return None;
    };
    if pool.entries().is_empty() {
        drop(pool);
        return None;
    }
    let Ok(mut adder) = Adder::over(alloc, pool) else {
        return None;
    };
    if add_text(alloc, &mut adder, added) {
        return Some(adder);
    }
    drop(adder);
    None
}

/// Tells whether instructions are these.
fn tell_same(ops: &[Placed], wanted: &[Placed], answer: &mut Answer) {
    match (debug(answer.alloc(), &ops), debug(answer.alloc(), &wanted)) {
        (Ok(found), Ok(wanted)) => answer.debug(&(found.as_str() == wanted.as_str())),
        _ => answer.lack(),
    }
}

/// Tells whether the instructions of a method are those of code.
fn tell_code(m: &MethodOut, words: &str, answer: &mut Answer) {
    let bytes = answer.bytes(words);
    match decode(answer.alloc(), bytes.as_slice()) {
        Ok(ops) => {
            tell_same(m.ops.as_slice(), ops.as_slice(), answer);
            drop(ops);
        }
        Err(_) => answer.refuse(),
    }
}

fn tell_type(one: MapType, answer: &mut Answer) {
    match one {
        MapType::Top => answer.tell("T"),
        MapType::Int => answer.tell("I"),
        MapType::Long => answer.tell("J"),
        MapType::Object(i) => {
            answer.tell("O");
            answer.debug(&i);
        }
        MapType::Uninit(at) => {
            answer.tell("U");
            answer.debug(&at);
        }
        _ => answer.tell("?"),
    }
    answer.tell(",");
}

/// Tells types behind a `:`.
fn tell_types(types: &[MapType], answer: &mut Answer) {
    answer.tell(":");
    for one in types {
        tell_type(*one, answer);
    }
}

/// Tells a frame: its place, its locals and its stack, and a comma behind each type.
fn tell_frame(frame: &FullFrame, answer: &mut Answer) {
    answer.spaced(&frame.at);
    tell_types(frame.locals.as_slice(), answer);
    tell_types(frame.stack.as_slice(), answer);
}

fn tell_frames(frames: &[FullFrame], answer: &mut Answer) {
    if frames.is_empty() {
        return answer.tell("-");
    }
    for frame in frames {
        tell_frame(frame, answer);
    }
}

/// Tells a handler: its range, its place and its class.
fn tell_handler(one: &Handler, answer: &mut Answer) {
    answer.spaced(&one.start);
    answer.tell("-");
    answer.debug(&one.end);
    answer.tell(":");
    answer.debug(&one.at);
    answer.tell(":");
    answer.debug(&one.class);
}

fn tell_handlers(handlers: &[Handler], answer: &mut Answer) {
    if handlers.is_empty() {
        return answer.tell("-");
    }
    for one in handlers {
        tell_handler(one, answer);
    }
}

/// What is asked of a moved method.
fn of_method(m: &MethodOut, word: &str, rest: &str, answer: &mut Answer) {
    match word {
        "code" => tell_code(m, rest, answer),
        "sizes" => {
            answer.debug_pair(&m.slots, &m.max_stack);
            answer.spaced(&m.max_locals);
        }
        "handlers" => tell_handlers(m.handlers.as_slice(), answer),
        "frames" => tell_frames(m.frames.as_slice(), answer),
        "count" => answer.debug(&m.frames.as_slice().len()),
        "length" => match m.ops.as_slice().last() {
            Some(last) => answer.debug(&last.at.wrapping_add(1)),
            None => answer.refuse(),
        },
        _ => answer.refuse(),
    }
}

/// Tells whether a pool is written as these bytes.
fn tell_pool(pool: &Pool, words: &str, answer: &mut Answer) {
    let wanted = answer.bytes(words);
    match write_pool(answer.alloc(), pool) {
        Ok(written) => answer.debug(&(written.as_slice() == wanted.as_slice())),
        Err(_) => answer.lack(),
    }
}

/// What is asked of a method that was moved, or wasn't, and of the pool behind it.
fn of_moved(
    came: Result<MethodOut, MoveError>,
    pool: &Pool,
    word: &str,
    rest: &str,
    answer: &mut Answer,
) {
    match (word, came) {
        ("entries", _) => answer.debug(&pool.entries().len()),
        ("pool", _) => tell_pool(pool, rest, answer),
        ("error", came) => answer.debug(&came.err()),
        (_, Ok(m)) => {
            of_method(&m, word, rest, answer);
            drop(m);
        }
        (_, Err(error)) => answer.debug(&error),
    }
}

/// What is asked of a method that can be moved, by a word and the words behind it. Of `limits` it is why it isn't moved, the limit that it
/// breaks, and how many entries the pool has then.
fn of_given(
    m: &MethodIn,
    kinds: &[Expand],
    domain: u32,
    mut pool: Adder,
    words: (&str, &str),
    answer: &mut Answer,
)
    requires can { CanMove m.now kinds.now }
    requires domain { domain < 4096 }
{
    let (word, rest) = words;
    let came = move_method(answer.alloc(), m, kinds, domain, &mut pool);
    let pool = pool.into_pool();
    if word == "limits" {
        answer.debug_pair(&came.err(), &limit_of(m, kinds));
        answer.spaced(&pool.entries().len());
    } else {
        of_moved(came, &pool, word, rest, answer);
    }
    drop(pool);
}

/// What is asked of a method of a domain over a pool.
fn of_fields(given: Given, domain: u32, pool: Adder, words: (&str, &str), answer: &mut Answer) {
    let Given {
        sizes,
        code,
        kinds,
        handlers,
        frames,
    } = given;
    let alloc = answer.alloc();
    let kinds = kinds.as_slice();
    match method_of(alloc, code.as_slice(), sizes, handlers, frames, kinds) {
        Some(m) if domain < 4096 => {
            of_given(&m, kinds, domain, pool, words, answer);
            drop(m);
        }
        _ => {
            drop(pool);
            answer.refuse();
        }
    }
}

/// What is asked of a method, by a word and the words behind it: over the pool that bytes spell, to which a text was added, of a domain.
pub fn asked(pool: &[u8], given: &str, words: (&str, &str), answer: &mut Answer) {
    let (added, fields) = answer.parted(given, " | ");
    let (domain, fields) = answer.parted(fields, " | ");
    let domain = answer.number(domain);
    let given = read(fields, answer);
    match adder_of(answer.alloc(), pool, added) {
        Some(pool) => of_fields(given, domain, pool, words, answer),
        None => {
            drop(given);
            answer.refuse();
        }
    }
}

/// A descriptor with a context.
pub fn descriptor(text: &str, answer: &mut Answer) {
    match moved_descriptor(answer.alloc(), text.as_bytes()) {
        Ok(Some(found)) => answer.tell_between("", found.as_slice(), ""),
        Ok(None) => answer.refuse(),
        Err(_) => answer.lack(),
    }
}
