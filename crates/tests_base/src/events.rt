use crate::files::sink;
use crate::words::{first, units};
use jground::jtext::Units;
use joutput::jio::{MemorySink, PutFault};
use joutput::jtrace::{End, Event, write_end, write_event};
use jperm::{Actions, Permission, PropertyActions};
use std::alloc::{AllocError, Global};
use tests_rows::{Answer, Unread, number};

/// A check's permission on the property `x`.
fn asked(alloc: Global) -> Result<Permission, AllocError> {
    Ok(Permission::Property {
        name: Units::from_text(alloc, "x")?,
        actions: PropertyActions::new(Actions::READ),
    })
}

fn denied(alloc: Global, thread: u32, domain: u32) -> Result<Event, AllocError> {
    let asked = asked(alloc)?;
    Ok(Event::Deny {
        thread,
        asked,
        domain,
    })
}

fn granted(alloc: Global, thread: u32) -> Result<Event, AllocError> {
    let asked = asked(alloc)?;
    Ok(Event::Grant { thread, asked })
}

fn thrown(alloc: Global, thread: u32, class: &str) -> Result<Event, AllocError> {
    let class = Units::from_text(alloc, class)?;
    Ok(Event::Throw { thread, class })
}

fn uncaught(alloc: Global, thread: u32, class: &str) -> Result<Event, AllocError> {
    let class = Units::from_text(alloc, class)?;
    Ok(Event::Uncaught { thread, class })
}

/// The event of a kind, a thread's number and what stands behind that.
fn event_of(kind: &str, thread: u32, rest: &str, answer: &mut Answer) -> Result<Event, Unread> {
    let alloc = answer.alloc();
    match kind {
        "out" => {
            let text = Units::from_vec(units(rest, answer));
            Ok(Event::Out { thread, text })
        }
        "grant" => Ok(granted(alloc, thread)?),
        "deny" => Ok(denied(alloc, thread, number(rest)?)?),
        "throw" => Ok(thrown(alloc, thread, rest)?),
        "uncaught" => Ok(uncaught(alloc, thread, rest)?),
        _ => Err(Unread::Line),
    }
}

/// Writes an event's line where it is short enough.
fn write_short(to: &mut MemorySink, event: &Event, answer: &mut Answer) -> Result<(), PutFault> {
    if !event.is_short() {
        answer.refuse();
        return Ok(());
    }
    write_event(to, event)
}

/// Tells what a sink holds once it was written to: one line, without its end.
fn tell_line(to: &MemorySink, is_written: bool, answer: &mut Answer) {
    match to.bytes().strip_suffix(b"\n") {
        Some(line) if is_written => answer.tell_between("<", line, ">"),
        _ => answer.refuse(),
    }
}

/// The line of an event.
fn told(event: &Event, answer: &mut Answer) {
    let alloc = answer.alloc();
    let Ok(mut to) = MemorySink::open(alloc, 4096, Vec::new(alloc)) else {
        return answer.lack();
    };
    let written = write_short(&mut to, event, answer);
    tell_line(&to, written.is_ok(), answer);
}

/// The line of the event that words say: its kind, a thread's number, and more.
fn event(words: &str, answer: &mut Answer) {
    let (kind, rest) = answer.parted(words, " ");
    let (thread, rest) = first(rest);
    let thread = answer.number(thread);
    match event_of(kind, thread, rest, answer) {
        Ok(event) => told(&event, answer),
        Err(_) => answer.refuse(),
    }
}

/// The event of a long text.
fn letters(alloc: Global) -> Result<Event, AllocError> {
    let text = Units::from_vec(vec![in alloc; 0x61u16; 600]?);
    Ok(Event::Out { thread: 0, text })
}

/// What becomes of an event's line in a sink, and how many bytes went out.
fn written(to: &mut MemorySink, event: &Event, answer: &mut Answer) {
    let written = write_short(to, event, answer);
    answer.debug_pair(&written, &to.bytes().len());
}

/// What becomes of the line of a long text where the put of a number fails, and how many bytes went out.
fn long(words: &str, answer: &mut Answer) {
    let alloc = answer.alloc();
    let bad_put = answer.number::<u64>(words);
    match (letters(alloc), sink(alloc, 4096, bad_put)) {
        (Ok(event), Ok(mut to)) => written(&mut to, &event, answer),
        _ => answer.lack(),
    }
}

fn end_of(name: &str) -> Option<End> {
    match name {
        "Finished" => Some(End::Finished),
        "Uncaught" => Some(End::Uncaught),
        "Deadlock" => Some(End::Deadlock),
        "HeapFull" => Some(End::HeapFull),
        "Bound" => Some(End::Bound),
        _ => None,
    }
}

/// The line of an end.
fn ended(name: &str, answer: &mut Answer) {
    let alloc = answer.alloc();
    let Some(end) = end_of(name) else {
        return answer.refuse();
    };
    let Ok(mut to) = MemorySink::open(alloc, 4096, Vec::new(alloc)) else {
        return answer.lack();
    };
    let written = write_end(&mut to, end);
    tell_line(&to, written.is_ok(), answer);
}

/// What is asked of events and ends.
pub fn found(kind: &str, words: &str, answer: &mut Answer) {
    match kind {
        "event" => event(words, answer),
        "long" => long(words, answer),
        "end" => ended(words, answer),
        _ => answer.refuse(),
    }
}
