ghost use Rattle.std.specs.Prelude.{IsTrue};
ghost use Rattle.jparts.specs.jmaps.StackMapFormat.{maps};

use jground::jbase::{FaultOrMemory, Seq};
use jparts::jmaps::{
    ExpandError, Expansion, FullFrame, MapType, RawFrame, expand, put_frames, read_maps, write_maps,
};
use std::alloc::{AllocError, Global};
use tests_rows::{Answer, debug_behind};

/// How many frames a StackMapTable's content spells, or its first fault.
pub fn read(words: &str, answer: &mut Answer) {
    let bytes = answer.bytes(words);
    if 0x7fff_ffff < bytes.len() {
        return answer.refuse();
    }
    match read_maps(answer.alloc(), bytes.as_slice()) {
        Ok(raw) => {
            answer.debug(&raw.len());
            answer.tell(" frames");
        }
        Err(FaultOrMemory::Fault(fault)) => answer.debug_pair(&fault.at, &fault.kind),
        Err(FaultOrMemory::Memory) => answer.lack(),
    }
}

fn type_of(word: &str, answer: &mut Answer) -> MapType {
    if word == "Int" {
        return MapType::Int;
    }
    let class = word.strip_prefix("Object(").unwrap_or("");
    MapType::Object(answer.number(class.strip_suffix(')').unwrap_or("")))
}

/// The types that words say; `-` are none.
fn types_of(words: &str, answer: &mut Answer) -> Vec<MapType> {
    let mut types = Vec::new(answer.alloc());
    if words == "-" {
        return types;
    }
    for word in words.split(' ') {
        let one = type_of(word, answer);
        if types.push(one).is_err() {
            answer.lack();
        }
    }
    types
}

fn put_types(alloc: Global, types: &[MapType], text: &mut String) -> Result<(), AllocError> {
    for one in types {
        let told = debug_behind(alloc, " ", &one)?;
        text.push_str(told.as_str())?;
    }
    Ok(())
}

/// A frame: its place, its locals, and behind a `/` its stack.
fn frame(
    alloc: Global,
    at: u32,
    locals: &[MapType],
    stack: &[MapType],
) -> Result<String, AllocError> {
    let mut text = format!(in alloc; "{at}:")?;
    put_types(alloc, locals, &mut text)?;
    text.push_str(" /")?;
    put_types(alloc, stack, &mut text)?;
    Ok(text)
}

fn put_frame(text: &mut String, frame: &String) -> Result<(), AllocError> {
    if !text.is_empty() {
        text.push_str(", ")?;
    }
    text.push_str(frame.as_str())
}

/// The frames in full, all of them.
fn full(alloc: Global, first: &[MapType], raw: &[RawFrame]) -> Result<String, ExpandError>
    requires { IsTrue (maps.fits raw.now) }
{
    let mut text = String::new(alloc);
    for one in &expand(alloc, first, raw)? {
        let told = frame(alloc, one.at, one.locals.as_slice(), one.stack.as_slice())?;
        put_frame(&mut text, &told)?;
    }
    Ok(text)
}

/// The frames in full, one at a time.
fn steps(alloc: Global, first: &[MapType], raw: &[RawFrame]) -> Result<String, ExpandError>
    requires { IsTrue (maps.fits raw.now) }
{
    let mut text = String::new(alloc);
    let mut one = Expansion::open(alloc, first, raw)?;
    for _ in raw {
        if !one.next(alloc)? {
            return Ok(String::from_str(alloc, "too few")?);
        }
        let told = frame(alloc, one.at().unwrap_or(0), one.locals(), one.stack())?;
        put_frame(&mut text, &told)?;
    }
    if one.next(alloc)? {
        return Ok(String::from_str(alloc, "too many")?);
    }
    Ok(text)
}

/// What the two ways to the frames in full say, where they say the same.
fn tell_both(
    full: &Result<String, ExpandError>,
    steps: &Result<String, ExpandError>,
    answer: &mut Answer,
) {
    match (full, steps) {
        (Ok(one), Ok(other)) if one.as_str() == other.as_str() => answer.tell(one.as_str()),
        (Err(ExpandError::Memory), _) | (_, Err(ExpandError::Memory)) => answer.lack(),
        (Err(one), Err(other)) if one == other => answer.debug(one),
        _ => answer.tell("one at a time they are others"),
    }
}

/// The frames of a table in full, behind some first locals, if it is written back as it was.
fn frames_of(first: &[MapType], raw: &[RawFrame], bytes: &[u8], answer: &mut Answer)
    requires { IsTrue (maps.fits raw.now) }
{
    let alloc = answer.alloc();
    let mut again = Seq::new(alloc);
    answer.needs(put_frames(alloc, raw, &mut again));
    if again.as_slice() != bytes {
        return answer.tell("not written as it was");
    }
    let full = full(alloc, first, raw);
    let steps = steps(alloc, first, raw);
    tell_both(&full, &steps, answer);
}

/// The frames of a StackMapTable in full, behind some first locals, if it is written back as it was.
pub fn frames(first: &str, words: &str, answer: &mut Answer) {
    let first = types_of(first, answer);
    let bytes = answer.bytes(words);
    if 0x7fff_ffff < bytes.len() {
        return answer.refuse();
    }
    match read_maps(answer.alloc(), bytes.as_slice()) {
        Ok(raw) => frames_of(first.as_slice(), raw.as_slice(), bytes.as_slice(), answer),
        Err(_) => answer.refuse(),
    }
}

/// Two frames in full as they are written: at 3 with the locals Object(14) and Uninit(9), and at 10 with Long on the stack.
fn full_forms(alloc: Global) -> Result<Vec<u8>, AllocError> {
    let locals = [MapType::Object(14), MapType::Uninit(9)];
    let frames = [
        FullFrame {
            at: 3,
            locals: Seq::from_slice(alloc, &locals)?,
            stack: Seq::new(alloc),
        },
        FullFrame {
            at: 10,
            locals: Seq::new(alloc),
            stack: Seq::from_slice(alloc, &[MapType::Long])?,
        },
    ];
    write_maps(alloc, &frames)
}

/// Those two frames as hexadecimal text.
pub fn two_full(answer: &mut Answer) {
    match full_forms(answer.alloc()) {
        Ok(bytes) => answer.hex(bytes.as_slice()),
        Err(_) => answer.lack(),
    }
}
