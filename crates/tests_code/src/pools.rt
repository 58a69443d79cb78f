use jadder::{AddError, Adder};
use jground::jbase::{FaultOrMemory, Seq};
use jparts::jpool::{
    DescError, Descriptor, Entry, FieldType, Pool, is_array_descriptor, is_class_name,
    is_field_descriptor, is_method_descriptor, method_slots, read_descriptor, read_pool, slots_of,
    write_pool,
};
use std::alloc::Global;
use tests_rows::{Answer, Unread, first, hex_of, number, yes_or_no};

/// Tells a text between quotes, or that there is none.
fn tell_if(text: Option<&[u8]>, answer: &mut Answer) {
    let Some(text) = text else {
        return answer.tell("-");
    };
    match String::from_utf8_lossy(answer.alloc(), text) {
        Ok(text) => {
            answer.tell("'");
            answer.tell(text.as_str());
            answer.tell("'");
        }
        Err(_) => answer.lack(),
    }
}

/// Whether a text names a class.
pub fn class_name(field: &str, answer: &mut Answer) {
    let text = answer.spelled(field);
    answer.tell(yes_or_no(is_class_name(text.as_slice())));
}

/// What a text is as a descriptor.
#[derive(Clone, Copy, PartialEq, Eq)]
enum Described {
    Array,
    Field,
    /// That of a method, whose parameters take so many slots.
    Method(usize),
    None,
    /// Tests that can't both hold do, or two that say the same differ.
    Otherwise,
}

/// What a text is by the tests that make nothing of it.
fn tested(text: &[u8]) -> Described {
    let slots = method_slots(text);
    if is_method_descriptor(text) != slots.is_some() {
        return Described::Otherwise;
    }
    match (is_field_descriptor(text), is_array_descriptor(text), slots) {
        (true, true, None) => Described::Array,
        (true, false, None) => Described::Field,
        (false, false, Some(slots)) => Described::Method(slots),
        (false, false, None) => Described::None,
        _ => Described::Otherwise,
    }
}

/// What a text is as a descriptor that is read; none where there is no memory.
fn read(alloc: Global, text: &[u8]) -> Option<Described> {
    match read_descriptor(alloc, text) {
        Ok(Descriptor::Field(one)) if 0 < one.depth => Some(Described::Array),
        Ok(Descriptor::Field(_)) => Some(Described::Field),
        Ok(Descriptor::Method { params, .. }) => {
            Some(Described::Method(slots_of(params.as_slice())))
        }
        Err(DescError::Memory) => None,
        Err(_) => Some(Described::None),
    }
}

fn tell_described(one: Described, answer: &mut Answer) {
    match one {
        Described::Array => answer.tell("array"),
        Described::Field => answer.tell("field"),
        Described::Method(slots) => {
            answer.tell("method of ");
            answer.debug(&slots);
        }
        Described::None => answer.tell("none"),
        Described::Otherwise => answer.tell("otherwise"),
    }
}

/// What a text is as a descriptor, if the tests and what is read agree.
pub fn descriptor(field: &str, answer: &mut Answer) {
    let text = answer.spelled(field);
    match read(answer.alloc(), text.as_slice()) {
        Some(read) if tested(text.as_slice()) == read => tell_described(read, answer),
        Some(_) => answer.tell("read as another"),
        None => answer.lack(),
    }
}

/// Tells a type: how deep an array it is, its first letter, and its class.
fn tell_type(one: &FieldType, answer: &mut Answer) {
    answer.debug(&one.depth);
    answer.tell(" ");
    answer.tell_between("", &[one.base], " ");
    tell_if(Some(one.class.as_slice()), answer);
}

/// The types of a method's descriptor: its parameters, and behind `gives` its result.
pub fn parts(field: &str, answer: &mut Answer) {
    let text = answer.spelled(field);
    let Ok(Descriptor::Method { params, ret }) = read_descriptor(answer.alloc(), text.as_slice())
    else {
        return answer.refuse();
    };
    for one in params.as_slice() {
        tell_type(one, answer);
        answer.tell(", ");
    }
    answer.tell("gives ");
    match &ret {
        Some(one) => tell_type(one, answer),
        None => answer.tell("V"),
    }
}

/// Tells where a pool ends that stands between two places, if it is written as it was.
fn tell_end(pool: &Pool, bytes: &[u8], at: u32, end: u32, answer: &mut Answer) {
    let Ok(again) = write_pool(answer.alloc(), pool) else {
        return answer.lack();
    };
    if bytes.get(at as usize..end as usize) != Some(again.as_slice()) {
        return answer.tell("not written as it was");
    }
    answer.tell("to ");
    answer.debug(&end);
}

/// Where the pool ends that begins at a place of some bytes, if it is written as it was, or its first fault.
pub fn pool(at: &str, words: &str, answer: &mut Answer) {
    let at = answer.number(at);
    let bytes = answer.bytes(words);
    match read_pool(answer.alloc(), bytes.as_slice(), at) {
        Ok((pool, end)) => {
            tell_end(&pool, bytes.as_slice(), at, end, answer);
            drop(pool);
        }
        Err(FaultOrMemory::Fault(fault)) => answer.debug_pair(&fault.at, &fault.kind),
        Err(FaultOrMemory::Memory) => answer.lack(),
    }
}

/// The pool of bytes that are one.
pub fn pool_of(alloc: Global, fields: &str) -> Result<Pool, Unread> {
    let (at, words) = first(fields)?;
    let bytes = hex_of(alloc, words)?;
    match read_pool(alloc, bytes.as_slice(), number::<u32>(at)?) {
        Ok((pool, _)) => Ok(pool),
        Err(FaultOrMemory::Fault(_)) => Err(Unread::Line),
        Err(FaultOrMemory::Memory) => Err(Unread::Memory),
    }
}

/// What a pool has at an index.
pub fn looked_up(pool: &Pool, how: &str, index: &str, answer: &mut Answer) {
    let i = answer.number(index);
    match how {
        "text" => tell_if(pool.utf8(i), answer),
        "class" => tell_if(pool.class_name(i), answer),
        "entry" => match pool.entry(i) {
            Some(entry) => answer.debug(&entry),
            None => answer.tell("-"),
        },
        "both" => match pool.name_and_type(i) {
            Some((name, descriptor)) => answer.debug_pair(&name, &descriptor),
            None => answer.tell("-"),
        },
        _ => answer.refuse(),
    }
}

/// An adder over the pool of bytes.
pub fn adder_of(alloc: Global, fields: &str) -> Result<Adder, Unread> {
    let pool = pool_of(alloc, fields)?;
    if pool.entries().is_empty() {
        drop(pool);
        return Err(Unread::Line);
    }
    Ok(Adder::over(alloc, pool)?)
}

/// Tells the index at which an adder has an entry that was added, or why it has none.
fn tell_added(added: Result<u16, AddError>, answer: &mut Answer) {
    match added {
        Ok(index) => answer.debug(&index),
        Err(AddError::Memory) => answer.lack(),
        Err(why) => answer.debug(&why),
    }
}

/// Adds a text.
fn add_text(adder: &mut Adder, field: &str, answer: &mut Answer) {
    let text = answer.spelled(field);
    if 65_535 < text.len() {
        return answer.refuse();
    }
    tell_added(adder.add(Entry::Utf8(Seq::from_vec(text))), answer);
}

/// Adds an entry that numbers are.
fn add_number(adder: &mut Adder, kind: &str, content: &str, answer: &mut Answer) {
    let added = match kind {
        "NameAndType" => {
            let (name, descriptor) = answer.parted(content, " ");
            let name = answer.number(name);
            adder.add(Entry::NameAndType(name, answer.number(descriptor)))
        }
        "Integer" => adder.add(Entry::Integer(answer.number(content))),
        "Float" => adder.add(Entry::Float(answer.number(content))),
        "Long" => adder.add(Entry::Long(answer.number(content))),
        "Double" => adder.add(Entry::Double(answer.number(content))),
        _ => return answer.refuse(),
    };
    tell_added(added, answer);
}

/// The index at which an adder has an entry that is added, or why it has none.
pub fn added(adder: &mut Adder, entry: &str, answer: &mut Answer) {
    let (kind, content) = answer.parted(entry, " ");
    if kind == "Utf8" {
        return add_text(adder, content, answer);
    }
    add_number(adder, kind, content, answer);
}
