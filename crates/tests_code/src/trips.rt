use jclass::write_class;
use jground::jbase::Seq;
use jparts::jcode::{decode, encode};
use jparts::jmaps::{put_frames, read_maps};
use jparts::jpool::{read_pool, write_pool};
use jreadclass::read_class;
use std::alloc::{AllocError, Global};
use tests_rows::{Answer, yes_or_no};

/// A part of a class file.
#[derive(Clone, Copy)]
enum Part {
    /// The constant pool, its count in front (JVMS 4.4).
    Pool,
    /// The content of a StackMapTable attribute (JVMS 4.7.4).
    Maps,
    /// The instructions of a Code attribute (JVMS 4.7.3).
    Code,
    /// A class file (JVMS 4.1).
    Class,
}

/// The part that a word names.
fn part_of(word: &str) -> Option<Part> {
    match word {
        "pool" => Some(Part::Pool),
        "maps" => Some(Part::Maps),
        "code" => Some(Part::Code),
        "class" => Some(Part::Class),
        _ => None,
    }
}

/// Whether the bytes are all of a pool that is written as it was read.
fn pool_comes_back(alloc: Global, bytes: &[u8]) -> Result<bool, AllocError> {
    let Ok((pool, behind)) = read_pool(alloc, bytes, 0) else {
        return Ok(false);
    };
    let written = write_pool(alloc, &pool);
    drop(pool);
    Ok(written?.as_slice() == bytes && behind as usize == bytes.len())
}

/// Whether the bytes are frames that are written as they were read.
fn maps_come_back(alloc: Global, bytes: &[u8]) -> Result<bool, AllocError> {
    if bytes.len() > i32::MAX as usize {
        return Ok(false);
    }
    let Ok(frames) = read_maps(alloc, bytes) else {
        return Ok(false);
    };
    let mut written = Seq::new(alloc);
    let put = put_frames(alloc, &frames, &mut written);
    drop(frames);
    put?;
    Ok(written.as_slice() == bytes)
}

/// Whether the bytes are instructions that are written as they were read.
fn code_comes_back(alloc: Global, bytes: &[u8]) -> Result<bool, AllocError> {
    let Ok(ops) = decode(alloc, bytes) else {
        return Ok(false);
    };
    let written = encode(alloc, &ops);
    drop(ops);
    Ok(written?.as_slice() == bytes)
}

/// Whether the bytes are a class file that is written as it was read.
fn class_comes_back(alloc: Global, bytes: &[u8]) -> Result<bool, AllocError> {
    let Ok(class) = read_class(alloc, bytes) else {
        return Ok(false);
    };
    let written = write_class(alloc, &class);
    drop(class);
    Ok(written?.as_slice() == bytes)
}

/// Whether a part is written byte for byte as it was read. What can't be read doesn't come back.
fn comes_back(alloc: Global, part: Part, bytes: &[u8]) -> Result<bool, AllocError> {
    match part {
        Part::Pool => pool_comes_back(alloc, bytes),
        Part::Maps => maps_come_back(alloc, bytes),
        Part::Code => code_comes_back(alloc, bytes),
        Part::Class => class_comes_back(alloc, bytes),
    }
}

/// Whether the part that a word names, of these bytes, comes back.
pub fn back(word: &str, words: &str, answer: &mut Answer) {
    let Some(part) = part_of(word) else {
        return answer.refuse();
    };
    let bytes = answer.bytes(words);
    match comes_back(answer.alloc(), part, bytes.as_slice()) {
        Ok(back) => answer.tell(yes_or_no(back)),
        Err(_) => answer.lack(),
    }
}
