use jclass::write_class;
use jgen::{MadeFile, make_job};
use jground::jbase::FaultOrMemory;
use jreadclass::read_class;
use std::alloc::{AllocError, Global};
use tests_rows::Answer;

/// Tells the file of a path, in hexadecimal digits.
fn tell_file(files: &[MadeFile], path: &str, answer: &mut Answer) {
    for file in files {
        if file.path.as_slice() == path.as_bytes() {
            return answer.hex(file.bytes.as_slice());
        }
    }
    answer.refuse();
}

/// Tells the paths in their order, each with a space behind it.
fn tell_paths(files: &[MadeFile], answer: &mut Answer) {
    for file in files {
        answer.tell_between("", file.path.as_slice(), " ");
    }
}

/// A digest with more bytes behind those that it is of (FNV-1a, of 64 bits).
fn with_bytes(digest: u64, bytes: &[u8]) -> u64 {
    let mut digest = digest;
    for byte in bytes {
        digest = (digest ^ u64::from(*byte)).wrapping_mul(0x0100_0000_01b3);
    }
    digest
}

/// The digest of all paths and bytes.
fn digest_of(files: &[MadeFile]) -> u64 {
    let mut digest = 0xcbf2_9ce4_8422_2325;
    for file in files {
        digest = with_bytes(digest, file.path.as_slice());
        digest = with_bytes(digest, file.bytes.as_slice());
    }
    digest
}

/// Whether bytes are those of a class file, which is written as it was read.
fn is_class(alloc: Global, bytes: &[u8]) -> Result<bool, AllocError> {
    match read_class(alloc, bytes) {
        Ok(class) => {
            let again = write_class(alloc, &class);
            drop(class);
            Ok(again?.as_slice() == bytes)
        }
        Err(FaultOrMemory::Fault(_)) => Ok(false),
        Err(FaultOrMemory::Memory) => Err(AllocError),
    }
}

/// Tells how many files are class files.
fn tell_classes(files: &[MadeFile], answer: &mut Answer) {
    let mut classes = 0u32;
    for file in files {
        match is_class(answer.alloc(), file.bytes.as_slice()) {
            Ok(is) => classes = classes.saturating_add(u32::from(is)),
            Err(_) => answer.lack(),
        }
    }
    answer.debug(&classes);
}

/// What is asked of files by a word.
fn of_files(files: &[MadeFile], word: &str, path: &str, answer: &mut Answer) {
    match word {
        "file" => tell_file(files, path, answer),
        "paths" => tell_paths(files, answer),
        "digest" => answer.debug(&digest_of(files)),
        "classes" => tell_classes(files, answer),
        _ => answer.refuse(),
    }
}

/// What is asked of the job of a seed and a size.
pub fn asked(question: &str, answer: &mut Answer) {
    let (word, words) = answer.parted(question, " ");
    let (words, path) = words.split_once(" of ").unwrap_or((words, ""));
    let (seed, size) = answer.parted(words, " ");
    let seed = answer.number(seed);
    let size = answer.number::<u32>(size);
    if size < 1 || size > 1000 {
        return answer.refuse();
    }
    match make_job(answer.alloc(), seed, size) {
        Ok(job) => {
            of_files(job.files.as_slice(), word, path, answer);
            drop(job);
        }
        Err(_) => answer.lack(),
    }
}
