use jclass::{ClassFile, write_class};
use jground::jbase::FaultOrMemory;
use jreadclass::read_class;
use tests_rows::Answer;

/// Tells whether a class file that was read is written as it was.
fn tell_written(class: &ClassFile, bytes: &[u8], answer: &mut Answer) {
    match write_class(answer.alloc(), class) {
        Ok(again) if again.as_slice() == bytes => answer.tell("kept"),
        Ok(_) => answer.tell("not written as it was"),
        Err(_) => answer.lack(),
    }
}

/// What a class file gives that goes on behind some bytes: whether it is kept, or its first fault, whose place is counted from their end.
pub fn read(front: &[u8], words: &str, answer: &mut Answer) {
    let behind = answer.bytes(words);
    let mut bytes = Vec::new(answer.alloc());
    answer.needs(bytes.extend_from_slice(front));
    answer.needs(bytes.extend_from_slice(behind.as_slice()));
    match read_class(answer.alloc(), bytes.as_slice()) {
        Ok(class) => {
            tell_written(&class, bytes.as_slice(), answer);
            drop(class);
        }
        Err(FaultOrMemory::Fault(fault)) => match (fault.at as usize).checked_sub(front.len()) {
            Some(at) => answer.debug_pair(&at, &fault.kind),
            None => {
                answer.tell("in front ");
                answer.debug_pair(&fault.at, &fault.kind);
            }
        },
        Err(FaultOrMemory::Memory) => answer.lack(),
    }
}
