use jcheck::{CheckedProgram, TypeFault, check};
use jlib::Side;
use jlinking::jlink::{LinkError, LinkedProgram, are_parts, link};
use jreadclass::read_class;
use jresolution::jprogram::CodePart;
use std::alloc::Global;
use std::fmt;
use tests_rows::Unread;

/// What the checker says of a program.
#[derive(Clone, Copy)]
pub enum Verdict {
    /// It is well typed.
    Typed,
    /// It is well typed, and runs without a look at frames.
    Plain,
    /// It isn't, at a place in the last method of the last class.
    Last(u32),
    /// It isn't, at a class, a method and a place.
    At(u32, u32, u32),
    /// It doesn't link.
    Unlinked,
}

impl fmt::Display for Verdict {
    fn fmt<W: fmt::Write>(&self, f: &mut fmt::Formatter<W>) -> fmt::Result {
        match *self {
            Verdict::Typed => write!(f, "ok"),
            Verdict::Plain => write!(f, "plain"),
            Verdict::Last(at) => write!(f, "at {at}"),
            Verdict::At(class, method, at) => write!(f, "at {class} {method} {at}"),
            Verdict::Unlinked => write!(f, "unlinked"),
        }
    }
}

/// A class of a program, all in one domain.
pub fn part_of(alloc: Global, bytes: &[u8]) -> Result<CodePart, Unread> {
    match read_class(alloc, bytes) {
        Ok(class) => Ok(CodePart { domain: 0, class }),
        Err(_) => Err(Unread::Line),
    }
}

fn accepted(checked: CheckedProgram) -> Verdict {
    match checked.into_plain() {
        Ok(program) => {
            drop(program);
            Verdict::Plain
        }
        Err(checked) => {
            drop(checked);
            Verdict::Typed
        }
    }
}

/// Whether a method is the last one of the last class.
fn is_last(program: &LinkedProgram, class: u32, method: u32) -> bool {
    let parts = program.parts();
    let Some(part) = parts.last() else {
        return false;
    };
    class as usize + 1 == parts.len()
        && method as usize + 1 == part.class.parts().methods.as_slice().len()
}

fn refused(program: &LinkedProgram, fault: TypeFault) -> Result<Verdict, Unread> {
    match fault {
        TypeFault::At { class, method, at } if is_last(program, class, method) => {
            Ok(Verdict::Last(at))
        }
        TypeFault::At { class, method, at } => Ok(Verdict::At(class, method, at)),
        TypeFault::Memory => Err(Unread::Memory),
    }
}

/// Links and checks a program.
pub fn judged(alloc: Global, parts: Vec<CodePart>, side: Side) -> Result<Verdict, Unread> {
    if !are_parts(&parts) {
        drop(parts);
        return Err(Unread::Line);
    }
    let program = match link(alloc, parts, side) {
        Ok(program) => program,
        Err(LinkError::At(_)) => return Ok(Verdict::Unlinked),
        Err(LinkError::Memory) => return Err(Unread::Memory),
    };
    match check(alloc, program) {
        Ok(checked) => Ok(accepted(checked)),
        Err((program, fault)) => {
            let found = refused(&program, fault);
            drop(program);
            found
        }
    }
}
