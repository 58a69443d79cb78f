use crate::opcodes::{mend_of, name_of};
use crate::outline::{Outline, Spot, number_at};
use crate::said::{Said, piece_of};
use jclass::ClassFault;

/// The opcode and the operand of a newarray of floats, and of doubles (JVMS 6.5).
const MAKES_FLOATS: [usize; 2] = [0xbc06, 0xbc07];

/// What each fault means, a line for each.
const MEANINGS: &str = "something isn't wholly there: the file was cut, or a length is wrong\n\
it doesn't begin as class files do\n\
its version isn't read\n\
no entry of the pool has this tag\n\
bytes stand behind the end\n\
a text that is no modified UTF-8\n\
an index of no entry of the pool, or of one of another kind\n\
a class whose name is none\n\
a text that should be a descriptor and is none\n\
a method that has code and shouldn't, or hasn't and should, or has none or more than 65,535 bytes of it\n\
an opcode that there isn't\n\
an instruction that is left out\n\
an operand that the instruction can't have\n\
a branch that leads to no instruction\n\
a frame's type that is reserved\n\
a frame's tag that no type has\n\
a float or a double in a frame, which are left out\n\
a second StackMapTable of one code";

/// What a fault means.
fn meaning_of(kind: ClassFault) -> &'static str {
    let line = match kind {
        ClassFault::Truncated => 0,
        ClassFault::Magic => 1,
        ClassFault::Version => 2,
        ClassFault::Tag => 3,
        ClassFault::Trailing => 4,
        ClassFault::Text => 5,
        ClassFault::Index => 6,
        ClassFault::Name => 7,
        ClassFault::Descriptor => 8,
        ClassFault::Code => 9,
        ClassFault::Opcode(_) => 10,
        ClassFault::LeftOut(_) => 11,
        ClassFault::Operand => 12,
        ClassFault::Target => 13,
        ClassFault::Reserved => 14,
        ClassFault::MapTag => 15,
        ClassFault::MapLeftOut => 16,
        ClassFault::Maps => 17,
    };
    piece_of(MEANINGS, '\n', line, "")
}

/// Says the part in which a byte stands.
fn say_part(outline: Outline<'_>, at: usize, said: &mut Said) {
    match outline.spot {
        Spot::Head => said.words(b", in its head"),
        Spot::Entry(index) => said.number(b", in pool entry ", index as u64, b""),
        Spot::Class => said.words(b", behind the pool"),
        Spot::Field => said.words(b", in field "),
        Spot::Method | Spot::Code => said.words(b", in method "),
        Spot::Behind => said.words(b", in what stands behind the methods"),
    }
    if let Spot::Field | Spot::Method | Spot::Code = outline.spot {
        said.name(outline.text(outline.name));
        said.name(outline.text(outline.desc));
    }
    if let Spot::Code = outline.spot {
        let place = at.saturating_sub(outline.from) as u64;
        said.number(b", its code at ", place, b"");
    }
}

/// Says which version a class file has, and which are read.
fn say_version(file: &[u8], said: &mut Said) {
    let version = number_at(file, 6, 2) as u64;
    said.number(b" has version ", version, b"");
    if 49 <= version {
        said.number(b", which is Java ", version - 44, b"");
    }
    said.words(b"; 50 to 52 are read, Java 6 to 8: `javac --release 8`");
}

/// Says of which instruction a fault is.
fn say_instruction(file: &[u8], at: usize, kind: ClassFault, said: &mut Said) {
    let opcode = match kind {
        ClassFault::Opcode(opcode) | ClassFault::LeftOut(opcode) => usize::from(opcode),
        ClassFault::Operand | ClassFault::Target => number_at(file, at, 1),
        _ => return,
    };
    said.words(b", ");
    said.told(name_of(opcode));
    if let ClassFault::LeftOut(_) = kind {
        said.words(b": ");
        said.told(mend_of(opcode));
    }
}

/// Says of a handler at a byte what is wrong with the places that it has (JVMS 4.7.3).
fn say_handler(file: &[u8], at: usize, said: &mut Said) {
    let start = number_at(file, at, 2) as u64;
    let end = number_at(file, at.saturating_add(2), 2) as u64;
    said.number(b"a handler for ", start, b"");
    said.number(b" up to ", end, b"");
    if end <= start {
        return said.words(b", which is empty");
    }
    let to = number_at(file, at.saturating_add(4), 2) as u64;
    said.number(
        b", which leads to ",
        to,
        b": not all of them are places of instructions",
    );
}

/// Says what a fault at a byte means.
fn say_meaning(file: &[u8], at: usize, kind: ClassFault, spot: Spot, said: &mut Said) {
    match (kind, spot) {
        (ClassFault::Target, Spot::Method) => return say_handler(file, at, said),
        (ClassFault::Operand, _) if MAKES_FLOATS.contains(&number_at(file, at, 2)) => {
            return said.words(
                b"arrays of float and double aren't read here, newarray: whole numbers of a smaller unit",
            );
        }
        _ => said.told(meaning_of(kind)),
    }
    say_instruction(file, at, kind, said);
}

/// Says of a class file what its fault at a byte means, and where that is.
pub fn say_class(path: &str, file: &[u8], at: u32, kind: ClassFault, said: &mut Said) {
    said.text(path);
    if let ClassFault::Version = kind {
        say_version(file, said);
        return;
    }
    let outline = Outline::of(file, at as usize);
    say_part(outline, at as usize, said);
    said.words(b": ");
    say_meaning(file, at as usize, kind, outline.spot, said);
}
