use crate::references::{index_of, named_at};
use crate::said::piece_of;
use crate::scene::Scene;
use bitflags::Flags;
use jclass::{Access, ClassParts, MemberInfo};
use jparts::jcode::Op;
use jparts::jpool::{Entry, Pool};
use jresolution::jprogram::{class_text, has_code, member_desc, member_name};

/// What is left out of the machine.
#[derive(Clone, Copy)]
enum LeftOut {
    Floats,
    Native,
    Synchronized,
    InterfaceCode,
    Initialiser,
    Assert,
    ClassConstant,
    ArrayMember,
    InterfaceCall,
    /// None of these.
    Other,
}

/// What is left out, and what to write in its place, a line for each `LeftOut`.
const ADVICE: &str = "float and double are left out: whole numbers of a smaller unit\n\
native methods are left out\n\
synchronized is left out: turns change at start, yield and join alone\n\
methods with code are left out of interfaces: an abstract class\n\
a static initialiser is left out: set the fields at the beginning of main\n\
a static initialiser is left out: `assert` makes one; leave it out\n\
`X.class` is left out\n\
members of arrays, as `array.clone()`, are left out: a loop\n\
static methods of interfaces, and those with code, are left out: a class\n\
it uses what is left out, as float, double, `sps/Ctx` or a member of an array";

/// Whether a descriptor has a float or a double, in an array too.
fn has_floats(desc: &[u8]) -> bool {
    let mut in_name = false;
    for byte in desc {
        match *byte {
            b';' => in_name = false,
            _ if in_name => {}
            b'F' | b'D' => return true,
            other => in_name = other == b'L',
        }
    }
    false
}

/// What makes a class's static initialiser: an `assert` has a field, where a compiler made it.
fn initialiser(class: &ClassParts) -> LeftOut {
    for field in class.fields.as_slice() {
        if member_name(class, field) == b"$assertionsDisabled".as_slice() {
            return LeftOut::Assert;
        }
    }
    LeftOut::Initialiser
}

/// What of a member's own is left out, of a method by its flags.
fn declared(class: &ClassParts, member: &MemberInfo) -> LeftOut {
    let desc = member_desc(class, member);
    if member_name(class, member) == b"<clinit>".as_slice() {
        initialiser(class)
    } else if has_floats(desc) {
        LeftOut::Floats
    } else if !desc.starts_with(b"(") {
        LeftOut::Other
    } else if member.flags.contains(Access::NATIVE) {
        LeftOut::Native
    } else if member.flags.contains(Access::SYNCHRONIZED) {
        LeftOut::Synchronized
    } else if class.flags.contains(Access::INTERFACE) && has_code(member) {
        LeftOut::InterfaceCode
    } else {
        LeftOut::Other
    }
}

/// What of an instruction is left out.
fn written(pool: &Pool, op: &Op) -> LeftOut {
    let i = index_of(op);
    let one = named_at(pool, i);
    let name = class_text(pool, one.class);
    match pool.entry(i) {
        Some(Entry::Class(_)) if matches!(op, Op::Ldc(_)) => LeftOut::ClassConstant,
        Some(Entry::Float(_) | Entry::Double(_)) => LeftOut::Floats,
        Some(Entry::InterfaceMethod(_, _)) if matches!(op, Op::Call(_, _)) => {
            LeftOut::InterfaceCall
        }
        _ if !name.starts_with(b"[") => LeftOut::Other,
        _ if one.name != 0 => LeftOut::ArrayMember,
        _ if has_floats(name) => LeftOut::Floats,
        _ => LeftOut::Other,
    }
}

/// What is left out of a member, in words.
pub fn left_out(scene: Scene<'_>, info: &MemberInfo) -> &'static str {
    let mut found = declared(scene.class, info);
    for placed in scene.code.ops {
        if let LeftOut::Other = found {
            found = written(&scene.class.pool, &placed.op);
        }
    }
    piece_of(ADVICE, '\n', found as usize, "")
}
