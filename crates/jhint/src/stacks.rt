use crate::said::Said;
use jparts::jcode::{Access, LocalForm, Op, OpForm, form_of};
use jresolution::jprogram::NamedProgram;
use jresolution::juses::{ElementRef, TypeRef};
use jtyping::jrule::FrameRef;

/// The most operands that are told, the newest ones.
const MOST_OPERANDS: usize = 8;

/// What a type of a frame that names no class is.
fn word_of(kind: TypeRef) -> &'static str {
    match kind {
        TypeRef::Int => "an int",
        TypeRef::Long => "a long",
        TypeRef::Null => "null",
        TypeRef::UninitThis => "`this`, not initialised",
        TypeRef::Uninit(_) => "a new object, not initialised",
        TypeRef::Ctx => "a context",
        _ => "nothing that can be read",
    }
}

/// What an array's item that is no object is.
fn item_of(element: ElementRef) -> &'static str {
    match element {
        ElementRef::Boolean => "boolean",
        ElementRef::Char => "char",
        ElementRef::Byte => "byte",
        ElementRef::Short => "short",
        ElementRef::Long => "long",
        _ => "int",
    }
}

/// Says a type of a frame.
fn say_type(program: &NamedProgram, kind: TypeRef, said: &mut Said) {
    let (element, depth) = match kind {
        TypeRef::Object(class) => (ElementRef::Class(class), 0),
        TypeRef::Array(array) => (array.element, array.depth),
        _ => return said.told(word_of(kind)),
    };
    match element {
        ElementRef::Class(class) => said.name(program.name_of(class)),
        _ => said.told(item_of(element)),
    }
    for _ in 0..depth {
        said.words(b"[]");
    }
}

/// Says the operands, the newest one last.
fn say_operands(program: &NamedProgram, kinds: &[TypeRef], said: &mut Said) {
    if kinds.is_empty() {
        said.words(b"; the stack is empty");
        return;
    }
    let left = kinds.len().saturating_sub(MOST_OPERANDS);
    let mut mark = "; on the stack: ";
    if left != 0 {
        mark = "; on the stack: .., ";
    }
    for kind in kinds.get(left..).unwrap_or(kinds) {
        said.told(mark);
        say_type(program, *kind, said);
        mark = ", ";
    }
}

/// Says what an instruction finds in the frame before it: the local that it reads, and else the operands, the newest one last.
pub fn say_found(program: &NamedProgram, op: &Op, frame: &FrameRef, said: &mut Said) {
    let n = match form_of(op) {
        OpForm::Local(LocalForm::Move(Access::Load, _, n) | LocalForm::Increment(n, _)) => n,
        _ => return say_operands(program, frame.stack.as_slice(), said),
    };
    said.number(b"; local ", n as u64, b" is ");
    let kind = frame.locals.get(n as usize).unwrap_or(TypeRef::Top);
    say_type(program, kind, said);
}
