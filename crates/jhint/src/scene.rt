use crate::said::Said;
use jclass::{ClassParts, MemberInfo};
use jresolution::jprogram::{MethodId, NamedProgram, member_desc, member_name, this_name};
use jresolution::juses::{CodeRef, code_at};

/// Where a program breaks a rule: a class of it, and a member, where it is one that breaks it.
#[derive(Clone, Copy)]
pub struct Scene<'a> {
    pub program: &'a NamedProgram,
    pub class: &'a ClassParts,
    pub info: Option<&'a MemberInfo>,
    /// The number of the class among the parts, and that of the member among the methods, or past them.
    pub method: MethodId,
    /// The method's code, which is empty where it has none.
    pub code: CodeRef<'a>,
}

/// The member of a number: methods come first, and then fields.
fn member_at(class: &ClassParts, number: Option<u32>) -> Option<&MemberInfo> {
    let Some(number) = number else {
        return None;
    };
    let methods = class.methods.as_slice();
    let fields = class.fields.as_slice();
    let place = number as usize;
    let field = fields.get(place.saturating_sub(methods.len()));
    methods.get(place).or(field)
}

/// A method's descriptor before and from the mark on that ends its parameters.
pub fn halves_of(desc: &[u8]) -> (&[u8], &[u8]) {
    let mut end: usize = 0;
    for (at, byte) in desc.iter().enumerate() {
        if *byte == b')' {
            end = at;
        }
    }
    desc.split_at(end.min(desc.len()))
}

/// Says of which class a sentence is, of which member and of which of its bytes, where it is of one.
fn say_place(class: &ClassParts, info: Option<&MemberInfo>, at: Option<u32>, said: &mut Said) {
    said.words(b"class ");
    said.name(this_name(class));
    if let Some(info) = info {
        said.words(b", ");
        said.name(member_name(class, info));
        said.name(member_desc(class, info));
    }
    match at {
        Some(at) => said.number(b" at ", at as u64, b": "),
        None => said.words(b": "),
    }
    said.open = true;
}

/// Finds where a program breaks a rule, by the numbers of a class and a member, and says it.
pub fn scene_of<'a>(
    program: &'a NamedProgram,
    class: u32,
    member: Option<u32>,
    at: Option<u32>,
    said: &mut Said,
) -> Option<Scene<'a>> {
    let method = MethodId {
        class,
        method: member.unwrap_or(u32::MAX),
    };
    let Some(part) = program.parts().get(class as usize) else {
        return None;
    };
    let class = part.class.parts();
    let info = member_at(class, member);
    say_place(class, info, at, said);
    let code = code_at(program, method).unwrap_or(CodeRef {
        max_stack: 0,
        max_locals: 0,
        ops: &[],
        handlers: &[],
        attributes: &[],
    });
    Some(Scene {
        program,
        class,
        info,
        method,
        code,
    })
}
