use crate::classes::class_count;
use crate::members::{moved_member, moved_selected};
use crate::references::{call_at, method_count, op_count};
use crate::selection::class_id;
use jlinking::jlink::LinkedProgram;
use jresolution::jprogram::{CallKind, Member, MethodId, Selected};
use tests_rows::{Unread, first};

fn call_kind(word: &str) -> Result<CallKind, Unread> {
    match word {
        "virtual" => Ok(CallKind::Virtual),
        "interface" => Ok(CallKind::Interface),
        "special" => Ok(CallKind::Special),
        _ => Err(Unread::Line),
    }
}

/// Whether a member has this name.
fn is_named(p: &LinkedProgram, member: Member, name: &str) -> bool {
    p.named().name_of_member(member) == name.as_bytes()
}

/// The first method of this name that an instruction of a method calls by the class of a name.
fn called_in(p: &LinkedProgram, m: MethodId, owner: &str, name: &str) -> Option<Member> {
    for place in 0..op_count(p, m).unwrap_or(0) {
        if let Some(call) = call_at(p, m, place) {
            if p.name_of(call.owner) == owner.as_bytes() && is_named(p, call.member, name) {
                return Some(call.member);
            }
        }
    }
    None
}

/// The same of all methods of a class.
fn called_by(p: &LinkedProgram, class: u32, owner: &str, name: &str) -> Option<Member> {
    for method in 0..method_count(p, class) {
        let m = MethodId { class, method };
        if let Some(member) = called_in(p, m, owner, name) {
            return Some(member);
        }
    }
    None
}

/// The same of all classes.
fn called(p: &LinkedProgram, owner: &str, name: &str) -> Result<Member, Unread> {
    for class in 0..class_count(p) {
        if let Some(member) = called_by(p, class, owner, name) {
            return Ok(member);
        }
    }
    Err(Unread::Line)
}

/// What both programs select where the method of a name, which some instruction calls by a class, is called on a class. What the moved
/// program selects is the second, None where that is what stands there for the first.
pub fn selected(
    p: &LinkedProgram,
    q: &LinkedProgram,
    question: &str,
) -> Result<(Selected, Option<Selected>), Unread> {
    let (kind, rest) = first(question)?;
    let (owner, rest) = first(rest)?;
    let (name, on) = first(rest)?;
    let kind = call_kind(kind)?;
    let member = called(p, owner, name)?;
    let class = p.class_of(on.as_bytes()).ok_or(Unread::Line)?;
    let found = p.select(class_id(class), member, kind);
    let other = q.select(class_id(class), moved_member(member), kind);
    if other != moved_selected(found) {
        return Ok((found, Some(other)));
    }
    Ok((found, None))
}
