use crate::classes::{class_count, has_face};
use crate::members::{moved_member, moved_selected};
use crate::references::{call_at, op_count};
use jlib::open_classes;
use jlinking::jlink::LinkedProgram;
use jresolution::jprogram::{CallKind, ClassId, ClassRef, Member, MethodId};
use jtypes::Name;

const OBJECT: &[u8] = b"java/lang/Object";

const INIT: &[u8] = b"<init>";

const KINDS: [CallKind; 3] = [CallKind::Virtual, CallKind::Interface, CallKind::Special];

/// A class by number, as a place where methods are selected.
pub fn class_id(class: ClassRef) -> ClassId {
    match class {
        ClassRef::User(i) => ClassId::User(i),
        ClassRef::Lib(c) => ClassId::Lib(c),
    }
}

/// Whether an object of a class may be called by a reference that names another class, or an interface of these names.
fn may_be_called(p: &LinkedProgram, faces: &[Name], on: ClassId, owner: ClassRef) -> bool {
    match on {
        ClassId::User(i) => {
            p.named().extends_at(ClassRef::User(i), owner)
                || has_face(p, faces, i, p.name_of(owner))
        }
        ClassId::Lib(c) => p.named().extends_at(ClassRef::Lib(c), owner),
        ClassId::Array => p.name_of(owner) == OBJECT,
    }
}

/// Whether both programs select the same method where one is called on a class, in whichever way.
fn is_same_on(p: &LinkedProgram, q: &LinkedProgram, on: ClassId, member: Member) -> bool {
    let other = moved_member(member);
    for kind in KINDS {
        let selected = p.select(on, member, kind);
        if q.select(on, other, kind) != moved_selected(selected) {
            return false;
        }
    }
    true
}

/// The same where the class may be called by a reference that names another.
fn is_same_by(
    p: &LinkedProgram,
    q: &LinkedProgram,
    faces: &[Name],
    on: ClassId,
    owner: ClassRef,
    member: Member,
) -> bool {
    !may_be_called(p, faces, on, owner) || is_same_on(p, q, on, member)
}

/// The same on all classes of users.
fn is_same_on_users(
    p: &LinkedProgram,
    q: &LinkedProgram,
    faces: &[Name],
    owner: ClassRef,
    member: Member,
) -> bool {
    for i in 0..class_count(p) {
        if !is_same_by(p, q, faces, ClassId::User(i), owner, member) {
            return false;
        }
    }
    true
}

/// The same on the classes of the library that users may extend.
fn is_same_on_library(
    p: &LinkedProgram,
    q: &LinkedProgram,
    faces: &[Name],
    owner: ClassRef,
    member: Member,
) -> bool {
    for class in open_classes() {
        if !is_same_by(p, q, faces, ClassId::Lib(*class), owner, member) {
            return false;
        }
    }
    true
}

/// Whether a method is one that is selected where it is called: an instance method, and no constructor (JVMS 5.4.6).
fn is_selected(p: &LinkedProgram, member: Member) -> bool {
    !p.named().is_static(member) && p.named().name_of_member(member) != INIT
}

/// Whether both programs select the same where a method is called by a class, on each class that has that one above it. One that isn't
/// selected is passed over.
fn is_same_named(
    p: &LinkedProgram,
    q: &LinkedProgram,
    faces: &[Name],
    owner: ClassRef,
    member: Member,
) -> bool {
    !is_selected(p, member)
        || (is_same_on(p, q, class_id(owner), member)
            && is_same_on_users(p, q, faces, owner, member)
            && is_same_on_library(p, q, faces, owner, member)
            && is_same_by(p, q, faces, ClassId::Array, owner, member))
}

/// The same of what the instructions of a method call.
fn calls_same(p: &LinkedProgram, q: &LinkedProgram, faces: &[Name], m: MethodId) -> bool {
    for place in 0..op_count(p, m).unwrap_or(0) {
        if let Some(call) = call_at(p, m, place) {
            if !is_same_named(p, q, faces, call.owner, call.member) {
                return false;
            }
        }
    }
    true
}

/// Whether both programs select the same where a method is called, and where what its instructions call is.
pub fn selects_same(p: &LinkedProgram, q: &LinkedProgram, faces: &[Name], m: MethodId) -> bool {
    is_same_named(p, q, faces, ClassRef::User(m.class), Member::Method(m))
        && calls_same(p, q, faces, m)
}
