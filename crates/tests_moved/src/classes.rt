use crate::difference::Difference;
use jground::jbase::Seq;
use jlinking::jlink::LinkedProgram;
use jresolution::jprogram::ClassRef;
use jtypes::Name;
use std::alloc::{AllocError, Global};

/// The interfaces of the library that a class of a user may list.
const FACES: [&[u8]; 2] = [b"java/lang/Runnable", b"java/security/PrivilegedAction"];

/// How many classes a program has.
pub fn class_count(p: &LinkedProgram) -> u32 {
    u32::try_from(p.parts().len()).unwrap_or(0)
}

// ---- classes

/// Whether the class of a number has the same name in both programs, that name its number, and it the same class above it and the same
/// `main`.
fn is_same(p: &LinkedProgram, q: &LinkedProgram, i: u32) -> bool {
    let class = ClassRef::User(i);
    let name = p.name_of(class);
    q.name_of(class) == name
        && q.class_of(name) == p.class_of(name)
        && q.named().super_of(class) == p.named().super_of(class)
        && q.main_of(name) == p.main_of(name)
}

/// What differs first of classes.
pub fn classes_difference(p: &LinkedProgram, q: &LinkedProgram) -> Option<Difference> {
    if q.parts().len() != p.parts().len() {
        return Some(Difference::Count);
    }
    for i in 0..class_count(p) {
        if !is_same(p, q, i) {
            return Some(Difference::Class(i));
        }
    }
    None
}

// ---- interfaces

fn push_name(alloc: Global, name: &[u8], names: &mut Vec<Name>) -> Result<(), AllocError> {
    let name = Name(Seq::from_slice(alloc, name)?);
    Ok(names.push(name)?)
}

/// The names that interfaces may have: those of a program's classes, and of the library's that a class of a user may list.
pub fn faces_of(alloc: Global, p: &LinkedProgram) -> Result<Vec<Name>, AllocError> {
    let mut faces = Vec::new(alloc);
    for i in 0..class_count(p) {
        push_name(alloc, p.name_of(ClassRef::User(i)), &mut faces)?;
    }
    for name in FACES {
        push_name(alloc, name, &mut faces)?;
    }
    Ok(faces)
}

/// Whether the same classes have an interface in both programs.
fn is_face_same(p: &LinkedProgram, q: &LinkedProgram, face: &Name) -> bool {
    for i in 0..class_count(p) {
        if q.implements(i, face) != p.implements(i, face) {
            return false;
        }
    }
    true
}

/// What differs first of which classes have an interface of these names.
pub fn faces_difference(
    p: &LinkedProgram,
    q: &LinkedProgram,
    faces: &[Name],
) -> Option<Difference> {
    for (i, face) in faces.iter().enumerate() {
        if !is_face_same(p, q, face) {
            return Some(Difference::Interface(i));
        }
    }
    None
}

/// Whether a class has the interface of a name, where that is one of these.
pub fn has_face(p: &LinkedProgram, faces: &[Name], class: u32, name: &[u8]) -> bool {
    for face in faces {
        if face.0.as_slice() == name && p.implements(class, face) {
            return true;
        }
    }
    false
}
