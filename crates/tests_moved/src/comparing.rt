use crate::classes::{class_count, classes_difference, faces_difference, faces_of};
use crate::difference::Difference;
use crate::references::{method_count, names_same};
use crate::selection::selects_same;
use jlinking::jlink::LinkedProgram;
use jresolution::jprogram::MethodId;
use jtypes::Name;
use std::alloc::{AllocError, Global};

/// What differs of a method: what its instructions name, or what is selected where it is called or what it calls is.
fn method_difference(
    alloc: Global,
    p: &LinkedProgram,
    q: &LinkedProgram,
    faces: &[Name],
    m: MethodId,
) -> Result<Option<Difference>, AllocError> {
    if !names_same(alloc, p, q, m)? {
        return Ok(Some(Difference::Names(m)));
    }
    if !selects_same(p, q, faces, m) {
        return Ok(Some(Difference::Selected(m)));
    }
    Ok(None)
}

/// What differs first of the methods of a class.
fn methods_difference(
    alloc: Global,
    p: &LinkedProgram,
    q: &LinkedProgram,
    faces: &[Name],
    class: u32,
) -> Result<Option<Difference>, AllocError> {
    for method in 0..method_count(p, class) {
        let m = MethodId { class, method };
        if let Some(found) = method_difference(alloc, p, q, faces, m)? {
            return Ok(Some(found));
        }
    }
    Ok(None)
}

/// What differs first of methods.
fn code_difference(
    alloc: Global,
    p: &LinkedProgram,
    q: &LinkedProgram,
    faces: &[Name],
) -> Result<Option<Difference>, AllocError> {
    for class in 0..class_count(p) {
        if let Some(found) = methods_difference(alloc, p, q, faces, class)? {
            return Ok(Some(found));
        }
    }
    Ok(None)
}

/// What differs first between a program and its moved program, where these are the names that interfaces may have.
fn difference_by(
    alloc: Global,
    p: &LinkedProgram,
    q: &LinkedProgram,
    faces: &[Name],
) -> Result<Option<Difference>, AllocError> {
    if let Some(found) = classes_difference(p, q) {
        return Ok(Some(found));
    }
    if let Some(found) = faces_difference(p, q, faces) {
        return Ok(Some(found));
    }
    code_difference(alloc, p, q, faces)
}

/// What differs first between a program and its moved program.
pub fn difference(
    alloc: Global,
    p: &LinkedProgram,
    q: &LinkedProgram,
) -> Result<Option<Difference>, AllocError> {
    let faces = faces_of(alloc, p)?;
    difference_by(alloc, p, q, faces.as_slice())
}
