ghost use Rattle.std.specs.Prelude.{◌≡◌, IfOk, Some, slice_get};
ghost use Rattle.std.specs.List.{list_any};
ghost use Rattle.jresolution.specs.jprogram.ClassFileParts;
ghost use Rattle.jresolution.specs.jprogram.SuperChecks;
ghost use Rattle.jlinking.specs.jmembers.MemberDeclarations;
ghost use Rattle.jlinking.specs.ProofNames;
ghost use Rattle.jlinking.specs.jmembers.PoolTexts;
ghost use Rattle.jlinking.specs.jmembers.PoolTexts.{desc_marks, marks_in, marks_of};

use crate::jmembers::numbers::entry_text;
use jparts::jpool::{DescError, Descriptor, Entry, FieldType, read_descriptor};
use jresolution::jprogram::{NamedProgram, is_context, is_floating};
use std::alloc::{AllocError, Global};

// ---- what is left out

fn param_left_out(one: &FieldType) -> bool
    ensures { result ≡ MemberDeclarations.param_left_out one.now }
{
    if is_floating(one) {
        return true;
    }
    is_context(one) && 0 < one.depth
}

fn params_left_out(params: &[FieldType]) -> bool
    ensures { result ≡ list_any MemberDeclarations.param_left_out params.now }
{
    params.iter().any(|one| param_left_out(one))
}

fn type_left_out(one: &FieldType) -> bool
    ensures { result ≡ MemberDeclarations.type_left_out one.now }
{
    is_floating(one) || is_context(one)
}

fn return_left_out(ret: &Option<FieldType>) -> bool
    ensures { result ≡ ProofNames.return_left_out ret.now }
{
    match ret {
        Some(one) => type_left_out(one),
        None => false,
    }
}

/// Whether a descriptor has a floating-point type, or a context elsewhere than as a parameter.
fn desc_left_out(desc: &Descriptor) -> bool
    ensures { result ≡ MemberDeclarations.desc_left_out (Some desc.now) }
{
    match desc {
        Descriptor::Field(one) => type_left_out(one),
        Descriptor::Method { params, ret } => {
            params_left_out(params.as_slice()) || return_left_out(ret)
        }
    }
}

// ---- what is missing

fn type_missing(program: &NamedProgram, one: &FieldType) -> bool
    ensures { result ≡ MemberDeclarations.type_missing program.now one.now }
{
    if one.base != b'L' {
        return false;
    }
    program.class_of(one.class.as_slice()).is_none()
}

fn params_missing(program: &NamedProgram, params: &[FieldType]) -> bool
    ensures { result ≡ list_any (MemberDeclarations.type_missing program.now) params.now }
{
    params.iter().any(|one| type_missing(program, one))
}

fn return_missing(program: &NamedProgram, ret: &Option<FieldType>) -> bool
    ensures { result ≡ ProofNames.return_missing program.now ret.now }
{
    match ret {
        Some(one) => type_missing(program, one),
        None => false,
    }
}

/// Whether a descriptor names a class that isn't there.
fn desc_missing(program: &NamedProgram, desc: &Descriptor) -> bool
    ensures { result ≡ MemberDeclarations.desc_missing program.now (Some desc.now) }
{
    match desc {
        Descriptor::Field(one) => type_missing(program, one),
        Descriptor::Method { params, ret } => {
            params_missing(program, params.as_slice()) || return_missing(program, ret)
        }
    }
}

// ---- both at once

/// Whether a text as a descriptor has a type that is left out, and whether it names a class that isn't there.
#[derive(Clone, Copy, Debug)]
pub struct DescMarks {
    pub left_out: bool,
    pub missing: bool,
}

#[tactic(auto, unfolding(crate::specs::jmembers::MemberDeclarations::text_left_out, crate::specs::jmembers::MemberDeclarations::text_missing))]
fn marks_of(alloc: Global, program: &NamedProgram, text: &[u8]) -> Result<DescMarks, AllocError>
    ensures { IfOk result (λ m. m ≡ marks_of program.now text.now) }
{
    match read_descriptor(alloc, text) {
        Ok(desc) => Ok(DescMarks {
            left_out: desc_left_out(&desc),
            missing: desc_missing(program, &desc),
        }),
        Err(DescError::Bad) => Ok(DescMarks {
            left_out: false,
            missing: false,
        }),
        Err(DescError::Memory) => Err(AllocError),
    }
}

/// The marks of a pool's texts: each is read once, however many members name it.
pub fn desc_marks(
    alloc: Global,
    program: &NamedProgram,
    entries: &[Entry],
) -> Result<Vec<DescMarks>, AllocError>
    ensures { IfOk result (λ marks. marks.items ≡ desc_marks program.now entries.now) }
{
    let mut marks = Vec::new(alloc);
    for one in entries {
        let found = marks_of(alloc, program, entry_text(one))?;
        marks.push(found)?;
    }
    Ok(marks)
}

fn mark_at(marks: &[DescMarks], i: u16) -> Option<DescMarks>
    ensures { result ≡ slice_get marks.now i }
{
    marks.get(usize::from(i)).copied()
}

/// The marks of the text at an index.
pub fn marks_at(program: &NamedProgram, entries: &[Entry], marks: &[DescMarks], i: u16) -> DescMarks
    requires { marks.now ≡ desc_marks program.now entries.now }
    ensures { result ≡ marks_of program.now (ClassFileParts.text entries.now i) }
{
    match mark_at(marks, i) {
        Some(found) => found,
        None => DescMarks {
            left_out: false,
            missing: false,
        },
    }
}
