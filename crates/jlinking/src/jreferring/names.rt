ghost use Rattle.std.specs.Prelude.{◌≡◌, IfOk};
ghost use Rattle.jground.specs.jbase.FirstFaults.{first_some};
ghost use Rattle.jparts.specs.jpool.Descriptors.{descriptor_of};
ghost use Rattle.jresolution.specs.jprogram.SuperChecks;
ghost use Rattle.jlinking.specs.jreferring.ClassNameAccess;

use jground::jbase::Seq;
use jparts::jpool::{DescError, Descriptor, FieldType, read_descriptor};
use jresolution::jprogram::{LinkKind, NamedProgram};
use std::alloc::{AllocError, Global};

/// What a text says as a descriptor, None where it is none.
pub fn descriptor_in(alloc: Global, text: &[u8]) -> Result<Option<Descriptor>, AllocError>
    ensures { IfOk result (λ d. d ≡ descriptor_of text.now) }
{
    match read_descriptor(alloc, text) {
        Ok(desc) => Ok(Some(desc)),
        Err(DescError::Bad) => Ok(None),
        Err(DescError::Memory) => Err(AllocError),
    }
}

pub fn is_array(one: &FieldType) -> bool
    ensures { result ≡ ClassNameAccess.is_array one.now }
{
    0 < one.depth
}

fn class_type(alloc: Global, name: &[u8]) -> Result<FieldType, AllocError>
    ensures { IfOk result (λ t. t ≡ ClassNameAccess.class_type name.now) }
{
    let class = Seq::from_slice(alloc, name)?;
    Ok(FieldType {
        depth: 0,
        base: b'L',
        class,
    })
}

fn array_or(alloc: Global, name: &[u8], desc: Option<Descriptor>) -> Result<FieldType, AllocError>
    ensures { IfOk result (λ t. t ≡ ClassNameAccess.array_or name.now desc) }
{
    match desc {
        Some(Descriptor::Field(one)) => {
            if is_array(&one) {
                return Ok(one);
            }
            class_type(alloc, name)
        }
        _ => class_type(alloc, name),
    }
}

/// The type that a Class entry of this text stands for (JVMS 4.4.1).
#[tactic(auto, unfolding(crate::specs::jreferring::ClassNameAccess::type_named))]
pub fn type_named(alloc: Global, text: &[u8]) -> Result<FieldType, AllocError>
    ensures { IfOk result (λ t. t ≡ ClassNameAccess.type_named text.now) }
{
    let desc = descriptor_in(alloc, text)?;
    array_or(alloc, text, desc)
}

fn is_missing(program: &NamedProgram, name: &[u8]) -> bool
    ensures { result ≡ SuperChecks.is_missing program.now name.now }
{
    program.class_of(name).is_none()
}

/// NoClass where no class has this name, and NotAccessible where the class `from` may not name it.
#[tactic(auto, unfolding(crate::specs::jreferring::ClassNameAccess::class_test))]
fn class_test(program: &NamedProgram, from: &[u8], name: &[u8]) -> Option<LinkKind>
    ensures { result ≡ ClassNameAccess.class_test program.now from.now name.now }
{
    if is_missing(program, name) {
        return Some(LinkKind::NoClass);
    }
    if !program.may_name(from, name) {
        return Some(LinkKind::NotAccessible);
    }
    None
}

/// The test of the class that a type names, an array's by its element.
#[tactic(auto, unfolding(crate::specs::jreferring::ClassNameAccess::type_test))]
pub fn type_test(program: &NamedProgram, from: &[u8], one: &FieldType) -> Option<LinkKind>
    ensures { result ≡ ClassNameAccess.type_test program.now from.now one.now }
{
    if one.base != b'L' {
        return None;
    }
    class_test(program, from, one.class.as_slice())
}

#[tactic(auto, unfolding(jground::specs::jbase::FirstFaults::first_some))]
fn types_test(program: &NamedProgram, from: &[u8], types: &[FieldType]) -> Option<LinkKind>
    ensures { result ≡ first_some (ClassNameAccess.type_test program.now from.now) types.now }
{
    for one in types {
        if let Some(kind) = type_test(program, from, one) {
            return Some(kind);
        }
    }
    None
}

/// The first fault of the classes of a method's parameters, from left to right.
pub fn params_test(
    program: &NamedProgram,
    from: &[u8],
    desc: &Option<Descriptor>,
) -> Option<LinkKind>
    ensures { result ≡ ClassNameAccess.params_test program.now from.now desc.now }
{
    match desc {
        Some(Descriptor::Method { params, .. }) => types_test(program, from, params.as_slice()),
        _ => None,
    }
}

fn return_test(program: &NamedProgram, from: &[u8], ret: &Option<FieldType>) -> Option<LinkKind>
    ensures { result ≡ ClassNameAccess.return_test program.now from.now ret.now }
{
    match ret {
        Some(one) => type_test(program, from, one),
        None => None,
    }
}

/// The first fault of the classes that a descriptor names, from left to right.
pub fn desc_test(program: &NamedProgram, from: &[u8], desc: &Option<Descriptor>) -> Option<LinkKind>
    ensures { result ≡ ClassNameAccess.desc_test program.now from.now desc.now }
{
    match desc {
        Some(Descriptor::Field(one)) => type_test(program, from, one),
        Some(Descriptor::Method { params, ret }) => {
            if let Some(kind) = types_test(program, from, params.as_slice()) {
                return Some(kind);
            }
            return_test(program, from, ret)
        }
        None => None,
    }
}
