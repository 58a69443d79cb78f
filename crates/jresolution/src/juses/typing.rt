ghost use Rattle.std.specs.Prelude.{◌≡◌, IfOk, option_map};
ghost use Rattle.jresolution.specs.jprogram.ProgramClasses.{Program};
ghost use Rattle.jresolution.specs.juses.DescriptorTypes;
ghost use Rattle.jresolution.specs.juses.InternedTypes.{class_named, element_named, named};

use crate::jprogram::{ClassRef, NamedProgram};
use crate::juses::types::{ArrayRef, ElementRef, TypeRef};
use jparts::jpool::{DescError, Descriptor, FieldType, read_descriptor};
use std::alloc::{AllocError, Global};

/// The class of security contexts, which have a type of their own.
const CONTEXT: &[u8] = b"sps/Ctx";

/// The number of the class of a name, where the program has one.
#[tactic(auto, using(crate::proofs::JusesProofs::NameLookup::there_is))]
pub fn class_there(p: &NamedProgram, name: &[u8]) -> Option<ClassRef>
    ensures { option_map (class_named p.now) result ≡ DescriptorTypes.there p.now name.now }
{
    p.class_of(name)
}

// ---- types

/// The type of the objects of a class.
fn class_of(p: &NamedProgram, class: ClassRef) -> TypeRef
    ensures { named p.now result ≡ DescriptorTypes.class_of (class_named p.now class) }
{
    if p.name_of(class) == CONTEXT {
        return TypeRef::Ctx;
    }
    TypeRef::Object(class)
}

/// The type of an array of so many dimensions, or of an element alone.
fn type_of(p: &NamedProgram, depth: u32, element: ElementRef) -> TypeRef
    ensures { named p.now result ≡ DescriptorTypes.type_of depth (element_named p.now element) }
{
    if depth > 0 {
        return TypeRef::Array(ArrayRef { depth, element });
    }
    match element {
        ElementRef::Long => TypeRef::Long,
        ElementRef::Class(class) => class_of(p, class),
        _ => TypeRef::Int,
    }
}

/// What the letter of a descriptor stands for.
fn element_in(p: &NamedProgram, t: &FieldType) -> Option<ElementRef>
    ensures { option_map (element_named p.now) result ≡ DescriptorTypes.element_in p.now t.now }
{
    match t.base {
        b'Z' => Some(ElementRef::Boolean),
        b'C' => Some(ElementRef::Char),
        b'B' => Some(ElementRef::Byte),
        b'S' => Some(ElementRef::Short),
        b'I' => Some(ElementRef::Int),
        b'J' => Some(ElementRef::Long),
        b'L' => {
            let class = class_there(p, t.class.as_slice())?;
            Some(ElementRef::Class(class))
        }
        _ => None,
    }
}

/// The type that a field descriptor names in a program (JVMS 4.3.2). None of a float or a double, and where the class that it names isn't
/// there.
#[tactic(auto, unfolding(crate::specs::juses::DescriptorTypes::type_in))]
pub fn type_in(p: &NamedProgram, t: &FieldType) -> Option<TypeRef>
    ensures { option_map (named p.now) result ≡ DescriptorTypes.type_in p.now t.now }
{
    let element = element_in(p, t)?;
    Some(type_of(p, t.depth, element))
}

/// The type of the class of a name.
fn class_typed(p: &NamedProgram, text: &[u8]) -> Option<TypeRef>
    ensures { option_map (named p.now) result ≡ option_map DescriptorTypes.class_of (DescriptorTypes.there p.now text.now) }
{
    let class = class_there(p, text)?;
    Some(class_of(p, class))
}

/// The type that the text of a class entry names (JVMS 4.4.1): that of an array by its descriptor, or that of a class by its name. None
/// of an array of floats or doubles, and where the class isn't there.
#[tactic(auto, unfolding(crate::specs::juses::DescriptorTypes::class_type))]
pub fn class_type(
    alloc: Global,
    p: &NamedProgram,
    text: &[u8],
) -> Result<Option<TypeRef>, AllocError>
    ensures { IfOk result (λ t. option_map (named p.now) t ≡ DescriptorTypes.class_type p.now text.now) }
{
    match read_descriptor(alloc, text) {
        Ok(Descriptor::Field(t)) => {
            if t.depth > 0 {
                return Ok(type_in(p, &t));
            }
            Ok(class_typed(p, text))
        }
        Ok(Descriptor::Method { .. }) => Ok(class_typed(p, text)),
        Err(DescError::Bad) => Ok(class_typed(p, text)),
        Err(DescError::Memory) => Err(AllocError),
    }
}

/// The type of an array of objects of a class, or of arrays of a type. None of any other type, and of an array of 2 ^ 32 - 1 dimensions.
#[tactic(auto, unfolding(crate::specs::juses::DescriptorTypes::array_over))]
pub(crate) fn array_over(t: TypeRef) -> Option<TypeRef>
    ensures { (p : Program) → option_map (named p) result ≡ DescriptorTypes.array_over (named p t) }
{
    match t {
        TypeRef::Object(class) => Some(TypeRef::Array(ArrayRef {
            depth: 1,
            element: ElementRef::Class(class),
        })),
        TypeRef::Array(array) => {
            let depth = array.depth.checked_add(1)?;
            Some(TypeRef::Array(ArrayRef {
                depth,
                element: array.element,
            }))
        }
        _ => None,
    }
}
