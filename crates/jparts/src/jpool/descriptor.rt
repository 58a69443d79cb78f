ghost use Rattle.std.specs.Prelude.{◌≡◌, ℕ, Some, IfOk, IsTrue, Option, option_map, length};
ghost use Rattle.jparts.specs.declared.jpool.descriptor.DescError.TheVariants.{Memory};
ghost use Rattle.jparts.specs.declared.jpool.descriptor.Descriptor.{Descriptor};
ghost use Rattle.jparts.specs.jpool.Descriptors;
ghost use Rattle.jparts.specs.jpool.Descriptors.{Reads, descriptor_of, descriptor_text, field, is_well_formed, method, params_at};
ghost use Rattle.jparts.specs.jpool.FieldTypes.{piece};

use crate::jpool::scan::{ScannedType, closing_of, piece_of, return_of, slots_in, type_of};
use jground::jbase::Seq;
use std::alloc::{AllocError, AllocFailed, Global};

/// The type of a field, of a parameter or of what is returned (JVMS 4.3.2).
#[derive(Debug, Drop)]
pub struct FieldType {
    /// The number of dimensions, 0 for what is no array.
    pub depth: u32,
    /// The letter of what stands behind the brackets, `L` for a class.
    pub base: u8,
    /// The class's name, empty unless the letter is `L`.
    pub class: Seq<u8>,
}

/// What a descriptor says (JVMS 4.3).
#[rattlefmt::skip]
#[derive(Debug, Drop)]
pub enum Descriptor {
    Field(FieldType),
    /// The types of the parameters and of what is returned, if anything is.
    Method { params: Seq<FieldType>, ret: Option<FieldType> },
}

/// Why a text gave no descriptor.
#[derive(Clone, Copy, Debug, PartialEq, Eq)]
pub enum DescError {
    /// It is neither a field descriptor nor a method descriptor.
    Bad,
    /// No memory was left. It may come at any time.
    Memory,
}

impl From<AllocError> for DescError {
    ghost from_gives = { λ _ error. error ≡ Memory };

    fn from(_: AllocError) -> DescError {
        DescError::Memory
    }
}

impl<T: Drop> From<AllocFailed<T>> for DescError {
    ghost from_gives = { λ _ error. error ≡ Memory };

    fn from(_: AllocFailed<T>) -> DescError {
        DescError::Memory
    }
}

fn owned(alloc: Global, one: ScannedType<'_>) -> Result<FieldType, AllocError>
    ensures { IfOk result (λ t. t ≡ piece one.entry) }
{
    Ok(FieldType {
        depth: one.depth,
        base: one.base,
        class: Seq::from_slice(alloc, one.class)?,
    })
}

/// The types of a method's parameters, up to a closing parenthesis, and the rest behind it.
fn params_of(alloc: Global, text: &[u8]) -> Result<(Seq<FieldType>, &[u8]), DescError>
    ensures { Reads (λ x. (x.0, x.1.now)) result (params_at (length text.now) text.now) }
{
    let mut params = Seq::new(alloc);
    let mut rest = text;
    for _ in 0..text.len() {
        if let Some(behind) = closing_of(rest) {
            return Ok((params, behind));
        }
        let Some((one, behind)) = type_of(rest) else {
            return Err(DescError::Bad);
        };
        params.push(owned(alloc, one)?)?;
        rest = behind;
    }
    Err(DescError::Bad)
}

/// The slots that types take: two for a long or a double that is no array, one for any other.
pub fn slots_of(types: &[FieldType]) -> usize
    ensures { result ≡ Descriptors.slots_of types.now }
{
    // What the proof needs: a slice has no more items than a usize counts.
    let _size = types.len();
    let mut count = 0;
    for one in types {
        count += slots_in(one.depth, one.base);
    }
    count
}

fn owned_return(
    alloc: Global,
    ret: Option<ScannedType<'_>>,
) -> Result<Option<FieldType>, AllocError>
    ensures { IfOk result (λ t. t ≡ option_map piece ret.entry) }
{
    match ret {
        None => Ok(None),
        Some(one) => {
            let one = owned(alloc, one)?;
            Ok(Some(one))
        }
    }
}

#[tactic(auto, unfolding(crate::specs::jpool::Descriptors::method_of))]
fn read_method(alloc: Global, text: &[u8]) -> Result<Descriptor, DescError>
    ensures { Reads (λ d. d) result (option_map method (Descriptors.method_of text.now)) }
{
    let [b'(', rest @ ..] = text else {
        return Err(DescError::Bad);
    };
    let (params, rest) = params_of(alloc, rest)?;
    let Some((ret, rest)) = return_of(rest) else {
        return Err(DescError::Bad);
    };
    if !rest.is_empty() {
        return Err(DescError::Bad);
    }
    if slots_of(params.as_slice()) > 255 {
        return Err(DescError::Bad);
    }
    let ret = owned_return(alloc, ret)?;
    Ok(Descriptor::Method { params, ret })
}

fn read_field(alloc: Global, text: &[u8]) -> Result<Descriptor, DescError>
    ensures { Reads (λ d. d) result (option_map field (Descriptors.field_of text.now)) }
{
    let Some(one) = piece_of(text) else {
        return Err(DescError::Bad);
    };
    let one = owned(alloc, one)?;
    Ok(Descriptor::Field(one))
}

#[tactic(auto, unfolding(crate::specs::jpool::Descriptors::descriptor_of))]
fn read_either(alloc: Global, text: &[u8]) -> Result<Descriptor, DescError>
    ensures { Reads (λ d. d) result (descriptor_of text.now) }
{
    match text {
        [] => Err(DescError::Bad),
        [b'(', ..] => read_method(alloc, text),
        [_, ..] => read_field(alloc, text),
    }
}

/// The descriptor that all of a text is. `Bad` comes exactly where the text is neither a field descriptor nor a method
/// descriptor: a bad class name, more than 255 slots of parameters, 2 ^ 32 dimensions, or anything else that the grammar
/// hasn't.
pub fn read_descriptor(alloc: Global, text: &[u8]) -> Result<Descriptor, DescError>
    // What is read is written so.
    ensures found { IfOk result (λ d. IsTrue (is_well_formed d) × (text.now ≡ descriptor_text d)) }
    // What is written so is read, unless memory runs out.
    ensures only { (d : Descriptor) → IsTrue (is_well_formed d) → text.now ≡ descriptor_text d → Reads (λ x. x) result (Some d) }
    // A text that isn't read is no descriptor.
    ensures exact { Reads (λ d. d) result (descriptor_of text.now) }
{
    read_either(alloc, text)
}
