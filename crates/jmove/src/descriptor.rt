ghost use Rattle.std.specs.Prelude.{◌≡◌, ◌≤◌, ◌<◌, ◌++◌, ◌^◌, IfOk, IsTrue, drop, length, option_map, take};
ghost use Rattle.std.specs.List.{flat_map};
ghost use Rattle.jparts.specs.jpool.Descriptors.{is_type, type_text};
ghost use Rattle.jmove.specs.PoolAdditions;

use jparts::jpool::{DescError, Descriptor, FieldType, read_descriptor};
use std::alloc::{AllocError, Global};

/// The number of bytes of a type in a descriptor.
fn type_length(one: &FieldType) -> usize
    requires { length (type_text one.now) < 2 ^ 64 }
    ensures { result ≡ length (type_text one.now) }
{
    let base = one.depth as usize + 1;
    if one.base == b'L' {
        return base + one.class.as_slice().len() + 1;
    }
    base
}

/// The number of bytes of types, one behind the other.
fn types_length(types: &[FieldType]) -> usize
    requires { length (flat_map type_text types.now) < 2 ^ 64 }
    ensures { result ≡ length (flat_map type_text types.now) }
{
    let mut count = 0;
    for one in types {
        count += type_length(one);
    }
    count
}

/// A text with another one in it.
fn inserted(alloc: Global, text: &[u8], at: usize, more: &[u8]) -> Result<Vec<u8>, AllocError>
    requires { at ≤ length text.now }
    ensures { IfOk result (λ v. v.items ≡ take at text.now ++ (more.now ++ drop at text.now)) }
{
    let (front, back) = text.split_at(at);
    let mut out = Vec::from_slice(alloc, front)?;
    out.extend_from_slice(more)?;
    out.extend_from_slice(back)?;
    Ok(out)
}

/// A method's descriptor with the context as one more parameter, the last. None exactly where the text is no method's descriptor.
#[tactic(auto, unfolding(crate::specs::PoolAdditions::moved_descriptor))]
pub fn moved_descriptor(alloc: Global, text: &[u8]) -> Result<Option<Vec<u8>>, AllocError>
    ensures { IfOk result (λ moved. option_map (λ v. v.items) moved ≡ PoolAdditions.moved_descriptor text.now) }
{
    // What the proof needs: a slice has no more items than a usize counts.
    let _size = text.len();
    match read_descriptor(alloc, text) {
        Ok(Descriptor::Method { params, ret: _ }) => {
            let at = 1 + types_length(params.as_slice());
            let moved = inserted(alloc, text, at, b"Lsps/Ctx;")?;
            Ok(Some(moved))
        }
        Ok(Descriptor::Field(_)) => Ok(None),
        Err(DescError::Bad) => Ok(None),
        Err(DescError::Memory) => Err(AllocError),
    }
}
