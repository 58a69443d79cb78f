ghost use Rattle.std.specs.Prelude.{◌≡◌, ◌≤◌, ◌<◌, ◌+◌, IfOk, length, slice_get, if◌then◌else◌};
ghost use Rattle.jresolution.specs.jprogram.InterfaceNumbers;
ghost use Rattle.jresolution.specs.jprogram.InterfaceNumbers.{AreFaces};
ghost use Rattle.jresolution.specs.jprogram.NameSlots.{held};

use crate::jprogram::part::CodePart;
use bitflags::Flags;
use jclass::Access;
use jground::jbase::Seq;
use std::alloc::{AllocError, Global};

fn is_face(part: &CodePart) -> bool
    ensures { result ≡ InterfaceNumbers.is_face part.now }
{
    part.class.parts().flags.contains(Access::INTERFACE)
}

fn number_if(face: bool, next: u32) -> Option<u32>
    ensures { result ≡ InterfaceNumbers.number_if face next }
{
    if face { Some(next) } else { None }
}

/// The number behind an interface.
fn past(face: bool, next: u32) -> u32
    requires { next < 0xffff }
    ensures { result ≡ next + (if face then 1 else 0) }
{
    if face { next + 1 } else { next }
}

/// The numbers of the interfaces among parts, in their order.
pub fn faces_of(alloc: Global, parts: &[CodePart]) -> Result<Seq<Option<u32>>, AllocError>
    requires { length parts.now ≤ 0xffff }
    ensures { IfOk result (λ numbers. AreFaces parts.now numbers) }
{
    let mut numbers = Seq::new(alloc);
    let mut next = 0u32;
    for part in parts {
        let face = is_face(part);
        numbers.push(number_if(face, next))?;
        next = past(face, next);
    }
    Ok(numbers)
}

/// The number that a list has at a place.
pub fn face_at(numbers: &Seq<Option<u32>>, i: usize) -> Option<u32>
    ensures { result ≡ held (slice_get numbers.now i) }
{
    match numbers.as_slice().get(i) {
        Some(number) => *number,
        None => None,
    }
}
