ghost use Rattle.std.specs.Prelude.{◌≡◌, IfOk, option_map};
ghost use Rattle.jresolution.specs.juses.DescriptorTypes.{typed};
ghost use Rattle.jresolution.specs.juses.InternedTypes.{named};
ghost use Rattle.jresolution.specs.jlayout.FieldKinds.{or_top};
ghost use Rattle.jresolution.specs.ProofNames;

use crate::jprogram::NamedProgram;
use crate::juses::{TypeRef, type_in};
use jparts::jpool::{DescError, Descriptor, read_descriptor};
use std::alloc::{AllocError, Global};

/// The type of what a field holds, by its descriptor (JVMS 4.3.2). None where this is no field descriptor, or names a class that isn't
/// there.
#[tactic(auto, using(crate::proofs::JlayoutProofs::FieldKinds::held_field, crate::proofs::JlayoutProofs::FieldKinds::held_method), unfolding(crate::specs::juses::DescriptorTypes::typed),)]
pub fn held_type(
    alloc: Global,
    p: &NamedProgram,
    desc: &[u8],
) -> Result<Option<TypeRef>, AllocError>
    ensures { IfOk result (λ t. or_top (option_map (named p.now) t) ≡ ProofNames.held_type (typed p.now desc.now)) }
{
    match read_descriptor(alloc, desc) {
        Ok(Descriptor::Field(t)) => Ok(type_in(p, &t)),
        Ok(Descriptor::Method { .. }) => Ok(None),
        Err(DescError::Bad) => Ok(None),
        Err(DescError::Memory) => Err(AllocError),
    }
}
