ghost use Rattle.std.specs.Prelude.{◌≡◌, IfOk, OnOk};
ghost use Rattle.std.specs.List.{list_any};
ghost use Rattle.std.specs.Ordering.{nat_cmp};
ghost use Rattle.std.specs.BTreeMap as tree;
ghost use Rattle.jparts.specs.jpool.Descriptors.{descriptor_of};
ghost use Rattle.jresolution.specs.jprogram.ClassFileParts.{text};
ghost use Rattle.jlinking.specs.jreferring.InitialFrames;
ghost use Rattle.jlinking.specs.jreferring.PoolTextCache.{AreHanded};
ghost use Rattle.jlinking.specs.jreferring.ClassNameAccess;

use crate::jreferring::names::{descriptor_in, params_test};
use crate::jreferring::use_cache::Home;
use jclass::CodeAttribute;
use jresolution::jprogram::{LinkKind, NamedProgram, text_at};
use std::alloc::{AllocError, Global};
use std::collections::BTreeMap;

fn text_test(
    alloc: Global,
    program: &NamedProgram,
    from: &[u8],
    text: &[u8],
) -> Result<Option<LinkKind>, AllocError>
    ensures { IfOk result (λ o. o ≡ ClassNameAccess.params_test program.now from.now (descriptor_of text.now)) }
{
    let desc = descriptor_in(alloc, text)?;
    Ok(params_test(program, from, &desc))
}

fn handed_noted(handed: &BTreeMap<u16, Option<LinkKind>>, i: u16) -> Option<Option<LinkKind>>
    ensures { result ≡ tree.get nat_cmp handed.now i }
{
    handed.get(&i).copied()
}

/// The first fault of the classes of a method's parameters, by the index of its descriptor.
fn handed_at(
    alloc: Global,
    home: Home<'_>,
    handed: &mut BTreeMap<u16, Option<LinkKind>>,
    i: u16,
) -> Result<Option<LinkKind>, AllocError>
    requires { AreHanded home.program.now home.from.now home.pool.now handed.old }
    ensures value { IfOk result (λ o. o
        ≡ ClassNameAccess.params_test home.entry.program.now home.entry.from.now (descriptor_of (text home.entry.pool.now i))) }
    ensures kept { OnOk result (AreHanded home.entry.program.now home.entry.from.now home.entry.pool.now handed.new) }
{
    if let Some(one) = handed_noted(handed, i) {
        return Ok(one);
    }
    let one = text_test(alloc, home.program, home.from, text_at(home.pool, i))?;
    handed.insert(i, one)?;
    Ok(one)
}

fn has_frames(attribute: &CodeAttribute) -> bool
    ensures { result ≡ InitialFrames.has_frames attribute.now }
{
    match attribute {
        CodeAttribute::Maps { frames, .. } => 0 < frames.as_slice().len(),
        CodeAttribute::Raw { .. } => false,
    }
}

fn any_frames(attributes: &[CodeAttribute]) -> bool
    ensures { result ≡ list_any InitialFrames.has_frames attributes.now }
{
    attributes.iter().any(|one| has_frames(one))
}

/// The first fault of the frame that a method begins with, by the index of its descriptor and the attributes of its code. `handed` has what
/// is noted of descriptors.
#[tactic(auto, unfolding(crate::specs::jreferring::InitialFrames::first_frame_test))]
pub fn first_frame_test(
    alloc: Global,
    home: Home<'_>,
    handed: &mut BTreeMap<u16, Option<LinkKind>>,
    desc: u16,
    attributes: &[CodeAttribute],
) -> Result<Option<LinkKind>, AllocError>
    requires { AreHanded home.program.now home.from.now home.pool.now handed.old }
    ensures value { IfOk result (λ o. o
        ≡ InitialFrames.first_frame_test home.entry.program.now home.entry.from.now (text home.entry.pool.now desc) attributes.now) }
    ensures kept { OnOk result (AreHanded home.entry.program.now home.entry.from.now home.entry.pool.now handed.new) }
{
    if !any_frames(attributes) {
        return Ok(None);
    }
    handed_at(alloc, home, handed, desc)
}
