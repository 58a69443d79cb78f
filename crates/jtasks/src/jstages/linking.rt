ghost use Rattle.std.specs.Prelude.{◌≡◌, Err, IfOk, Option, Some, option_map};
ghost use Rattle.jresolution.specs.jprogram.ProgramClasses.{Program, program};
ghost use Rattle.jlinking.specs.jlink.LinkedPrograms.{AreParts, LinkErrorIs};
ghost use Rattle.jtasks.specs.declared.jstages.halt.Halt.TheVariants.{Read};
ghost use Rattle.jtasks.specs.jstages.Stages.{Follows};
ghost use Rattle.jtasks.specs.jstages.LinkStage.{AreClasses, link_refusal, linked, member_at, member_text, member_told, refusal_in, units_in, unless_broken};

use crate::jstages::halt::Halt;
use jclass::{ClassParts, MemberInfo};
use jground::jbase::{FaultOrMemory, Seq};
use jground::jtext::{Units, units_of};
use jlib::Side;
use jlinking::jlink::{LinkError, LinkedProgram, link_or_return};
use jresolution::jprogram::{CodePart, LinkFault, member_desc, member_name, this_name};
use jshow::Refusal;
use std::alloc::{AllocError, Global};

// ---- names

/// The text that bytes spell in modified UTF-8; it is empty where they spell none.
pub fn units_in(alloc: Global, bytes: &[u8]) -> Result<Units, AllocError>
    ensures { IfOk result (λ u. u ≡ units_in bytes.now) }
{
    match units_of(alloc, bytes) {
        Ok(units) => Ok(units),
        Err(FaultOrMemory::Fault(_)) => Ok(Units::new(alloc)),
        Err(FaultOrMemory::Memory) => Err(AllocError),
    }
}

/// A member's name and behind it its descriptor.
pub(crate) fn member_text(
    alloc: Global,
    class: &ClassParts,
    member: &MemberInfo,
) -> Result<Units, AllocError>
    ensures { IfOk result (λ u. u ≡ member_text class.now member.now) }
{
    let mut text = Seq::from_slice(alloc, member_name(class, member))?;
    text.extend(member_desc(class, member))?;
    units_in(alloc, text.as_slice())
}

/// The member at a place: methods come first, and then fields.
#[tactic(auto, using(crate::proofs::JstagesProofs::ListPositions::get_in_front, crate::proofs::JstagesProofs::ListPositions::get_behind))]
fn member_at(class: &ClassParts, i: u32) -> Option<&MemberInfo>
    ensures { option_map (λ m. m.now) result ≡ member_at class.now i }
{
    let methods = class.methods.as_slice();
    let i = i as usize;
    if i < methods.len() {
        return methods.get(i);
    }
    class.fields.as_slice().get(i - methods.len())
}

fn member_told(
    alloc: Global,
    class: &ClassParts,
    member: Option<u32>,
) -> Result<Option<Units>, AllocError>
    ensures { IfOk result (λ t. t ≡ member_told class.now member) }
{
    let Some(i) = member else {
        return Ok(None);
    };
    match member_at(class, i) {
        Some(member) => Ok(Some(member_text(alloc, class, member)?)),
        None => Ok(None),
    }
}

// ---- the refusal

fn refusal_in(alloc: Global, part: &CodePart, fault: LinkFault) -> Result<Refusal, AllocError>
    ensures { IfOk result (λ r. r ≡ refusal_in fault (Some part.now)) }
{
    let class = part.class.parts();
    Ok(Refusal::BadLink {
        class: units_in(alloc, this_name(class))?,
        member: member_told(alloc, class, fault.member)?,
        kind: fault.kind,
    })
}

/// The refusal of parts by a broken rule, with the class and the member that break it.
fn link_refusal(alloc: Global, parts: &[CodePart], fault: LinkFault) -> Result<Refusal, AllocError>
    ensures { IfOk result (λ r. r ≡ link_refusal parts.now fault) }
{
    match parts.get(fault.class as usize) {
        Some(part) => refusal_in(alloc, part, fault),
        None => Ok(Refusal::BadLink {
            class: Units::new(alloc),
            member: None,
            kind: fault.kind,
        }),
    }
}

/// Why parts make no program: the first broken rule, or that no memory was left.
fn not_linked(alloc: Global, parts: &[CodePart], error: LinkError) -> Result<LinkedProgram, Halt>
    ensures value { (p : Program) (found : Option LinkFault) → p.parts ≡ parts.now → LinkErrorIs found error
        → Follows (λ x. x) result (unless_broken p found) }
    ensures unread { result ≡ Err Read → ⊥ }
{
    match error {
        LinkError::At(fault) => {
            let refusal = link_refusal(alloc, parts, fault)?;
            Err(Halt::Refused(refusal))
        }
        LinkError::Memory => Err(Halt::Memory),
    }
}

// ---- programs

/// The parts of a program that links may be linked, and each was read as a class file.
pub fn are_classes(program: &LinkedProgram)
    ensures { AreClasses program.now.parts }
{
    for part in program.parts() {
        // What the proof needs: each part is a class file.
        let _parts = part.class.parts();
    }
}

/// The program that classes make which link against a side's library.
#[tactic(auto, unfolding(crate::specs::jstages::LinkStage::linked))]
pub fn linked(alloc: Global, parts: Seq<CodePart>, side: Side) -> Result<LinkedProgram, Halt>
    requires { AreParts parts }
    ensures value { Follows (λ p. p) result (linked (program side parts)) }
    ensures unread { result ≡ Err Read → ⊥ }
{
    match link_or_return(alloc, parts.into_vec(), side) {
        Ok(program) => Ok(program),
        Err(failed) => not_linked(alloc, &failed.0, failed.1),
    }
}
