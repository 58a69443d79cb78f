ghost use Rattle.std.specs.Prelude.{◌≡◌, Err, IfOk, Option, Some, slice_get};
ghost use Rattle.jcheck.specs.CheckErrors.{TypeFaultIs};
ghost use Rattle.jtyping.specs.jwelltyped.VerifierTests.{Place};
ghost use Rattle.jtasks.specs.declared.jstages.halt.Halt.TheVariants.{Read};
ghost use Rattle.jtasks.specs.jstages.CheckStage.{check_refusal, checked, method_told, refusal_at, unless_untyped};
ghost use Rattle.jtasks.specs.jstages.LinkStage.{units_in};
ghost use Rattle.jtasks.specs.jstages.Stages.{Follows};

use crate::jstages::halt::Halt;
use crate::jstages::linking::{member_text, units_in};
use jcheck::{CheckedProgram, TypeFault, check};
use jclass::ClassParts;
use jground::jtext::Units;
use jlinking::jlink::LinkedProgram;
use jresolution::jprogram::{CodePart, this_name};
use jshow::Refusal;
use std::alloc::{AllocError, Global};

// ---- the refusal

/// The name and descriptor of the method at a place of a class.
pub(crate) fn method_told(
    alloc: Global,
    class: &ClassParts,
    method: u32,
) -> Result<Units, AllocError>
    ensures { IfOk result (λ t. t ≡ method_told class.now (slice_get class.now.methods method)) }
{
    match class.methods.as_slice().get(method as usize) {
        Some(method) => member_text(alloc, class, method),
        None => Ok(Units::new(alloc)),
    }
}

fn refusal_at(alloc: Global, part: &CodePart, method: u32, at: u32) -> Result<Refusal, AllocError>
    ensures { IfOk result (λ r. r ≡ refusal_at method at (Some part.now)) }
{
    let class = part.class.parts();
    Ok(Refusal::BadCheck {
        class: units_in(alloc, this_name(class))?,
        member: method_told(alloc, class, method)?,
        at,
    })
}

/// The refusal of parts by the first place where they aren't well typed.
fn check_refusal(
    alloc: Global,
    parts: &[CodePart],
    class: u32,
    method: u32,
    at: u32,
) -> Result<Refusal, AllocError>
    ensures { IfOk result (λ r. r ≡ check_refusal parts.now (record { class = class; method = method; at = at })) }
{
    match parts.get(class as usize) {
        Some(part) => refusal_at(alloc, part, method, at),
        None => Ok(Refusal::BadCheck {
            class: Units::new(alloc),
            member: Units::new(alloc),
            at,
        }),
    }
}

/// Why a program isn't accepted: the first place where it isn't well typed, or that no memory was left.
fn not_checked(
    alloc: Global,
    program: &LinkedProgram,
    fault: TypeFault,
) -> Result<CheckedProgram, Halt>
    ensures value { (found : Option Place) → TypeFaultIs found fault → Follows (λ x. x) result (unless_untyped program.now found) }
    ensures unread { result ≡ Err Read → ⊥ }
{
    match fault {
        TypeFault::At { class, method, at } => {
            let refusal = check_refusal(alloc, program.parts(), class, method, at)?;
            Err(Halt::Refused(refusal))
        }
        TypeFault::Memory => Err(Halt::Memory),
    }
}

// ---- programs

/// A program that links, where it is well typed too.
#[tactic(auto, unfolding(crate::specs::jstages::CheckStage::checked))]
pub fn checked(alloc: Global, program: LinkedProgram) -> Result<CheckedProgram, Halt>
    ensures value { Follows (λ p. p) result (checked program) }
    ensures unread { result ≡ Err Read → ⊥ }
{
    match check(alloc, program) {
        Ok(program) => Ok(program),
        Err(failed) => not_checked(alloc, &failed.0, failed.1),
    }
}
