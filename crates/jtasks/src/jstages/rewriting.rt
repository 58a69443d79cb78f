ghost use Rattle.std.specs.Prelude.{◌≡◌, ℕ, Err, IfOk, List, OnOk, Option, Some};
ghost use Rattle.jlib.specs.declared.side.Side.TheVariants as sides;
ghost use Rattle.jresolution.specs.jprogram.MemberResolution.{main_of};
ghost use Rattle.jrewriting.specs.declared.jrewrite.part.Place.{Place};
ghost use Rattle.jrewriting.specs.jrewrite.RewrittenPrograms.{RewriteErrorIs};
ghost use Rattle.jtasks.specs.declared.jstages.halt.Halt.TheVariants.{Read};
ghost use Rattle.jtasks.specs.jstages.RewriteStage.{limit_refusal, limit_told, limited_told, rewritten, unless_limited};
ghost use Rattle.jtasks.specs.jstages.Stages.{Follows};

use crate::jstages::checking::method_told;
use crate::jstages::halt::Halt;
use crate::jstages::linking::units_in;
use jcheck::CheckedProgram;
use jclass::ClassParts;
use jground::jtext::Units;
use jmoving::{RewriteError, RewriteKind, RewrittenProgram, rewrite};
use jresolution::jprogram::{CodePart, this_name};
use jshow::Refusal;
use std::alloc::{AllocError, Global};

// ---- the refusal

/// The name and descriptor of the method at a place of a class, where a limit is a method's.
fn limited_told(
    alloc: Global,
    class: &ClassParts,
    method: Option<u32>,
) -> Result<Option<Units>, AllocError>
    ensures { IfOk result (λ t. t ≡ limited_told class.now method) }
{
    let Some(method) = method else {
        return Ok(None);
    };
    let told = method_told(alloc, class, method)?;
    Ok(Some(told))
}

fn limit_told(
    alloc: Global,
    part: &CodePart,
    method: Option<u32>,
    kind: RewriteKind,
) -> Result<Refusal, AllocError>
    ensures { IfOk result (λ r. r ≡ limit_told (record { method = method; kind = kind }) (Some part.now)) }
{
    let class = part.class.parts();
    Ok(Refusal::BadRewrite {
        class: units_in(alloc, this_name(class))?,
        member: limited_told(alloc, class, method)?,
        kind,
    })
}

/// The refusal of parts by the first limit that is broken.
fn limit_refusal(
    alloc: Global,
    parts: &[CodePart],
    class: u32,
    method: Option<u32>,
    kind: RewriteKind,
) -> Result<Refusal, AllocError>
    ensures { IfOk result (λ r. r ≡ limit_refusal parts.now (record { class = class; limit = record { method = method; kind = kind } })) }
{
    match parts.get(class as usize) {
        Some(part) => limit_told(alloc, part, method, kind),
        None => Ok(Refusal::BadRewrite {
            class: Units::new(alloc),
            member: None,
            kind,
        }),
    }
}

/// Why a program isn't moved: the first limit that it breaks, or that no memory was left.
fn not_rewritten(
    alloc: Global,
    program: &CheckedProgram,
    error: RewriteError,
) -> Result<RewrittenProgram, Halt>
    ensures value { (found : Option Place) → RewriteErrorIs found error → Follows (λ x. x) result (unless_limited program.now found) }
    ensures never { OnOk result ⊥ }
    ensures unread { result ≡ Err Read → ⊥ }
{
    match error {
        RewriteError::At {
            class,
            method,
            kind,
        } => {
            let parts = program.linked().parts();
            let refusal = limit_refusal(alloc, parts, class, method, kind)?;
            Err(Halt::Refused(refusal))
        }
        RewriteError::Memory => Err(Halt::Memory),
    }
}

// ---- programs

/// The moved program of one of the source side, where it breaks no limit.
#[tactic(auto, unfolding(crate::specs::jstages::RewriteStage::rewritten))]
pub fn rewritten(alloc: Global, program: &CheckedProgram) -> Result<RewrittenProgram, Halt>
    requires { program.now.side ≡ sides.Source }
    ensures value { Follows (λ p. p) result (rewritten program.now) }
    // The `main` of each class is the same method.
    ensures mains { IfOk result (λ q. (name : List ℕ) → main_of q name ≡ main_of program.now name) }
    ensures unread { result ≡ Err Read → ⊥ }
{
    match rewrite(alloc, program) {
        Ok(program) => Ok(program),
        Err(error) => not_rewritten(alloc, program, error),
    }
}
