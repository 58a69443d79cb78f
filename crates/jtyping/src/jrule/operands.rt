ghost use Rattle.std.specs.Prelude.{◌≡◌, ◌∷◌, [], IfOk, map, option_and_then, option_map};
ghost use Rattle.jresolution.specs.jprogram.ProgramClasses.{tree};
ghost use Rattle.jresolution.specs.juses.InternedTypes.{named};
ghost use Rattle.jtyping.specs.jrule.StackEffects;
ghost use Rattle.jtyping.specs.jrule.StackEffects.{Fits, Of, by_effect, of_kinds};
ghost use Rattle.jtyping.specs.jrule.StackOperands.{exchanged, given, pushed, taken, with_room};
ghost use Rattle.jtyping.specs.jrule.InternedFrames.{seen};

use crate::jrule::frame::FrameRef;
use crate::jrule::kinds::{is_of, typed};
use jresolution::jprogram::NamedProgram;
use jresolution::juses::{TypeRef, type_fits};
use jvalues::jnames::{Effect, Kind, Kinds};
use std::alloc::AllocError;

/// The frame without its newest operand, where that is of a kind.
#[tactic(auto, unfolding(crate::specs::jrule::StackOperands::taken, crate::specs::jrule::StackOperands::below))]
pub(crate) fn take_kind(p: &NamedProgram, kind: Kind, mut f: FrameRef) -> Option<FrameRef>
    ensures { option_map (seen p.now) result ≡ taken (tree p.now) (Of kind ∷ []) (seen p.now f) }
{
    let newest = f.stack.pop()?;
    if !is_of(p, kind, newest) {
        return None;
    }
    Some(f)
}

/// The frame without operands of these kinds.
#[tactic(auto, using(crate::proofs::JruleProofs::OperandPops::taken_none, crate::proofs::JruleProofs::OperandPops::taken_more))]
pub(crate) fn take_kinds(p: &NamedProgram, kinds: Kinds, f: FrameRef) -> Option<FrameRef>
    ensures { option_map (seen p.now) result ≡ taken (tree p.now) (of_kinds kinds) (seen p.now f) }
{
    match kinds {
        Kinds::None => Some(f),
        Kinds::One(a) => take_kind(p, a, f),
        Kinds::Two(a, b) => {
            let f = take_kind(p, a, f)?;
            take_kind(p, b, f)
        }
        Kinds::Three(a, b, c) => {
            let f = take_kind(p, a, f)?;
            let f = take_kind(p, b, f)?;
            take_kind(p, c, f)
        }
    }
}

/// The frame without its newest operand, where that fits a type.
#[tactic(auto, unfolding(crate::specs::jrule::StackOperands::taken, crate::specs::jrule::StackOperands::below))]
pub(crate) fn take_fitting(p: &NamedProgram, t: TypeRef, mut f: FrameRef) -> Option<FrameRef>
    ensures { option_map (seen p.now) result ≡ taken (tree p.now) (Fits (named p.now t) ∷ []) (seen p.now f) }
{
    let newest = f.stack.pop()?;
    if !type_fits(p, newest, t) {
        return None;
    }
    Some(f)
}

/// The frame without operands that fit these types, the newest first.
#[tactic(auto, using(crate::proofs::JruleProofs::OperandPops::taken_none, crate::proofs::JruleProofs::OperandPops::taken_more))]
pub(crate) fn take_arguments(p: &NamedProgram, types: &[TypeRef], f: FrameRef) -> Option<FrameRef>
    ensures { option_map (seen p.now) result ≡ taken (tree p.now) (map Fits (map (named p.now) types.now)) (seen p.now f) }
{
    let mut left = f;
    for t in types {
        match take_fitting(p, *t, left) {
            None => return None,
            Some(f) => left = f,
        }
    }
    Some(left)
}

/// The frame, where there is room for its operands.
pub(crate) fn within(p: &NamedProgram, most: u16, f: FrameRef) -> Option<FrameRef>
    ensures { option_map (seen p.now) result ≡ with_room most (seen p.now f) (map (named p.now) f.stack) }
{
    if !f.stack.is_within(most) {
        return None;
    }
    Some(f)
}

/// The frame with one more operand, where there is room.
pub(crate) fn put(
    p: &NamedProgram,
    most: u16,
    t: TypeRef,
    mut f: FrameRef,
) -> Result<Option<FrameRef>, AllocError>
    ensures { IfOk result (λ r. option_map (seen p.now) r ≡ pushed most (named p.now t) (seen p.now f)) }
{
    f.stack.push(t)?;
    Ok(within(p, most, f))
}

pub(crate) fn give(
    p: &NamedProgram,
    most: u16,
    t: Option<TypeRef>,
    f: FrameRef,
) -> Result<Option<FrameRef>, AllocError>
    ensures { IfOk result (λ r. option_map (seen p.now) r ≡ given most (option_map (named p.now) t) (seen p.now f)) }
{
    match t {
        None => Ok(Some(f)),
        Some(t) => put(p, most, t, f),
    }
}

fn given_kind(p: &NamedProgram, kind: Option<Kind>) -> Option<TypeRef>
    ensures { option_map (named p.now) result ≡ option_and_then StackEffects.typed kind }
{
    typed(p, kind?)
}

/// What an instruction does that takes and gives operands of these kinds.
pub(crate) fn exchange(
    p: &NamedProgram,
    most: u16,
    effect: Effect,
    f: FrameRef,
) -> Result<Option<FrameRef>, AllocError>
    ensures { IfOk result (λ r. option_map (seen p.now) r ≡ exchanged (tree p.now) most (by_effect effect) (seen p.now f)) }
{
    let Some(f) = take_kinds(p, effect.takes, f) else {
        return Ok(None);
    };
    give(p, most, given_kind(p, effect.gives), f)
}
