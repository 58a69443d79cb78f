ghost use Rattle.std.specs.Prelude.{◌≡◌, ◌∷◌, [], IfOk, IfSome, MatchOption, map, option_map};
ghost use Rattle.jvalues.specs.jops.Shuffles as slots;
ghost use Rattle.jresolution.specs.juses.InternedTypes.{named};
ghost use Rattle.jtyping.specs.jrule.StackMoveRule;
ghost use Rattle.jtyping.specs.jrule.StackMoveRule.{items};
ghost use Rattle.jtyping.specs.ProofNames.{moved, shuffled};
ghost use Rattle.jtyping.specs.jrule.InternedFrames.{item_type, seen, seen_item};

use crate::jrule::frame::{FrameRef, Stack};
use crate::jrule::operands::within;
use jresolution::jprogram::NamedProgram;
use jresolution::juses::TypeRef;
use jvalues::jnames::Shuffle;
use std::alloc::AllocError;

/// An operand by how many slots it takes.
#[derive(Clone, Copy, Debug)]
pub(crate) enum Item {
    One(TypeRef),
    Two(TypeRef),
}

/// The newest operand, where it is known how many slots it takes.
#[tactic(auto, unfolding(crate::specs::jrule::StackMoveRule::items))]
fn pop_item(p: &NamedProgram, stack: &mut Stack) -> Option<Item>
    ensures items { MatchOption result (items (map (named p.now) stack.old) ≡ []) (λ i. items (map (named p.now) stack.old)
        ≡ seen_item p.now i ∷ items (map (named p.now) stack.new)) }
    ensures rest { IfSome result (λ i. stack.old ≡ item_type i ∷ stack.new) }
{
    match stack.pop()? {
        TypeRef::Top => None,
        TypeRef::Long => Some(Item::Two(TypeRef::Long)),
        t => Some(Item::One(t)),
    }
}

// ---- what comes

fn put_2(mut stack: Stack, a: TypeRef, b: TypeRef) -> Result<Stack, AllocError>
    ensures { IfOk result (λ s. s ≡ b ∷ a ∷ stack) }
{
    stack.push(a)?;
    stack.push(b)?;
    Ok(stack)
}

fn put_3(stack: Stack, a: TypeRef, b: TypeRef, c: TypeRef) -> Result<Stack, AllocError>
    ensures { IfOk result (λ s. s ≡ c ∷ b ∷ a ∷ stack) }
{
    let mut stack = put_2(stack, a, b)?;
    stack.push(c)?;
    Ok(stack)
}

fn put_4(stack: Stack, a: TypeRef, b: TypeRef, c: TypeRef, d: TypeRef) -> Result<Stack, AllocError>
    ensures { IfOk result (λ s. s ≡ d ∷ c ∷ b ∷ a ∷ stack) }
{
    let stack = put_2(stack, a, b)?;
    put_2(stack, c, d)
}

fn put_5(
    stack: Stack,
    a: TypeRef,
    b: TypeRef,
    c: TypeRef,
    d: TypeRef,
    e: TypeRef,
) -> Result<Stack, AllocError>
    ensures { IfOk result (λ s. s ≡ e ∷ d ∷ c ∷ b ∷ a ∷ stack) }
{
    let stack = put_3(stack, a, b, c)?;
    put_2(stack, d, e)
}

fn put_6(
    stack: Stack,
    a: TypeRef,
    b: TypeRef,
    c: TypeRef,
    d: TypeRef,
    e: TypeRef,
    f: TypeRef,
) -> Result<Stack, AllocError>
    ensures { IfOk result (λ s. s ≡ f ∷ e ∷ d ∷ c ∷ b ∷ a ∷ stack) }
{
    let stack = put_4(stack, a, b, c, d)?;
    put_2(stack, e, f)
}

// ---- each instruction

#[tactic(auto, unfolding(jvalues::specs::jops::Shuffles::shuffle))]
fn pop(p: &NamedProgram, mut stack: Stack) -> Result<Option<Stack>, AllocError>
    ensures { IfOk result (λ r. option_map (map (named p.now)) r ≡ shuffled Shuffle.Pop (map (named p.now) stack)) }
{
    match pop_item(p, &mut stack) {
        None => Ok(None),
        Some(Item::Two(_)) => Ok(None),
        Some(Item::One(_)) => Ok(Some(stack)),
    }
}

#[tactic(auto, unfolding(jvalues::specs::jops::Shuffles::shuffle))]
fn pop2(p: &NamedProgram, mut stack: Stack) -> Result<Option<Stack>, AllocError>
    ensures { IfOk result (λ r. option_map (map (named p.now)) r ≡ shuffled Shuffle.Pop2 (map (named p.now) stack)) }
{
    match pop_item(p, &mut stack) {
        None => Ok(None),
        Some(Item::Two(_)) => Ok(Some(stack)),
        Some(Item::One(_)) => match pop_item(p, &mut stack) {
            None => Ok(None),
            Some(Item::Two(_)) => Ok(None),
            Some(Item::One(_)) => Ok(Some(stack)),
        },
    }
}

#[tactic(auto, unfolding(jvalues::specs::jops::Shuffles::shuffle))]
fn dup(p: &NamedProgram, mut stack: Stack) -> Result<Option<Stack>, AllocError>
    ensures { IfOk result (λ r. option_map (map (named p.now)) r ≡ shuffled Shuffle.Dup (map (named p.now) stack)) }
{
    match pop_item(p, &mut stack) {
        None => Ok(None),
        Some(Item::Two(_)) => Ok(None),
        Some(Item::One(a)) => {
            let stack = put_2(stack, a, a)?;
            Ok(Some(stack))
        }
    }
}

#[tactic(auto, unfolding(jvalues::specs::jops::Shuffles::shuffle))]
fn dup_x1(p: &NamedProgram, mut stack: Stack) -> Result<Option<Stack>, AllocError>
    ensures { IfOk result (λ r. option_map (map (named p.now)) r ≡ shuffled Shuffle.DupX1 (map (named p.now) stack)) }
{
    match pop_item(p, &mut stack) {
        None => Ok(None),
        Some(Item::Two(_)) => Ok(None),
        Some(Item::One(a)) => match pop_item(p, &mut stack) {
            None => Ok(None),
            Some(Item::Two(_)) => Ok(None),
            Some(Item::One(b)) => {
                let stack = put_3(stack, a, b, a)?;
                Ok(Some(stack))
            }
        },
    }
}

#[tactic(auto, unfolding(jvalues::specs::jops::Shuffles::shuffle))]
fn dup_x2(p: &NamedProgram, mut stack: Stack) -> Result<Option<Stack>, AllocError>
    ensures { IfOk result (λ r. option_map (map (named p.now)) r ≡ shuffled Shuffle.DupX2 (map (named p.now) stack)) }
{
    match pop_item(p, &mut stack) {
        None => Ok(None),
        Some(Item::Two(_)) => Ok(None),
        Some(Item::One(a)) => match pop_item(p, &mut stack) {
            None => Ok(None),
            Some(Item::Two(b)) => {
                let stack = put_3(stack, a, b, a)?;
                Ok(Some(stack))
            }
            Some(Item::One(b)) => match pop_item(p, &mut stack) {
                None => Ok(None),
                Some(Item::Two(_)) => Ok(None),
                Some(Item::One(c)) => {
                    let stack = put_4(stack, a, c, b, a)?;
                    Ok(Some(stack))
                }
            },
        },
    }
}

#[tactic(auto, unfolding(jvalues::specs::jops::Shuffles::shuffle))]
fn dup2(p: &NamedProgram, mut stack: Stack) -> Result<Option<Stack>, AllocError>
    ensures { IfOk result (λ r. option_map (map (named p.now)) r ≡ shuffled Shuffle.Dup2 (map (named p.now) stack)) }
{
    match pop_item(p, &mut stack) {
        None => Ok(None),
        Some(Item::Two(a)) => {
            let stack = put_2(stack, a, a)?;
            Ok(Some(stack))
        }
        Some(Item::One(a)) => match pop_item(p, &mut stack) {
            None => Ok(None),
            Some(Item::Two(_)) => Ok(None),
            Some(Item::One(b)) => {
                let stack = put_4(stack, b, a, b, a)?;
                Ok(Some(stack))
            }
        },
    }
}

#[tactic(auto, unfolding(jvalues::specs::jops::Shuffles::shuffle))]
fn dup2_x1(p: &NamedProgram, mut stack: Stack) -> Result<Option<Stack>, AllocError>
    ensures { IfOk result (λ r. option_map (map (named p.now)) r ≡ shuffled Shuffle.Dup2X1 (map (named p.now) stack)) }
{
    match pop_item(p, &mut stack) {
        None => Ok(None),
        Some(Item::Two(a)) => match pop_item(p, &mut stack) {
            None => Ok(None),
            Some(Item::Two(_)) => Ok(None),
            Some(Item::One(b)) => {
                let stack = put_3(stack, a, b, a)?;
                Ok(Some(stack))
            }
        },
        Some(Item::One(a)) => match pop_item(p, &mut stack) {
            None => Ok(None),
            Some(Item::Two(_)) => Ok(None),
            Some(Item::One(b)) => match pop_item(p, &mut stack) {
                None => Ok(None),
                Some(Item::Two(_)) => Ok(None),
                Some(Item::One(c)) => {
                    let stack = put_5(stack, b, a, c, b, a)?;
                    Ok(Some(stack))
                }
            },
        },
    }
}

/// With a long as the newest item.
#[tactic(auto, unfolding(jvalues::specs::jops::Shuffles::shuffle))]
fn dup2_x2_long(p: &NamedProgram, a: TypeRef, mut stack: Stack) -> Result<Option<Stack>, AllocError>
    ensures { IfOk result (λ r. option_map (map (named p.now)) r
        ≡ option_map (moved (named p.now a ∷ map (named p.now) stack))
        (slots.shuffle Shuffle.Dup2X2 (slots.Two (named p.now a) ∷ items (map (named p.now) stack)))) }
{
    match pop_item(p, &mut stack) {
        None => Ok(None),
        Some(Item::Two(b)) => {
            let stack = put_3(stack, a, b, a)?;
            Ok(Some(stack))
        }
        Some(Item::One(b)) => match pop_item(p, &mut stack) {
            None => Ok(None),
            Some(Item::Two(_)) => Ok(None),
            Some(Item::One(c)) => {
                let stack = put_4(stack, a, c, b, a)?;
                Ok(Some(stack))
            }
        },
    }
}

/// With two items of one slot as the newest.
#[tactic(auto, unfolding(jvalues::specs::jops::Shuffles::shuffle))]
fn dup2_x2_pair(
    p: &NamedProgram,
    a: TypeRef,
    b: TypeRef,
    mut stack: Stack,
) -> Result<Option<Stack>, AllocError>
    ensures { IfOk result (λ r. option_map (map (named p.now)) r
        ≡ option_map (moved (named p.now a ∷ named p.now b ∷ map (named p.now) stack))
        (slots.shuffle Shuffle.Dup2X2 (slots.One (named p.now a) ∷ slots.One (named p.now b) ∷ items (map (named p.now) stack)))) }
{
    match pop_item(p, &mut stack) {
        None => Ok(None),
        Some(Item::Two(c)) => {
            let stack = put_5(stack, b, a, c, b, a)?;
            Ok(Some(stack))
        }
        Some(Item::One(c)) => match pop_item(p, &mut stack) {
            None => Ok(None),
            Some(Item::Two(_)) => Ok(None),
            Some(Item::One(d)) => {
                let stack = put_6(stack, b, a, d, c, b, a)?;
                Ok(Some(stack))
            }
        },
    }
}

#[tactic(auto, unfolding(jvalues::specs::jops::Shuffles::shuffle))]
fn dup2_x2(p: &NamedProgram, mut stack: Stack) -> Result<Option<Stack>, AllocError>
    ensures { IfOk result (λ r. option_map (map (named p.now)) r ≡ shuffled Shuffle.Dup2X2 (map (named p.now) stack)) }
{
    match pop_item(p, &mut stack) {
        None => Ok(None),
        Some(Item::Two(a)) => dup2_x2_long(p, a, stack),
        Some(Item::One(a)) => match pop_item(p, &mut stack) {
            None => Ok(None),
            Some(Item::Two(_)) => Ok(None),
            Some(Item::One(b)) => dup2_x2_pair(p, a, b, stack),
        },
    }
}

#[tactic(auto, unfolding(jvalues::specs::jops::Shuffles::shuffle))]
fn swap(p: &NamedProgram, mut stack: Stack) -> Result<Option<Stack>, AllocError>
    ensures { IfOk result (λ r. option_map (map (named p.now)) r ≡ shuffled Shuffle.Swap (map (named p.now) stack)) }
{
    match pop_item(p, &mut stack) {
        None => Ok(None),
        Some(Item::Two(_)) => Ok(None),
        Some(Item::One(a)) => match pop_item(p, &mut stack) {
            None => Ok(None),
            Some(Item::Two(_)) => Ok(None),
            Some(Item::One(b)) => {
                let stack = put_2(stack, a, b)?;
                Ok(Some(stack))
            }
        },
    }
}

// ---- the rule

fn shuffled(p: &NamedProgram, s: Shuffle, stack: Stack) -> Result<Option<Stack>, AllocError>
    ensures { IfOk result (λ r. option_map (map (named p.now)) r ≡ shuffled s (map (named p.now) stack)) }
{
    match s {
        Shuffle::Pop => pop(p, stack),
        Shuffle::Pop2 => pop2(p, stack),
        Shuffle::Dup => dup(p, stack),
        Shuffle::DupX1 => dup_x1(p, stack),
        Shuffle::DupX2 => dup_x2(p, stack),
        Shuffle::Dup2 => dup2(p, stack),
        Shuffle::Dup2X1 => dup2_x1(p, stack),
        Shuffle::Dup2X2 => dup2_x2(p, stack),
        Shuffle::Swap => swap(p, stack),
    }
}

/// The frame behind a move of the stack (JVMS 4.10.1.9); none where none of its forms fits the newest operands, or where there is no room.
/// Of Top it isn't known how many slots it takes, so that no form fits it.
pub fn shuffle(
    p: &NamedProgram,
    most: u16,
    s: Shuffle,
    f: FrameRef,
) -> Result<Option<FrameRef>, AllocError>
    ensures { IfOk result (λ r. option_map (seen p.now) r ≡ StackMoveRule.move most s (seen p.now f)) }
{
    let FrameRef {
        locals,
        stack,
        flag,
    } = f;
    let Some(stack) = shuffled(p, s, stack)? else {
        return Ok(None);
    };
    let moved = FrameRef {
        locals,
        stack,
        flag,
    };
    Ok(within(p, most, moved))
}
