ghost use Rattle.std.specs.Prelude.{◌≡◌, ◌∷◌, [], MatchOption, OnErr, OnOk, map, nat_le, reverse};
ghost use Rattle.std.specs.List.{list_any};
ghost use Rattle.jtyping.specs.jrule.OperandSlots;
ghost use Rattle.jtyping.specs.jrule.OperandSlots.{slot_count};
ghost use Rattle.jtyping.specs.jrule.TypeSubstitution.{is_for, swapped};

use crate::jrule::kept::Locals;
use crate::jrule::unready::Unready;
use jresolution::juses::TypeRef;
use std::alloc::{AllocError, Global};
use std::marker::Model;

/// The types of operands, which contracts see newest first. How many slots they take is known at once.
#[derive(Debug, Drop)]
pub struct Stack {
    items: Vec<TypeRef>,
    /// How many are longs.
    longs: usize,
}

impl Model for Stack {
    ghost use Rattle.std.specs.Prelude.{◌≡◌, List, reverse};
    ghost use Rattle.jresolution.specs.declared.juses.types.TypeRef.{TypeRef};
    ghost use Rattle.jtyping.specs.jrule.OperandSlots.{long_count};

    ghost Value = { List TypeRef };

    ghost view = { λ s. reverse s.items.items };

    ghost invariant = { λ s. s.longs ≡ long_count (reverse s.items.items) };
}

/// A frame by number (JVMS 4.10.1): what is known of locals and operands before an instruction.
#[derive(Debug, Drop)]
pub struct FrameRef {
    /// A long fills two of them, and the second is Top.
    pub locals: Locals,
    pub stack: Stack,
    /// `this` isn't initialised yet.
    pub flag: bool,
}

/// How many longs an operand is.
fn longs_in(kind: TypeRef) -> usize
    ensures { result ≡ OperandSlots.longs_in kind }
{
    match kind {
        TypeRef::Long => 1,
        _ => 0,
    }
}

impl Stack {
    /// No operands. It takes no memory.
    #[tactic(auto, unfolding(crate::specs::jrule::OperandSlots::long_count))]
    pub fn new(alloc: Global) -> Stack
        ensures { result ≡ [] }
    {
        Stack {
            items: Vec::new(alloc),
            longs: 0,
        }
    }

    /// The operands, the oldest first.
    pub fn as_slice(&self) -> &[TypeRef]
        ensures { reverse result.now ≡ self.now }
    {
        self.items.as_slice()
    }

    /// Whether the operands take no more slots than there are.
    pub fn is_within(&self, most: u16) -> bool
        ensures { result ≡ nat_le (slot_count self.now) most }
    {
        let most = usize::from(most);
        let count = self.items.len();
        if count > most {
            return false;
        }
        self.longs <= most - count
    }

    /// Puts an operand on the others. After an error they are as they were.
    pub fn push(&mut self, kind: TypeRef) -> Result<(), AllocError>
        ensures ok { OnOk result (self.new ≡ kind ∷ self.old) }
        ensures err { OnErr result (self.new ≡ self.old) }
    {
        self.items.push(kind)?;
        self.longs += longs_in(kind);
        Ok(())
    }

    /// Whether one of the types stands for an object.
    #[tactic(auto, using(crate::proofs::JruleProofs::TypeSubstitution::any_reversed))]
    pub(crate) fn has(&self, it: Unready) -> bool
        ensures { result ≡ list_any (is_for it) self.now }
    {
        it.is_among(self.items.as_slice())
    }

    /// The operands with another type, which takes one slot, for each that stands for an object.
    #[tactic(auto, using(crate::proofs::JruleProofs::TypeSubstitution::map_reversed, crate::proofs::JruleProofs::TypeSubstitution::longs_swapped))]
    pub(crate) fn all_swapped(self, it: Unready, new: TypeRef) -> Stack
        requires { OperandSlots.longs_in new ≡ 0 }
        ensures { result ≡ map (swapped it new) self }
    {
        Stack {
            items: it.all_swapped(new, self.items),
            longs: self.longs,
        }
    }

    /// Takes the newest operand.
    pub fn pop(&mut self) -> Option<TypeRef>
        ensures { MatchOption result ((self.old ≡ []) × (self.new ≡ [])) (λ kind. self.old ≡ kind ∷ self.new) }
    {
        let kind = self.items.pop()?;
        self.longs -= longs_in(kind);
        Some(kind)
    }
}
