ghost use Rattle.std.specs.Prelude.{◌≡◌, ◌∷◌, [], is_some};
ghost use Rattle.jvalues.specs.jnames.Effects.{division_effect, one_effect, two_effect};
ghost use Rattle.jvalues.specs.jops.ValueKinds.{are_of};
ghost use Rattle.jvalues.specs.jops.Operations;

use jvalues::jnames::{Division, Kind, Kinds, OpOne, OpTwo};
use jvalues::jops::{DivideByZero, Value, divide, kind_laws, one, two};

// ---- the kinds that instructions take

#[inline]
fn kinds_of_two(op: OpTwo) -> Kinds
    ensures { result ≡ (two_effect op).takes }
{
    match op {
        OpTwo::Iadd
        | OpTwo::Isub
        | OpTwo::Imul
        | OpTwo::Ishl
        | OpTwo::Ishr
        | OpTwo::Iushr
        | OpTwo::Iand
        | OpTwo::Ior
        | OpTwo::Ixor => Kinds::Two(Kind::Int, Kind::Int),
        OpTwo::Ladd
        | OpTwo::Lsub
        | OpTwo::Lmul
        | OpTwo::Land
        | OpTwo::Lor
        | OpTwo::Lxor
        | OpTwo::Lcmp => Kinds::Two(Kind::Long, Kind::Long),
        OpTwo::Lshl | OpTwo::Lshr | OpTwo::Lushr => Kinds::Two(Kind::Int, Kind::Long),
    }
}

#[inline]
fn kinds_of_division(op: Division) -> Kinds
    ensures { result ≡ (division_effect op).takes }
{
    match op {
        Division::Idiv | Division::Irem => Kinds::Two(Kind::Int, Kind::Int),
        Division::Ldiv | Division::Lrem => Kinds::Two(Kind::Long, Kind::Long),
    }
}

#[inline]
fn kinds_of_one(op: OpOne) -> Kinds
    ensures { result ≡ (one_effect op).takes }
{
    match op {
        OpOne::Ineg | OpOne::I2l | OpOne::I2b | OpOne::I2c | OpOne::I2s => Kinds::One(Kind::Int),
        OpOne::Lneg | OpOne::L2i => Kinds::One(Kind::Long),
    }
}

/// Whether two operands are of these kinds; `b` is the newer one.
#[inline]
fn are_two(kinds: Kinds, a: Value, b: Value) -> bool
    ensures { result ≡ are_of kinds (b ∷ a ∷ []) }
{
    match kinds {
        Kinds::None => false,
        Kinds::One(_) => false,
        Kinds::Two(newer, older) => a.is_of(older) && b.is_of(newer),
        Kinds::Three(_, _, _) => false,
    }
}

/// Whether an operand is of this kind.
#[inline]
fn is_one(kinds: Kinds, a: Value) -> bool
    ensures { result ≡ are_of kinds (a ∷ []) }
{
    match kinds {
        Kinds::None => false,
        Kinds::One(kind) => a.is_of(kind),
        Kinds::Two(_, _) => false,
        Kinds::Three(_, _, _) => false,
    }
}

// ---- operations, where the operands are of the kinds that they take

/// What an instruction with two operands gives, but for divisions; `b` is the newer operand.
#[inline]
#[tactic(auto, using(crate::proofs::JactsProofs::GivenValues::is_given, crate::proofs::JactsProofs::GivenValues::not_given))]
pub(crate) fn two_of(op: OpTwo, a: Value, b: Value) -> Option<Value>
    ensures value { result ≡ Operations.two op a b }
    ensures kinds { is_some result ≡ are_of (two_effect op).takes (b ∷ a ∷ []) }
{
    kind_laws::<u64>();
    if !are_two(kinds_of_two(op), a, b) {
        return None;
    }
    Some(two(op, a, b))
}

/// What a division gives; `b` is the divisor.
#[inline]
#[tactic(auto, using(crate::proofs::JactsProofs::GivenValues::is_given, crate::proofs::JactsProofs::GivenValues::not_given))]
pub(crate) fn division_of(op: Division, a: Value, b: Value) -> Option<Result<Value, DivideByZero>>
    ensures value { result ≡ Operations.divide op a b }
    ensures kinds { is_some result ≡ are_of (division_effect op).takes (b ∷ a ∷ []) }
{
    kind_laws::<u64>();
    if !are_two(kinds_of_division(op), a, b) {
        return None;
    }
    Some(divide(op, a, b))
}

/// What an instruction with one operand gives.
#[inline]
#[tactic(auto, using(crate::proofs::JactsProofs::GivenValues::is_given, crate::proofs::JactsProofs::GivenValues::not_given))]
pub(crate) fn one_of(op: OpOne, a: Value) -> Option<Value>
    ensures value { result ≡ Operations.one op a }
    ensures kinds { is_some result ≡ are_of (one_effect op).takes (a ∷ []) }
{
    kind_laws::<u64>();
    if !is_one(kinds_of_one(op), a) {
        return None;
    }
    Some(one(op, a))
}
