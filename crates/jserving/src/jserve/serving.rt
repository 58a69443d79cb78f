ghost use Rattle.std.specs.Prelude.{◌≡◌, ◌∷◌, ◌++◌, [], map, slice_get};
ghost use Rattle.jtyping.specs.jrule.StackEffects.{Fits};
ghost use Rattle.jresolution.specs.juses.InternedTypes.{named};
ghost use Rattle.jserving.specs.jserve.OperandChecks.{all_serve, one_serves, serves_in};

use crate::jfits::{Ancestors, fits};
use crate::jserve::values::{Objects, value_type};
use jresolution::juses::TypeRef;
use jruntime::jstate::Frames;
use jvalues::jops::Value;

/// Whether a value serves where one of a type is wanted.
#[inline]
#[tactic(auto, using(crate::proofs::JserveProofs::FittingOperands::no_type, crate::proofs::JserveProofs::FittingOperands::of_type), unfolding(jsemantics::specs::jmachine::World::world),)]
pub(crate) fn serves(a: &Ancestors<'_>, x: &Objects<'_>, want: TypeRef, value: Value) -> bool
    ensures { result ≡ serves_in a.now x.now (Fits (named a.now want)) value }
{
    match value_type(x, value) {
        None => false,
        Some(t) => fits(a, t, want),
    }
}

/// Whether the operand at a place, counted from the newest, serves where one of a type is wanted, if it is there.
#[inline]
pub(crate) fn serves_at<M: Copy>(
    a: &Ancestors<'_>,
    x: &Objects<'_>,
    frames: &Frames<M>,
    want: TypeRef,
    i: usize,
) -> bool
    ensures { result ≡ one_serves (serves_in a.now x.now) (Fits (named a.now want)) (slice_get frames.now.newest.operands i) }
{
    if i >= frames.count() {
        return false;
    }
    serves(a, x, want, frames.operand(i))
}

/// Whether the newest operands serve for parameters of these types, the newest first.
pub(crate) fn params_serve<M: Copy>(
    a: &Ancestors<'_>,
    x: &Objects<'_>,
    frames: &Frames<M>,
    params: &[TypeRef],
) -> bool
    ensures { result ≡ all_serve (serves_in a.now x.now) (map Fits (map (named a.now) params.now)) frames.now.newest.operands }
{
    for i in 0..params.len() {
        if !serves_at(a, x, frames, params[i], i) {
            return false;
        }
    }
    true
}

/// Whether the newest operands serve for parameters of these types and, behind them, for an object of another.
#[inline]
pub(crate) fn object_serves<M: Copy>(
    a: &Ancestors<'_>,
    x: &Objects<'_>,
    frames: &Frames<M>,
    params: &[TypeRef],
    object: TypeRef,
) -> bool
    ensures { result ≡ all_serve (serves_in a.now x.now)
        (map Fits (map (named a.now) params.now) ++ Fits (named a.now object) ∷ []) frames.now.newest.operands }
{
    if !params_serve(a, x, frames, params) {
        return false;
    }
    serves_at(a, x, frames, object, params.len())
}
