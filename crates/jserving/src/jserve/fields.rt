ghost use Rattle.std.specs.Prelude.{◌≡◌, ℕ, Bool, slice_get};
ghost use Rattle.jparts.specs.declared.jcode.names.FieldOp.TheVariants as ops;
ghost use Rattle.jsemantics.specs.jmachine.InstructionSites.{Site};
ghost use Rattle.jsemantics.specs.jmachine.Store.{Store};
ghost use Rattle.jsemantics.specs.jmachine.World.{world};
ghost use Rattle.jrows.specs.jobjs.EntryOperands.{Serve};
ghost use Rattle.jresolution.specs.declared.jprogram.member.Member.{Member};
ghost use Rattle.jtyping.specs.jrule.PoolEffects.{written};
ghost use Rattle.jresolution.specs.juses.InstructionMeanings as meanings;
ghost use Rattle.jresolution.specs.juses.InstructionMeanings.{FieldMeaning};
ghost use Rattle.jresolution.specs.juses.InternedTypes.{class_named, named};
ghost use Rattle.jserving.specs.jserve.OperandChecks.{one_serves, serves_in};
ghost use Rattle.jserving.specs.jserve.ValueTypes.{IsStore};

use crate::jfits::{Ancestors, fits};
use crate::jserve::serving::{serves, serves_at};
use crate::jserve::values::{Objects, value_type};
use jresolution::jprogram::ClassRef;
use jresolution::juses::TypeRef;
use jruntime::jstate::{Frames, heap_laws};
use jvalues::jops::Value;

/// Whether the operand of getfield serves, by the class by which the field is named.
#[inline]
pub fn get_field_serves<M: Copy>(
    a: &Ancestors<'_>,
    x: &Objects<'_>,
    frames: &Frames<M>,
    owner: ClassRef,
) -> bool
    ensures { (at : Site) (own : Member → Bool) (s : Store ℕ) (f : FieldMeaning) → IsStore a.now x.now s → at.world ≡ world a.now
        → f.owner ≡ class_named a.now owner → Serve at own s (meanings.Field ops.GetField f) frames.now.newest.operands result }
{
    heap_laws();
    serves_at(a, x, frames, TypeRef::Object(owner), 0)
}

/// Whether the operand of putstatic serves, by the field's type.
#[inline]
pub fn put_static_serves<M: Copy>(
    a: &Ancestors<'_>,
    x: &Objects<'_>,
    frames: &Frames<M>,
    held: TypeRef,
) -> bool
    ensures { (at : Site) (own : Member → Bool) (s : Store ℕ) (f : FieldMeaning) → IsStore a.now x.now s → at.world ≡ world a.now
        → f.held ≡ named a.now held → Serve at own s (meanings.Field ops.PutStatic f) frames.now.newest.operands result }
{
    heap_laws();
    serves_at(a, x, frames, held, 0)
}

/// Whether a value serves as the object whose field is written. An object of the class `this` does, too, where this is one of its own fields
/// and an `<init>` writes it.
#[inline]
#[tactic(auto, using(crate::proofs::JserveProofs::FieldOperands::not_own, crate::proofs::JserveProofs::FieldOperands::no_type, crate::proofs::JserveProofs::FieldOperands::own_type,), unfolding(jsemantics::specs::jmachine::World::world),)]
fn written_serves(
    a: &Ancestors<'_>,
    x: &Objects<'_>,
    own: bool,
    this: ClassRef,
    owner: ClassRef,
    value: Value,
) -> bool
    ensures { result ≡ serves_in a.now x.now (written own (class_named a.now this) (class_named a.now owner)) value }
{
    if !own {
        return serves(a, x, TypeRef::Object(owner), value);
    }
    match value_type(x, value) {
        None => false,
        Some(t) => fits(a, t, TypeRef::Object(owner)) || fits(a, t, TypeRef::Object(this)),
    }
}

/// The same of the operand below the newest, if it is there.
#[inline]
fn written_serves_at<M: Copy>(
    a: &Ancestors<'_>,
    x: &Objects<'_>,
    frames: &Frames<M>,
    own: bool,
    this: ClassRef,
    owner: ClassRef,
) -> bool
    ensures { result ≡ one_serves (serves_in a.now x.now) (written own (class_named a.now this) (class_named a.now owner))
        (slice_get frames.now.newest.operands 1) }
{
    if 1 >= frames.count() {
        return false;
    }
    written_serves(a, x, own, this, owner, frames.operand(1))
}

/// Whether the operands of putfield serve, by the class by which the field is named and its type. `own` says whether it is one of those
/// that an `<init>` writes before another is called on `this`.
#[inline]
pub fn put_field_serves<M: Copy>(
    a: &Ancestors<'_>,
    x: &Objects<'_>,
    frames: &Frames<M>,
    own: bool,
    owner: ClassRef,
    held: TypeRef,
) -> bool
    ensures { (at : Site) (own_of : Member → Bool) (s : Store ℕ) (f : FieldMeaning) → IsStore a.now x.now s → at.world ≡ world a.now
        → at.class ≡ frames.now.newest.method.class → own_of f.member ≡ own → f.owner ≡ class_named a.now owner → f.held ≡ named a.now held
        → Serve at own_of s (meanings.Field ops.PutField f) frames.now.newest.operands result }
{
    heap_laws();
    let this = ClassRef::User(frames.method().class);
    if !serves_at(a, x, frames, held, 0) {
        return false;
    }
    written_serves_at(a, x, frames, own, this, owner)
}
