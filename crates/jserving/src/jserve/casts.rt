ghost use Rattle.std.specs.Prelude.{◌≡◌, ◌&&◌, ℕ, Bool, is_some, option_map, slice_get};
ghost use Rattle.jparts.specs.declared.jcode.names.CastOp.{CastOp};
ghost use Rattle.jparts.specs.jcode.InstructionForms.{compared};
ghost use Rattle.jsemantics.specs.jmachine.ObjectInstructions;
ghost use Rattle.jsemantics.specs.jmachine.TakenOperands.{taken, type_of};
ghost use Rattle.jsemantics.specs.jmachine.InstructionSites.{Site};
ghost use Rattle.jsemantics.specs.jmachine.Store.{Store};
ghost use Rattle.jsemantics.specs.jmachine.World.{world};
ghost use Rattle.jvalues.specs.declared.jnames.kinds.Kind.TheVariants as wanted;
ghost use Rattle.jrows.specs.jobjs.EntryOperands.{IsOne, Serve};
ghost use Rattle.jresolution.specs.declared.jprogram.member.Member.{Member};
ghost use Rattle.jresolution.specs.jprogram.ProgramClasses.{Program};
ghost use Rattle.jtyping.specs.jrule.ArrayRule;
ghost use Rattle.jtyping.specs.jrule.StackEffects;
ghost use Rattle.jtyping.specs.jrule.StackEffects.{Of, of_kinds};
ghost use Rattle.jtypes.specs.declared.vtype.VType.{VType};
ghost use Rattle.jresolution.specs.juses.InstructionMeanings as meanings;
ghost use Rattle.jresolution.specs.juses.InternedTypes.{array_named, element_named, named};
ghost use Rattle.jtypes.specs.DescriptorElements;
ghost use Rattle.jserving.specs.jserve.OperandChecks.{ServeThrown, one_serves, serves_in};
ghost use Rattle.jserving.specs.jserve.ValueTypes.{IsStore, type_in};
ghost use Rattle.jsemantics.specs.jmachine.ObjectInstructions.{is_one};
ghost use Rattle.jtyping.specs.jrule.ArrayRule.{component};

use crate::jfits::{Ancestors, is_instance};
use crate::jserve::serving::serves_at;
use crate::jserve::values::{Objects, value_type};
use jlib::{LibClass, Thrown};
use jparts::jcode::RefTest;
use jresolution::jprogram::ClassRef;
use jresolution::juses::{ArrayRef, ElementRef, TypeRef};
use jruntime::jstate::{Frames, heap_laws};
use jvalues::jops::Value;

// ---- references

/// Whether a type is a reference's.
#[inline]
fn is_ref(t: TypeRef) -> bool
    ensures { (p : Program) → result ≡ StackEffects.is_ref (named p t) }
{
    match t {
        TypeRef::Null => true,
        TypeRef::Object(_) => true,
        TypeRef::Array(_) => true,
        _ => false,
    }
}

/// Whether a value is null, or names an object that may be used.
#[inline]
#[tactic(auto, using(crate::proofs::JserveProofs::ReferenceTypes::no_ref, crate::proofs::JserveProofs::ReferenceTypes::ref_typed))]
fn is_reference(x: &Objects<'_>, value: Value) -> bool
    ensures { (p : Program) → result ≡ serves_in p x.now (Of wanted.Ref) value }
{
    match value_type(x, value) {
        None => false,
        Some(t) => is_ref(t),
    }
}

/// The same of the operand at a place, counted from the newest, if it is there.
#[inline]
pub(crate) fn ref_at<M: Copy>(x: &Objects<'_>, frames: &Frames<M>, i: usize) -> bool
    ensures { (p : Program) → result ≡ one_serves (serves_in p x.now) (Of wanted.Ref) (slice_get frames.now.newest.operands i) }
{
    if i >= frames.count() {
        return false;
    }
    is_reference(x, frames.operand(i))
}

/// Whether the two newest operands are such.
#[inline]
fn both_refs<M: Copy>(x: &Objects<'_>, frames: &Frames<M>) -> bool
    ensures { (p : Program) → result ≡ (one_serves (serves_in p x.now) (Of wanted.Ref) (slice_get frames.now.newest.operands 0)
        && one_serves (serves_in p x.now) (Of wanted.Ref) (slice_get frames.now.newest.operands 1)) }
{
    if !ref_at(x, frames, 0) {
        return false;
    }
    ref_at(x, frames, 1)
}

/// Whether the operand of a cast or of instanceof serves: it is a reference.
#[inline]
pub fn ref_serves<M: Copy>(x: &Objects<'_>, frames: &Frames<M>) -> bool
    ensures { (p : Program) (at : Site) (own : Member → Bool) (s : Store ℕ) (op : CastOp) (t : VType) → IsStore p x.now s → at.world ≡ world p
        → Serve at own s (meanings.Cast op t) frames.now.newest.operands result }
{
    heap_laws();
    ref_at(x, frames, 0)
}

/// Whether the operands of a branch that tests references serve (JVMS 6.5: if_acmpeq, if_acmpne, ifnull, ifnonnull).
#[inline]
pub fn refs_serve<M: Copy>(x: &Objects<'_>, frames: &Frames<M>, test: RefTest) -> bool
    ensures { (p : Program) (s : Store ℕ) → IsStore p x.now s
        → is_some (taken (world p) s (of_kinds (compared test)) frames.now.newest.operands) ≡ result }
{
    heap_laws();
    match test {
        RefTest::Same => both_refs(x, frames),
        RefTest::Other => both_refs(x, frames),
        RefTest::Null => ref_at(x, frames, 0),
        RefTest::NonNull => ref_at(x, frames, 0),
    }
}

/// Whether what is thrown serves: the newest operand is null, or an object that can be thrown.
#[inline]
pub fn thrown_serves<M: Copy>(a: &Ancestors<'_>, x: &Objects<'_>, frames: &Frames<M>) -> bool
    ensures { (at : Site) (s : Store ℕ) → IsStore a.now x.now s → at.world ≡ world a.now → ServeThrown at s frames.now.newest.operands result }
{
    heap_laws();
    let throwable = ClassRef::Lib(LibClass::Thrown(Thrown::Throwable));
    serves_at(a, x, frames, TypeRef::Object(throwable), 0)
}

// ---- whether an object is one of a type

/// Whether what a value names is one of a type.
#[inline]
#[tactic(auto, using(crate::proofs::JserveProofs::ReferenceTypes::none_is, crate::proofs::JserveProofs::ReferenceTypes::some_is), unfolding(jsemantics::specs::jmachine::World::world),)]
fn value_is(a: &Ancestors<'_>, x: &Objects<'_>, value: Value, t: TypeRef) -> bool
    ensures { result ≡ ObjectInstructions.is_one (world a.now) (named a.now t) (option_map (named a.now) (type_in x.now value)) }
{
    match value_type(x, value) {
        None => false,
        Some(own) => is_instance(a, own, t),
    }
}

/// Whether the object that the newest operand names is one of a type (JVMS 6.5: checkcast, instanceof).
#[inline]
pub fn is_one<M: Copy>(a: &Ancestors<'_>, x: &Objects<'_>, frames: &Frames<M>, t: TypeRef) -> bool
    ensures { (s : Store ℕ) → IsStore a.now x.now s → IsOne (world a.now) s (named a.now t) (slice_get frames.now.newest.operands 0) result }
{
    heap_laws();
    if frames.count() < 1 {
        return false;
    }
    value_is(a, x, frames.operand(0), t)
}

// ---- stores into arrays

/// The type of an element outside of arrays.
#[inline]
fn alone(x: ElementRef) -> TypeRef
    ensures { (p : Program) → named p result ≡ DescriptorElements.alone (element_named p x) }
{
    match x {
        ElementRef::Class(c) => TypeRef::Object(c),
        ElementRef::Long => TypeRef::Long,
        ElementRef::Boolean => TypeRef::Int,
        ElementRef::Char => TypeRef::Int,
        ElementRef::Byte => TypeRef::Int,
        ElementRef::Short => TypeRef::Int,
        ElementRef::Int => TypeRef::Int,
    }
}

/// What an array holds.
#[inline]
#[tactic(auto, using(crate::proofs::JserveProofs::ReferenceTypes::one_dimension, crate::proofs::JserveProofs::ReferenceTypes::more_dimensions))]
fn component(array: ArrayRef) -> TypeRef
    ensures { (p : Program) → named p result ≡ ArrayRule.component (array_named p array) }
{
    if array.depth <= 1 {
        return alone(array.element);
    }
    TypeRef::Array(ArrayRef {
        depth: array.depth - 1,
        element: array.element,
    })
}

/// Whether a value may be stored into an array of a type (JVMS 6.5: aastore).
#[inline]
pub fn is_stored(a: &Ancestors<'_>, x: &Objects<'_>, value: Value, array: ArrayRef) -> bool
    ensures { (s : Store ℕ) → IsStore a.now x.now s → result ≡ is_one (world a.now) (component (array_named a.now array))
        (type_of (world a.now) s value) }
{
    heap_laws();
    value_is(a, x, value, component(array))
}
