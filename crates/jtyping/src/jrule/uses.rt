ghost use Rattle.std.specs.Prelude.{◌≡◌, ◌∷◌, [], IfOk, map, option_map};
ghost use Rattle.jresolution.specs.jprogram.ProgramClasses.{tree};
ghost use Rattle.jresolution.specs.juses.InstructionMeanings.{field_named};
ghost use Rattle.jresolution.specs.juses.InternedTypes.{class_named, named};
ghost use Rattle.jtyping.specs.jrule.StackEffects.{Fits, Of, gives, meets};
ghost use Rattle.jtyping.specs.jrule.StackOperands.{exchanged, taken};
ghost use Rattle.jtyping.specs.jrule.TypingRule;
ghost use Rattle.jtyping.specs.jrule.InternedFrames.{constant_named, seen, seen_call};
ghost use Rattle.jtyping.specs.jrule.PoolEffects;
ghost use Rattle.jtyping.specs.ProofNames;

use crate::jrule::frame::FrameRef;
use crate::jrule::operands::{give, put, take_arguments, take_fitting, take_kind};
use crate::jrule::place::TypingContext;
use jlib::LibClass;
use jparts::jcode::{CastOp, FieldOp};
use jresolution::jprogram::{ClassRef, Member, NamedProgram};
use jresolution::juses::{CallUse, Constant, FieldUse, InvokeKind, TypeRef, type_fits};
use jvalues::jnames::Kind;
use std::alloc::AllocError;

// ---- constants, casts and arrays

fn type_of(p: &NamedProgram, constant: Constant) -> TypeRef
    ensures { named p.now result ≡ constant_named constant }
{
    match constant {
        Constant::Int(_) => TypeRef::Int,
        Constant::Long(_) => TypeRef::Long,
        Constant::Text(_) => TypeRef::Object(ClassRef::Lib(LibClass::String)),
    }
}

/// The frame behind an instruction that pushes a constant by an entry of the pool (JVMS 4.10.1.9, ldc); none where there is no room.
#[tactic(auto, using(crate::proofs::JruleProofs::OperandPops::taken_none))]
pub fn constant(
    p: &NamedProgram,
    most: u16,
    constant: Constant,
    f: FrameRef,
) -> Result<Option<FrameRef>, AllocError>
    ensures { IfOk result (λ r. option_map (seen p.now) r ≡ exchanged (tree p.now) most (gives [] (constant_named constant)) (seen p.now f)) }
{
    put(p, most, type_of(p, constant), f)
}

/// The frame behind an instruction that makes an array of a type (JVMS 4.10.1.9, anewarray); none where no int is the newest operand.
pub fn make_array(
    p: &NamedProgram,
    most: u16,
    t: TypeRef,
    f: FrameRef,
) -> Result<Option<FrameRef>, AllocError>
    ensures { IfOk result (λ r. option_map (seen p.now) r ≡ exchanged (tree p.now) most (gives (Of Kind.Int ∷ []) (named p.now t)) (seen p.now f)) }
{
    let Some(f) = take_kind(p, Kind::Int, f) else {
        return Ok(None);
    };
    put(p, most, t, f)
}

/// The frame behind a test that a reference is of a type (JVMS 4.10.1.9, checkcast and instanceof); none where no reference is the newest
/// operand.
pub fn cast(
    p: &NamedProgram,
    most: u16,
    op: CastOp,
    t: TypeRef,
    f: FrameRef,
) -> Result<Option<FrameRef>, AllocError>
    ensures { IfOk result (λ r. option_map (seen p.now) r ≡ exchanged (tree p.now) most (ProofNames.of_cast op (named p.now t)) (seen p.now f)) }
{
    let Some(f) = take_kind(p, Kind::Ref, f) else {
        return Ok(None);
    };
    match op {
        CastOp::CheckCast => put(p, most, t, f),
        CastOp::InstanceOf => put(p, most, TypeRef::Int, f),
    }
}

// ---- fields

/// Whether a field may be written while `this` isn't initialised: in an `<init>`, one that the class itself declares.
fn is_own(p: &NamedProgram, is_init: bool, this: ClassRef, member: Member) -> bool
    ensures { result ≡ TypingRule.is_own p.now is_init (class_named p.now this) member }
{
    if !is_init {
        return false;
    }
    p.declares(this, member)
}

/// Whether a type serves as the object whose field is written.
fn is_written(p: &NamedProgram, own: bool, this: ClassRef, owner: ClassRef, t: TypeRef) -> bool
    ensures { result ≡ meets (tree p.now) (PoolEffects.written own (class_named p.now this) (class_named p.now owner)) (named p.now t) }
{
    match t {
        TypeRef::UninitThis => own,
        _ => type_fits(p, t, TypeRef::Object(owner)),
    }
}

#[tactic(auto, unfolding(crate::specs::jrule::StackOperands::taken, crate::specs::jrule::StackOperands::below))]
fn take_written(
    p: &NamedProgram,
    own: bool,
    this: ClassRef,
    owner: ClassRef,
    mut f: FrameRef,
) -> Option<FrameRef>
    ensures { option_map (seen p.now) result
        ≡ taken (tree p.now) (PoolEffects.written own (class_named p.now this) (class_named p.now owner) ∷ []) (seen p.now f) }
{
    let object = f.stack.pop()?;
    if !is_written(p, own, this, owner, object) {
        return None;
    }
    Some(f)
}

#[tactic(auto, using(crate::proofs::JruleProofs::OperandPops::taken_more))]
fn put_field(
    p: &NamedProgram,
    is_init: bool,
    this: ClassRef,
    field: &FieldUse,
    f: FrameRef,
) -> Option<FrameRef>
    ensures { option_map (seen p.now) result
        ≡ taken (tree p.now)
        (Fits (named p.now field.now.held)
        ∷ PoolEffects.written (TypingRule.is_own p.now is_init (class_named p.now this) field.now.member) (class_named p.now this)
        (class_named p.now field.now.owner) ∷ [])
        (seen p.now f) }
{
    let f = take_fitting(p, field.held, f)?;
    let own = is_own(p, is_init, this, field.member);
    take_written(p, own, this, field.owner, f)
}

fn get_field(
    p: &NamedProgram,
    most: u16,
    field: &FieldUse,
    f: FrameRef,
) -> Result<Option<FrameRef>, AllocError>
    ensures { IfOk result (λ r. option_map (seen p.now) r
        ≡ exchanged (tree p.now) most (gives (Fits (named p.now (TypeRef.Object field.now.owner)) ∷ []) (named p.now field.now.held))
        (seen p.now f)) }
{
    let Some(f) = take_fitting(p, TypeRef::Object(field.owner), f) else {
        return Ok(None);
    };
    put(p, most, field.held, f)
}

/// The frame behind an instruction with a field (JVMS 4.10.1.9); none where the operands don't fit, or where there is no room. In an
/// `<init>` a field that the class itself declares may be written while `this` isn't initialised.
#[tactic(auto, using(crate::proofs::JruleProofs::OperandPops::taken_none))]
pub fn field(
    p: &NamedProgram,
    here: &TypingContext,
    op: FieldOp,
    field: &FieldUse,
    f: FrameRef,
) -> Result<Option<FrameRef>, AllocError>
    ensures { IfOk result (λ r. let this = class_named p.now (ClassRef.User here.now.class) in option_map (seen p.now) r
        ≡ exchanged (tree p.now) here.now.max_stack
        (PoolEffects.of_field (TypingRule.is_own p.now here.now.is_init this) this op (field_named p.now field.now)) (seen p.now f)) }
{
    match op {
        FieldOp::GetStatic => put(p, here.max_stack, field.held, f),
        FieldOp::PutStatic => Ok(take_fitting(p, field.held, f)),
        FieldOp::GetField => get_field(p, here.max_stack, field, f),
        FieldOp::PutField => Ok(put_field(p, here.is_init, here.this(), field, f)),
    }
}

// ---- calls

#[tactic(auto, using(crate::proofs::JruleProofs::OperandPops::taken_none))]
fn take_receiver(
    p: &NamedProgram,
    this: ClassRef,
    by: InvokeKind,
    owner: ClassRef,
    f: FrameRef,
) -> Option<FrameRef>
    ensures { option_map (seen p.now) result
        ≡ taken (tree p.now) (PoolEffects.receiver (class_named p.now this) by (class_named p.now owner)) (seen p.now f) }
{
    match by {
        InvokeKind::Virtual | InvokeKind::Interface => take_fitting(p, TypeRef::Object(owner), f),
        InvokeKind::Special => take_fitting(p, TypeRef::Object(this), f),
        InvokeKind::Static | InvokeKind::Init => Some(f),
    }
}

/// The frame behind a call (JVMS 4.10.1.9), `<init>` aside; none where the object or the arguments don't fit, or where there is no room.
/// `params` are the types of its parameters, the newest first.
#[tactic(auto, using(crate::proofs::JruleProofs::OperandPops::taken_both))]
pub fn call(
    p: &NamedProgram,
    here: &TypingContext,
    by: InvokeKind,
    call: &CallUse,
    params: &[TypeRef],
    f: FrameRef,
) -> Result<Option<FrameRef>, AllocError>
    ensures { IfOk result (λ r. option_map (seen p.now) r
        ≡ exchanged (tree p.now) here.now.max_stack
        (PoolEffects.of_call (class_named p.now (ClassRef.User here.now.class)) by (seen_call p.now call.now params.now)) (seen p.now f)) }
{
    let Some(f) = take_arguments(p, params, f) else {
        return Ok(None);
    };
    let Some(f) = take_receiver(p, here.this(), by, call.owner, f) else {
        return Ok(None);
    };
    give(p, here.max_stack, call.ret, f)
}
