ghost use Rattle.std.specs.Prelude.{◌≡◌, List, option_and_then, option_map};
ghost use Rattle.jparts.specs.declared.jpool.entry.Entry.{Entry};
ghost use Rattle.jresolution.specs.jprogram.ProgramClasses.{Program};
ghost use Rattle.jresolution.specs.declared.juses.types.TypeRef.{TypeRef};
ghost use Rattle.jresolution.specs.juses.InstructionMeanings;
ghost use Rattle.jresolution.specs.ProofNames;
ghost use Rattle.jresolution.specs.juses.InstructionMeanings.{meaning_of};
ghost use Rattle.jresolution.specs.juses.PoolTables.{kept_named};
ghost use Rattle.jresolution.specs.juses.InternedTypes.{named};

use crate::juses::entries::Kept;
use crate::juses::meaning::{Constant, InvokeKind, Use};
use crate::juses::types::TypeRef;
use crate::juses::typing::array_over;
use jparts::jcode::{CallOp, CastOp, FieldOp, PoolForm};

fn short_constant(kept: Kept) -> Option<Use>
    ensures { (p : Program) (pool : List Entry) (types : List TypeRef)
        → option_map (meaning_of p pool types) result ≡ option_and_then ProofNames.short_constant (kept_named p pool types kept) }
{
    match kept {
        Kept::Constant(Constant::Int(n)) => Some(Use::Push(Constant::Int(n))),
        Kept::Constant(Constant::Text(i)) => Some(Use::Push(Constant::Text(i))),
        _ => None,
    }
}

fn long_constant(kept: Kept) -> Option<Use>
    ensures { (p : Program) (pool : List Entry) (types : List TypeRef)
        → option_map (meaning_of p pool types) result ≡ option_and_then ProofNames.long_constant (kept_named p pool types kept) }
{
    match kept {
        Kept::Constant(Constant::Long(n)) => Some(Use::Push(Constant::Long(n))),
        _ => None,
    }
}

fn field_used(op: FieldOp, kept: Kept) -> Option<Use>
    ensures { (p : Program) (pool : List Entry) (types : List TypeRef)
        → option_map (meaning_of p pool types) result ≡ option_and_then (ProofNames.field_used op) (kept_named p pool types kept) }
{
    match kept {
        Kept::Field(field) => Some(Use::Field(op, field)),
        _ => None,
    }
}

fn how_of(op: CallOp, is_init: bool) -> InvokeKind
    ensures { result ≡ InstructionMeanings.how_of op is_init }
{
    match op {
        CallOp::Virtual => InvokeKind::Virtual,
        CallOp::Special => {
            if is_init {
                return InvokeKind::Init;
            }
            InvokeKind::Special
        }
        CallOp::Static => InvokeKind::Static,
    }
}

fn called_by(op: CallOp, kept: Kept) -> Option<Use>
    ensures { (p : Program) (pool : List Entry) (types : List TypeRef)
        → option_map (meaning_of p pool types) result ≡ option_and_then (ProofNames.called_by op) (kept_named p pool types kept) }
{
    match kept {
        Kept::Method(is_init, call) => Some(Use::Call(how_of(op, is_init), call)),
        _ => None,
    }
}

fn called_by_interface(kept: Kept) -> Option<Use>
    ensures { (p : Program) (pool : List Entry) (types : List TypeRef)
        → option_map (meaning_of p pool types) result
        ≡ option_and_then ProofNames.called_by_interface (kept_named p pool types kept) }
{
    match kept {
        Kept::Method(_, call) => Some(Use::Call(InvokeKind::Interface, call)),
        _ => None,
    }
}

fn made(kept: Kept) -> Option<Use>
    ensures { (p : Program) (pool : List Entry) (types : List TypeRef)
        → option_map (meaning_of p pool types) result ≡ option_and_then ProofNames.made (kept_named p pool types kept) }
{
    match kept {
        Kept::Class(TypeRef::Object(class)) => Some(Use::Make(class)),
        _ => None,
    }
}

/// What an instruction that makes an array means by an entry of which this is kept.
pub(crate) fn array_made(kept: Kept) -> Option<Use>
    ensures { (p : Program) (pool : List Entry) (types : List TypeRef)
        → option_map (meaning_of p pool types) result ≡ option_and_then ProofNames.array_made (kept_named p pool types kept) }
{
    match kept {
        Kept::Class(t) => {
            let array = array_over(t)?;
            Some(Use::MakeArray(array))
        }
        _ => None,
    }
}

fn cast_by(op: CastOp, kept: Kept) -> Option<Use>
    ensures { (p : Program) (pool : List Entry) (types : List TypeRef)
        → option_map (meaning_of p pool types) result ≡ option_and_then (ProofNames.cast_by op) (kept_named p pool types kept) }
{
    match kept {
        Kept::Class(t) => Some(Use::Cast(op, t)),
        _ => None,
    }
}

/// The type of a class of which this is kept.
pub(crate) fn class_in(kept: Kept) -> Option<TypeRef>
    ensures { (p : Program) (pool : List Entry) (types : List TypeRef)
        → option_map (named p) result ≡ option_and_then ProofNames.as_class (kept_named p pool types kept) }
{
    match kept {
        Kept::Class(t) => Some(t),
        _ => None,
    }
}

/// What an instruction means by an entry of which this is kept.
pub(crate) fn used(form: PoolForm, kept: Kept) -> Option<Use>
    ensures { (p : Program) (pool : List Entry) (types : List TypeRef)
        → option_map (meaning_of p pool types) result ≡ option_and_then (InstructionMeanings.used form) (kept_named p pool types kept) }
{
    match form {
        PoolForm::Constant(_) => short_constant(kept),
        PoolForm::LongConstant(_) => long_constant(kept),
        PoolForm::Field(op, _) => field_used(op, kept),
        PoolForm::Call(op, _) => called_by(op, kept),
        PoolForm::CallInterface(_, _) => called_by_interface(kept),
        PoolForm::New(_) => made(kept),
        PoolForm::Cast(op, _) => cast_by(op, kept),
    }
}

/// The index that a form has.
pub(crate) fn index_of(form: PoolForm) -> u16
    ensures { result ≡ InstructionMeanings.index_of form }
{
    match form {
        PoolForm::Constant(i) => i,
        PoolForm::LongConstant(i) => i,
        PoolForm::Field(_, i) => i,
        PoolForm::Call(_, i) => i,
        PoolForm::CallInterface(i, _) => i,
        PoolForm::New(i) => i,
        PoolForm::Cast(_, i) => i,
    }
}
