ghost use Rattle.std.specs.Prelude.{◌≡◌, IfOk, map, option_map};
ghost use Rattle.std.specs.Option.{option_to_list};
ghost use Rattle.jparts.specs.jcode.InstructionForms;
ghost use Rattle.jresolution.specs.jprogram.ProgramClasses.{tree};
ghost use Rattle.jresolution.specs.juses.InternedTypes.{named};
ghost use Rattle.jtyping.specs.jrule.StackEffects.{Fits};
ghost use Rattle.jtyping.specs.jrule.StackOperands.{taken};
ghost use Rattle.jtyping.specs.jrule.InternedFrames.{seen};
ghost use Rattle.jtyping.specs.jrule.BasicRule;
ghost use Rattle.jtyping.specs.ProofNames;

use crate::jrule::frame::FrameRef;
use crate::jrule::kinds::is_ref;
use crate::jrule::operands::{exchange, take_fitting, take_kind, take_kinds};
use jlib::{LibClass, Thrown};
use jparts::jcode::{Flow, OpForm, RefTest, Returned, Simple, effect_of};
use jresolution::jprogram::{ClassRef, NamedProgram};
use jresolution::juses::TypeRef;
use jvalues::jnames::{Kind, Kinds};
use std::alloc::AllocError;

/// The frame behind an instruction with operands alone (JVMS 4.10.1.9); none where it lacks them, or room.
#[tactic(auto, unfolding(jparts::specs::jcode::InstructionForms::effect))]
pub fn simple(
    p: &NamedProgram,
    most: u16,
    form: Simple,
    f: FrameRef,
) -> Result<Option<FrameRef>, AllocError>
    ensures { IfOk result (λ r. option_map (seen p.now) r ≡ BasicRule.simple (tree p.now) most form (seen p.now f)) }
{
    let Some(effect) = effect_of(&OpForm::<()>::Simple(form)) else {
        return Ok(None);
    };
    exchange(p, most, effect, f)
}

// ---- returns and throws

/// Whether what is returned is what the method returns.
fn returns(p: &NamedProgram, kind: Returned, ret: Option<TypeRef>) -> bool
    ensures { result ≡ BasicRule.returns kind (option_map (named p.now) ret) }
{
    match ret {
        None => matches!(kind, Returned::Nothing),
        Some(TypeRef::Int) => matches!(kind, Returned::Int),
        Some(TypeRef::Long) => matches!(kind, Returned::Long),
        Some(t) => match kind {
            Returned::Ref => is_ref(p, t),
            _ => false,
        },
    }
}

fn may_leave(is_init: bool, kind: Returned, flag: bool) -> bool
    ensures { result ≡ BasicRule.may_leave is_init kind flag }
{
    match kind {
        Returned::Nothing => !(is_init && flag),
        _ => true,
    }
}

#[tactic(auto, using(crate::proofs::JruleProofs::OperandPops::taken_none))]
fn take_returned(p: &NamedProgram, ret: Option<TypeRef>, f: FrameRef) -> Option<FrameRef>
    ensures { option_map (seen p.now) result ≡ taken (tree p.now) (map Fits (option_to_list (option_map (named p.now) ret))) (seen p.now f) }
{
    match ret {
        None => Some(f),
        Some(t) => take_fitting(p, t, f),
    }
}

fn leave(
    p: &NamedProgram,
    is_init: bool,
    ret: Option<TypeRef>,
    kind: Returned,
    f: FrameRef,
) -> Option<FrameRef>
    ensures { option_map (seen p.now) result ≡ BasicRule.leave (tree p.now) is_init (option_map (named p.now) ret) kind (seen p.now f) }
{
    if !returns(p, kind, ret) {
        return None;
    }
    if !may_leave(is_init, kind, f.flag) {
        return None;
    }
    take_returned(p, ret, f)
}

fn throw(p: &NamedProgram, f: FrameRef) -> Option<FrameRef>
    ensures { option_map (seen p.now) result ≡ ProofNames.throw (tree p.now) (seen p.now f) }
{
    take_fitting(
        p,
        TypeRef::Object(ClassRef::Lib(LibClass::Thrown(Thrown::Throwable))),
        f,
    )
}

// ---- all

fn compared(test: RefTest) -> Kinds
    ensures { result ≡ InstructionForms.compared test }
{
    match test {
        RefTest::Same | RefTest::Other => Kinds::Two(Kind::Ref, Kind::Ref),
        RefTest::Null | RefTest::NonNull => Kinds::One(Kind::Ref),
    }
}

/// The frame behind an instruction that jumps, returns or throws (JVMS 4.10.1.9), wherever it leads; none where it lacks an operand, or
/// where the method doesn't return so. `ret` is the type of what the method returns, and `is_init` says that it is an `<init>`.
pub fn flow<S>(
    p: &NamedProgram,
    is_init: bool,
    ret: Option<TypeRef>,
    form: &Flow<S>,
    f: FrameRef,
) -> Option<FrameRef>
    ensures { option_map (seen p.now) result ≡ BasicRule.flow (tree p.now) is_init (option_map (named p.now) ret) form.now (seen p.now f) }
{
    match form {
        Flow::If(_, _) => take_kind(p, Kind::Int, f),
        Flow::IfInt(_, _) => take_kinds(p, Kinds::Two(Kind::Int, Kind::Int), f),
        Flow::IfRef(test, _) => take_kinds(p, compared(*test), f),
        Flow::Goto(_) => take_kinds(p, Kinds::None, f),
        Flow::Switch(_) => take_kind(p, Kind::Int, f),
        Flow::Return(kind) => leave(p, is_init, ret, *kind, f),
        Flow::Throw => throw(p, f),
    }
}
