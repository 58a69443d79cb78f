ghost use Rattle.std.specs.Prelude.{◌≡◌, ◌+◌, ◌<◌, ◌≤◌, IfOk, length, map, nat_le, option_map, slice_get};
ghost use Rattle.jparts.specs.jcode.InstructionForms as forms;
ghost use Rattle.jresolution.specs.juses.InternedTypes.{named};
ghost use Rattle.jtypes.specs.TypeFrames;
ghost use Rattle.jtyping.specs.jrule.LocalRule as rule;
ghost use Rattle.jtyping.specs.ProofNames;
ghost use Rattle.jtyping.specs.jrule.InternedFrames.{seen};
ghost use Rattle.jtyping.specs.jrule.OperandSlots.{size};

use crate::jrule::frame::FrameRef;
use crate::jrule::kept::Locals;
use crate::jrule::kinds::is_of;
use crate::jrule::operands::put;
use jparts::jcode::{Access, LocalForm, LocalKind};
use jresolution::jprogram::NamedProgram;
use jresolution::juses::TypeRef;
use jvalues::jnames::Kind;
use std::alloc::AllocError;

fn kind_of(kind: LocalKind) -> Kind
    ensures { result ≡ forms.local kind }
{
    match kind {
        LocalKind::Int => Kind::Int,
        LocalKind::Long => Kind::Long,
        LocalKind::Ref => Kind::Held,
    }
}

/// The type of a local; none where it isn't there.
#[tactic(auto, using(crate::proofs::JruleProofs::LocalWrites::get_named))]
fn type_at(p: &NamedProgram, locals: &Locals, n: u16) -> Option<TypeRef>
    ensures { option_map (named p.now) result ≡ slice_get (map (named p.now) locals.now) n }
{
    locals.get(usize::from(n))
}

// ---- loads

fn is_top_at(p: &NamedProgram, locals: &Locals, n: usize) -> bool
    ensures { result ≡ rule.passes rule.is_top (slice_get (map (named p.now) locals.now) n) }
{
    match locals.get(n) {
        Some(t) => matches!(t, TypeRef::Top),
        None => false,
    }
}

/// Whether a local's value is there whole: a long takes the place behind it too.
fn is_whole(p: &NamedProgram, locals: &Locals, n: u16, t: TypeRef) -> bool
    ensures { result ≡ rule.is_whole (map (named p.now) locals.now) n (named p.now t) }
{
    match t {
        TypeRef::Long => is_top_at(p, locals, usize::from(n) + 1),
        _ => true,
    }
}

fn load(
    p: &NamedProgram,
    most: u16,
    kind: Kind,
    n: u16,
    f: FrameRef,
) -> Result<Option<FrameRef>, AllocError>
    ensures { IfOk result (λ r. option_map (seen p.now) r ≡ ProofNames.load most kind n (seen p.now f)) }
{
    let Some(t) = type_at(p, &f.locals, n) else {
        return Ok(None);
    };
    if !is_of(p, kind, t) {
        return Ok(None);
    }
    if !is_whole(p, &f.locals, n, t) {
        return Ok(None);
    }
    put(p, most, t, f)
}

// ---- stores

fn is_long_at(p: &NamedProgram, locals: &Locals, n: usize) -> bool
    ensures { result ≡ rule.passes TypeFrames.is_long (slice_get (map (named p.now) locals.now) n) }
{
    match locals.get(n) {
        Some(t) => matches!(t, TypeRef::Long),
        None => false,
    }
}

/// The locals without a long that begins in front of one.
#[tactic(auto, using(crate::proofs::JruleProofs::LocalWrites::set_named))]
fn broken(p: &NamedProgram, mut locals: Locals, n: usize) -> Result<Locals, AllocError>
    requires { n < length locals }
    ensures { IfOk result (λ r. map (named p.now) r ≡ rule.broken (map (named p.now) locals) n) }
{
    if n == 0 {
        return Ok(locals);
    }
    if is_long_at(p, &locals, n - 1) {
        locals.set(n - 1, TypeRef::Top)?;
        return Ok(locals);
    }
    Ok(locals)
}

/// The locals with a value from one on.
#[tactic(auto, using(crate::proofs::JruleProofs::LocalWrites::set_named), unfolding(crate::specs::jrule::LocalRule::with_local))]
fn with_local(p: &NamedProgram, locals: Locals, n: usize, t: TypeRef) -> Result<Locals, AllocError>
    requires { n + size t ≤ length locals }
    ensures { IfOk result (λ r. map (named p.now) r ≡ rule.with_local (map (named p.now) locals) n (named p.now t)) }
{
    let mut locals = broken(p, locals, n)?;
    locals.set(n, t)?;
    match t {
        TypeRef::Long => {
            locals.set(n + 1, TypeRef::Top)?;
            Ok(locals)
        }
        _ => Ok(locals),
    }
}

fn has_room(locals: &Locals, n: u16, t: TypeRef) -> bool
    ensures { result ≡ nat_le (n + size t) (length locals.now) }
{
    let n = usize::from(n);
    match t {
        TypeRef::Long => n + 2 <= locals.len(),
        _ => n < locals.len(),
    }
}

fn store(
    p: &NamedProgram,
    kind: Kind,
    n: u16,
    mut f: FrameRef,
) -> Result<Option<FrameRef>, AllocError>
    ensures { IfOk result (λ r. option_map (seen p.now) r ≡ ProofNames.store kind n (seen p.now f)) }
{
    let Some(t) = f.stack.pop() else {
        return Ok(None);
    };
    if !is_of(p, kind, t) {
        return Ok(None);
    }
    if !has_room(&f.locals, n, t) {
        return Ok(None);
    }
    let FrameRef {
        locals,
        stack,
        flag,
    } = f;
    let locals = with_local(p, locals, usize::from(n), t)?;
    Ok(Some(FrameRef {
        locals,
        stack,
        flag,
    }))
}

// ---- all

fn increment(p: &NamedProgram, n: u16, f: FrameRef) -> Option<FrameRef>
    ensures { option_map (seen p.now) result ≡ rule.increment n (seen p.now f) }
{
    let t = type_at(p, &f.locals, n)?;
    match t {
        TypeRef::Int => Some(f),
        _ => None,
    }
}

/// The frame behind an instruction with a local (JVMS 4.10.1.9); none where the local or the operand isn't of its kind, where the local
/// isn't there, or where there is no room.
pub fn local(
    p: &NamedProgram,
    most: u16,
    form: LocalForm,
    f: FrameRef,
) -> Result<Option<FrameRef>, AllocError>
    ensures { IfOk result (λ r. option_map (seen p.now) r ≡ rule.local most form (seen p.now f)) }
{
    match form {
        LocalForm::Move(Access::Load, kind, n) => load(p, most, kind_of(kind), n, f),
        LocalForm::Move(Access::Store, kind, n) => store(p, kind_of(kind), n, f),
        LocalForm::Increment(n, _) => Ok(increment(p, n, f)),
    }
}
