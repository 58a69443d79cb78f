ghost use Rattle.std.specs.Prelude.{◌≡◌, ℕ, IfSome, List, Some, map, slice_get, true};
ghost use Rattle.jvalues.specs.declared.jnames.kinds.Kind.{Kind};
ghost use Rattle.jparts.specs.declared.jpool.entry.Entry.{Entry};
ghost use Rattle.jparts.specs.declared.jcode.op_form.OpForm.TheVariants as forms;
ghost use Rattle.jparts.specs.jcode.InstructionForms.{form};
ghost use Rattle.jtypes.specs.TypeFrames;
ghost use Rattle.jresolution.specs.juses.InternedTypes.{named};
ghost use Rattle.jtyping.specs.jrule.FormRules.{by_form};
ghost use Rattle.jtyping.specs.jrule.InstructionContext.{Here};
ghost use Rattle.jtyping.specs.jrule.LocalRule as rule;
ghost use Rattle.jtyping.specs.ProofNames;
ghost use Rattle.jtyping.specs.jrule.InternedFrames.{seen};
ghost use Rattle.jverify.specs.FrameFacts.{Rests};

use crate::declared::is_long;
use crate::held::is_quiet;
use jparts::jcode::{Access, LocalForm, Op, OpForm, form_of};
use jresolution::jprogram::NamedProgram;
use jresolution::juses::{ArrayRef, ElementRef, TypeRef};
use jtyping::jrule::{FrameRef, Locals};

fn is_long_at(p: &NamedProgram, locals: &Locals, n: usize) -> bool
    ensures { result ≡ rule.passes TypeFrames.is_long (slice_get (map (named p.now) locals.now) n) }
{
    match locals.get(n) {
        Some(t) => matches!(t, TypeRef::Long),
        None => false,
    }
}

/// Whether no long begins in front of a local.
#[tactic(auto, using(crate::proofs::LocalStores::unbroken_at))]
fn is_unbroken(p: &NamedProgram, locals: &Locals, n: usize) -> bool
    ensures { result ≡ true → rule.broken (map (named p.now) locals.now) n ≡ map (named p.now) locals.now }
{
    if n == 0 {
        return true;
    }
    if is_long_at(p, locals, n - 1) {
        return false;
    }
    true
}

fn are_one_element(x: ElementRef, y: ElementRef) -> bool
    ensures { result ≡ true → x ≡ y }
{
    x == y
}

fn are_one_array(x: ArrayRef, y: ArrayRef) -> bool
    ensures { result ≡ true → x ≡ y }
{
    x.depth == y.depth && are_one_element(x.element, y.element)
}

/// Whether two types are one. It goes by cases, so that a proof sees it.
fn are_one(a: TypeRef, b: TypeRef) -> bool
    ensures { result ≡ true → a ≡ b }
{
    match a {
        TypeRef::Top => matches!(b, TypeRef::Top),
        TypeRef::Int => matches!(b, TypeRef::Int),
        TypeRef::Long => matches!(b, TypeRef::Long),
        TypeRef::Null => matches!(b, TypeRef::Null),
        TypeRef::UninitThis => matches!(b, TypeRef::UninitThis),
        TypeRef::Uninit(o) => match b {
            TypeRef::Uninit(q) => o == q,
            _ => false,
        },
        TypeRef::Object(c) => match b {
            TypeRef::Object(d) => c == d,
            _ => false,
        },
        TypeRef::Array(x) => match b {
            TypeRef::Array(y) => are_one_array(x, y),
            _ => false,
        },
        TypeRef::Ctx => matches!(b, TypeRef::Ctx),
    }
}

/// Whether a local has a type.
fn has(locals: &Locals, n: usize, kind: TypeRef) -> bool
    ensures { result ≡ true → slice_get locals.now n ≡ Some kind }
{
    match locals.get(n) {
        Some(t) => are_one(t, kind),
        None => false,
    }
}

/// Whether locals stay as they are where a type is put to one of them: it has that type, which takes one place, and no long begins in
/// front of it.
#[tactic(auto, using(crate::proofs::LocalStores::stays_put))]
fn stays(p: &NamedProgram, locals: &Locals, n: usize, kind: TypeRef) -> bool
    ensures { result ≡ true → rule.with_local (map (named p.now) locals.now) n (named p.now kind) ≡ map (named p.now) locals.now }
{
    if is_long(p, kind) {
        return false;
    }
    if !is_unbroken(p, locals, n) {
        return false;
    }
    has(locals, n, kind)
}

/// Whether a store to a local leaves the locals as they are.
fn store_rests(p: &NamedProgram, n: u16, f: &FrameRef) -> bool
    ensures { result ≡ true → (k : Kind) → Rests (seen p.now f.now) (ProofNames.store k n (seen p.now f.now)) }
{
    let Some((kind, _rest)) = f.stack.as_slice().split_last() else {
        return false;
    };
    stays(p, &f.locals, usize::from(n), *kind)
}

/// Whether an instruction with a local is a store that leaves the locals as they are.
fn local_rests(p: &NamedProgram, form: LocalForm, f: &FrameRef) -> bool
    ensures { result ≡ true → (most : ℕ) → Rests (seen p.now f.now) (rule.local most form (seen p.now f.now)) }
{
    match form {
        LocalForm::Move(access, _, n) => match access {
            Access::Store => store_rests(p, n, f),
            Access::Load => false,
        },
        LocalForm::Increment(_, _) => false,
    }
}

/// The form of an instruction with a local, if it is one.
fn local_of(op: &Op) -> Option<LocalForm>
    ensures { IfSome result (λ l. form op.now ≡ forms.Local l) }
{
    match form_of(op) {
        OpForm::Local(form) => Some(form),
        _ => None,
    }
}

/// Whether the frame behind an instruction has the locals and the flag of the one before it.
pub(crate) fn rests(p: &NamedProgram, op: &Op, f: &FrameRef) -> bool
    ensures { result ≡ true → (here : Here) (pool : List Entry)
        → Rests (seen p.now f.now) (by_form p.now here pool (form op.now) (seen p.now f.now)) }
{
    if is_quiet(op) {
        return true;
    }
    match local_of(op) {
        Some(form) => local_rests(p, form, f),
        None => false,
    }
}
