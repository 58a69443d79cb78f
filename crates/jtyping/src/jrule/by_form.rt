ghost use Rattle.std.specs.Prelude.{◌≡◌, IfOk, option_map};
ghost use Rattle.jresolution.specs.juses.InstructionMeanings.{array_meant, call_named, meaning_of, meant};
ghost use Rattle.jresolution.specs.juses.PoolTables.{pool_at};
ghost use Rattle.jresolution.specs.juses.EntryUses.{AreUses};
ghost use Rattle.jtyping.specs.jrule.FormRules;
ghost use Rattle.jtyping.specs.jrule.TypingRule;
ghost use Rattle.jtyping.specs.jrule.InternedFrames.{seen, seen_here};

use crate::jrule::arrays::array;
use crate::jrule::frame::FrameRef;
use crate::jrule::locals::local;
use crate::jrule::moves::shuffle;
use crate::jrule::objects::{init, make};
use crate::jrule::place::{News, TypingContext};
use crate::jrule::straight::{flow, simple};
use crate::jrule::uses::{call, cast, constant, field, make_array};
use jparts::jcode::{ArrayForm, OpForm, PoolForm};
use jresolution::jprogram::NamedProgram;
use jresolution::juses::{CallUse, InvokeKind, Use, Uses};
use std::alloc::AllocError;

// ---- what an entry of the pool means

fn use_of(p: &NamedProgram, uses: &Uses, class: u32, form: PoolForm) -> Option<Use>
    requires { AreUses p.now uses.now }
    ensures { option_map (meaning_of p.now (pool_at p.now class) uses.now.types) result ≡ meant p.now (pool_at p.now class) form }
{
    uses.use_at(class, form)
}

fn array_use_of(p: &NamedProgram, uses: &Uses, class: u32, i: u16) -> Option<Use>
    requires { AreUses p.now uses.now }
    ensures { option_map (meaning_of p.now (pool_at p.now class) uses.now.types) result ≡ array_meant p.now (pool_at p.now class) i }
{
    uses.array_use_at(class, i)
}

// ---- by what it means

#[tactic(auto, unfolding(crate::specs::jrule::PoolEffects::exchange))]
fn called<N: News>(
    p: &NamedProgram,
    uses: &Uses,
    here: &TypingContext,
    news: &N,
    by: InvokeKind,
    c: &CallUse,
    f: FrameRef,
) -> Result<Option<FrameRef>, AllocError>
    ensures { IfOk result (λ r. option_map (seen p.now) r
        ≡ TypingRule.called p.now (seen_here p.now (N.makes news.now) here.now) by (call_named p.now uses.now.types c.now) (seen p.now f)) }
{
    let params = uses.params(c.params);
    match by {
        InvokeKind::Virtual => call(p, here, InvokeKind::Virtual, c, params, f),
        InvokeKind::Special => call(p, here, InvokeKind::Special, c, params, f),
        InvokeKind::Static => call(p, here, InvokeKind::Static, c, params, f),
        InvokeKind::Interface => call(p, here, InvokeKind::Interface, c, params, f),
        InvokeKind::Init => init(p, here, news, c, params, f),
    }
}

#[tactic(auto, unfolding(crate::specs::jrule::PoolEffects::exchange))]
fn used<N: News>(
    p: &NamedProgram,
    uses: &Uses,
    here: &TypingContext,
    news: &N,
    u: &Use,
    f: FrameRef,
) -> Result<Option<FrameRef>, AllocError>
    ensures { IfOk result (λ r. option_map (seen p.now) r
        ≡ TypingRule.used p.now (seen_here p.now (N.makes news.now) here.now)
        (meaning_of p.now (pool_at p.now here.now.class) uses.now.types u.now) (seen p.now f)) }
{
    match u {
        Use::Push(c) => constant(p, here.max_stack, *c, f),
        Use::Field(op, one) => field(p, here, *op, one, f),
        Use::Call(by, c) => called(p, uses, here, news, *by, c, f),
        Use::Make(_) => make(p, here.max_stack, here.at, f),
        Use::MakeArray(t) => make_array(p, here.max_stack, *t, f),
        Use::Cast(op, t) => cast(p, here.max_stack, *op, *t, f),
    }
}

fn by_meaning<N: News>(
    p: &NamedProgram,
    uses: &Uses,
    here: &TypingContext,
    news: &N,
    u: Option<Use>,
    f: FrameRef,
) -> Result<Option<FrameRef>, AllocError>
    ensures { IfOk result (λ r. option_map (seen p.now) r
        ≡ FormRules.by_meaning p.now (seen_here p.now (N.makes news.now) here.now)
        (option_map (meaning_of p.now (pool_at p.now here.now.class) uses.now.types) u) (seen p.now f)) }
{
    match u {
        None => Ok(None),
        Some(u) => used(p, uses, here, news, &u, f),
    }
}

// ---- by the form

fn by_array<N: News>(
    p: &NamedProgram,
    uses: &Uses,
    here: &TypingContext,
    news: &N,
    form: ArrayForm,
    f: FrameRef,
) -> Result<Option<FrameRef>, AllocError>
    requires { AreUses p.now uses.now }
    ensures { IfOk result (λ r. option_map (seen p.now) r
        ≡ FormRules.by_array p.now (seen_here p.now (N.makes news.now) here.now) (pool_at p.now here.now.class) form (seen p.now f)) }
{
    let most = here.max_stack;
    match form {
        ArrayForm::New(kind) => array(p, most, ArrayForm::New(kind), f),
        ArrayForm::NewRef(i) => {
            let u = array_use_of(p, uses, here.class, i);
            by_meaning(p, uses, here, news, u, f)
        }
        ArrayForm::Load(items) => array(p, most, ArrayForm::Load(items), f),
        ArrayForm::Store(items) => array(p, most, ArrayForm::Store(items), f),
        ArrayForm::Length => array(p, most, ArrayForm::Length, f),
    }
}

fn by_pool<N: News>(
    p: &NamedProgram,
    uses: &Uses,
    here: &TypingContext,
    news: &N,
    form: PoolForm,
    f: FrameRef,
) -> Result<Option<FrameRef>, AllocError>
    requires { AreUses p.now uses.now }
    ensures { IfOk result (λ r. option_map (seen p.now) r
        ≡ FormRules.by_meaning p.now (seen_here p.now (N.makes news.now) here.now) (meant p.now (pool_at p.now here.now.class) form) (seen p.now f)) }
{
    let u = use_of(p, uses, here.class, form);
    by_meaning(p, uses, here, news, u, f)
}

/// The frame behind an instruction by its form (JVMS 4.10.1.9), wherever it leads; none where the frame before it doesn't serve, where its
/// entry stands for nothing, or where there is no room. `uses` is the table of the program's entries.
#[tactic(auto, unfolding(crate::specs::jrule::FormRules::by_form))]
pub fn rule<N: News, S>(
    p: &NamedProgram,
    uses: &Uses,
    here: &TypingContext,
    news: &N,
    form: &OpForm<S>,
    f: FrameRef,
) -> Result<Option<FrameRef>, AllocError>
    requires { AreUses p.now uses.now }
    ensures { IfOk result (λ r. option_map (seen p.now) r
        ≡ FormRules.by_form p.now (seen_here p.now (N.makes news.now) here.now) (pool_at p.now here.now.class) form.now (seen p.now f)) }
{
    match form {
        OpForm::Simple(form) => simple(p, here.max_stack, *form, f),
        OpForm::Local(form) => local(p, here.max_stack, *form, f),
        OpForm::Stack(form) => shuffle(p, here.max_stack, *form, f),
        OpForm::Flow(form) => Ok(flow(p, here.is_init, here.returns, form, f)),
        OpForm::Array(form) => by_array(p, uses, here, news, *form, f),
        OpForm::Pool(form) => by_pool(p, uses, here, news, *form, f),
    }
}
