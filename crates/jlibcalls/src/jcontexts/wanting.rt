ghost use Rattle.std.specs.Prelude.{◌≡◌, ◌≤◌, ℕ, List, IfOk, length, take};
ghost use Rattle.jsemantics.specs.jmachine.Store.{Store};
ghost use Rattle.jresolution.specs.jprogram.ProgramClasses.{Program};
ghost use Rattle.jruntime.specs.declared.jstate.shapes.Shapes.{Shapes as ShapesOf};
ghost use Rattle.jruntime.specs.jstate.HeapMeanings.{Things, store_by};
ghost use Rattle.jlibcalls.specs.jcontexts.PrivilegeCalls.{FindsBy, WantsAction, WantsBy, WantsRequest, WantsWithin};

use crate::jcontexts::arrays::limits;
use crate::jcontexts::contexts::given;
use crate::jcontexts::requests::{Besides, PrivilegedForm, Request, request_by};
use jground::jbase::Seq;
use jlib::Side;
use jmemory::jheap::Heap;
use jperm::Permission;
use jruntime::jstate::{Frames, Shapes};
use jvalues::jops::Value;
use std::alloc::{AllocError, Global};

/// A privilege that is asked for, where the action's `run` is called.
#[derive(Drop)]
pub struct Wanted {
    /// The domain of the method that calls, where it is told.
    pub domain: Option<u32>,
    /// The context that the call was given.
    pub ctx: Option<u64>,
    /// What the context keeps that is given with the action.
    pub given: Option<u64>,
    /// The permissions that limit it.
    pub limits: Option<Seq<Permission>>,
    /// The action, which isn't null.
    pub action: u32,
}

/// What a call of doPrivileged wants.
#[derive(Drop)]
pub enum Privileging {
    /// Nothing: an array, one of its items, or the action is null.
    Null,
    /// There is no step.
    Stuck,
    Asks(Wanted),
}

/// What is wanted with an action, by what is given with it and what limits it.
#[tactic(auto, using(crate::proofs::JcontextsProofs::PrivilegedCalls::actions))]
fn by_action<M>(
    domain: Option<u32>,
    ctx: Option<u64>,
    given: Option<u64>,
    limits: Option<Seq<Permission>>,
    action: Value,
) -> Privileging
    ensures { (s : Store ℕ) → WantsAction M s domain ctx limits action given result }
{
    match action {
        Value::Int(_) => Privileging::Stuck,
        Value::Long(_) => Privileging::Stuck,
        Value::Ctx(_) => Privileging::Stuck,
        Value::Ref(o) => {
            if o == 0 {
                return Privileging::Null;
            }
            Privileging::Asks(Wanted {
                domain,
                ctx,
                given,
                limits,
                action: o,
            })
        }
    }
}

/// The same, by the operand that is the context.
#[tactic(auto, using(crate::proofs::JcontextsProofs::PrivilegedCalls::no_context, crate::proofs::JcontextsProofs::PrivilegedCalls::some_context))]
fn by_context<M>(
    heap: &Heap,
    kept: &[u64],
    domain: Option<u32>,
    ctx: Option<u64>,
    limits: Option<Seq<Permission>>,
    context: Value,
    action: Value,
) -> Privileging
    ensures { (p : Program) (shapes : ShapesOf) (things : Things) (constants : List (List ℕ × ℕ)) → things.kept ≡ kept.now
        → WantsWithin M (store_by p shapes things constants heap.now) domain ctx limits context action result }
{
    match given(heap, kept, context) {
        None => Privileging::Stuck,
        Some(given) => by_action::<M>(domain, ctx, given, limits, action),
    }
}

/// The same, by what the array of permissions is.
#[tactic(auto, using(crate::proofs::JcontextsProofs::PrivilegedCalls::no_limits, crate::proofs::JcontextsProofs::PrivilegedCalls::null_limits, crate::proofs::JcontextsProofs::PrivilegedCalls::some_limits,),)]
fn by_limits<M>(
    heap: &Heap,
    kept: &[u64],
    domain: Option<u32>,
    ctx: Option<u64>,
    limits: Option<Option<Seq<Permission>>>,
    context: Value,
    action: Value,
) -> Privileging
    ensures { (p : Program) (shapes : ShapesOf) (things : Things) (constants : List (List ℕ × ℕ)) → things.kept ≡ kept.now
        → WantsBy M (store_by p shapes things constants heap.now) domain ctx limits context action result }
{
    match limits {
        None => Privileging::Stuck,
        Some(None) => Privileging::Null,
        Some(Some(limits)) => {
            by_context::<M>(heap, kept, domain, ctx, Some(limits), context, action)
        }
    }
}

/// What a request wants.
#[tactic(auto, using(crate::proofs::JcontextsProofs::PrivilegedCalls::alone_wants, crate::proofs::JcontextsProofs::PrivilegedCalls::within_wants, crate::proofs::JcontextsProofs::PrivilegedCalls::limited_wants,),)]
fn by_request<M>(
    alloc: Global,
    heap: &Heap,
    shapes: &Shapes,
    permissions: &[Permission],
    kept: &[u64],
    request: Request,
) -> Result<Privileging, AllocError>
    ensures { IfOk result (λ w. (p : Program) (things : Things) (constants : List (List ℕ × ℕ))
        → things.permissions ≡ permissions.now → things.kept ≡ kept.now
        → WantsRequest M (store_by p shapes.now things constants heap.now) request w) }
{
    let domain = request.domain;
    let action = request.action;
    match request.besides {
        Besides::Nothing => Ok(by_action::<M>(domain, None, None, None, action)),
        Besides::Context(context) => {
            Ok(by_context::<M>(heap, kept, domain, None, None, context, action))
        }
        Besides::Limits {
            ctx,
            array,
            context,
        } => {
            let found = limits(alloc, heap, shapes, permissions, array)?;
            Ok(by_limits::<M>(heap, kept, domain, ctx, found, context, action))
        }
    }
}

/// What a call of doPrivileged wants, of a form on a side, with so many operands. A privilege is to be asked for where the action's
/// `run` is called.
#[tactic(auto, using(crate::proofs::JcontextsProofs::PrivilegedCalls::nothing_found, crate::proofs::JcontextsProofs::PrivilegedCalls::found_so))]
pub fn find_privilege<M: Copy>(
    alloc: Global,
    frames: &Frames<M>,
    heap: &Heap,
    shapes: &Shapes,
    permissions: &[Permission],
    kept: &[u64],
    side: Side,
    form: PrivilegedForm,
    count: usize,
) -> Result<Privileging, AllocError>
    requires { count ≤ length frames.now.newest.operands }
    ensures { IfOk result (λ w. FindsBy M side form permissions.now kept.now shapes.now heap.now (take count frames.now.newest.operands) w) }
{
    match request_by(frames, side, form, count) {
        None => Ok(Privileging::Stuck),
        Some(request) => by_request::<M>(alloc, heap, shapes, permissions, kept, request),
    }
}
