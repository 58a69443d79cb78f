ghost use Rattle.std.specs.Prelude.{◌≡◌, IfOk, map, option_map};
ghost use Rattle.jresolution.specs.jprogram.ProgramClasses.{tree};
ghost use Rattle.jresolution.specs.juses.InternedTypes.{class_named, named};
ghost use Rattle.jtyping.specs.jrule.ObjectRule;
ghost use Rattle.jtyping.specs.jrule.ObjectRule.{all_replaced, is_named, may_ready_this, readied, same_name};
ghost use Rattle.jtyping.specs.ProofNames.{init_of};
ghost use Rattle.jtyping.specs.jrule.InternedFrames.{seen, seen_call, seen_here};

use crate::jrule::frame::FrameRef;
use crate::jrule::kept::Locals;
use crate::jrule::operands::{give, put, take_arguments};
use crate::jrule::place::{News, TypingContext};
use crate::jrule::unready::Unready;
use jresolution::jprogram::{ClassRef, NamedProgram};
use jresolution::juses::{CallUse, TypeRef};
use std::alloc::AllocError;

/// The locals with another type for each copy of an object.
fn all_replaced(p: &NamedProgram, it: Unready, new: TypeRef, locals: Locals) -> Locals
    ensures { map (named p.now) result ≡ all_replaced it (named p.now new) (map (named p.now) locals) }
{
    locals.all_swapped(it, new)
}

/// The frame behind a `new` (JVMS 4.10.1.9, new), which stands at the place `at`; none where what it made before is on the stack, or where
/// there is no room.
pub fn make(
    p: &NamedProgram,
    most: u16,
    at: u16,
    f: FrameRef,
) -> Result<Option<FrameRef>, AllocError>
    ensures { IfOk result (λ r. option_map (seen p.now) r ≡ ObjectRule.make most at (seen p.now f)) }
{
    let it = Unready::New(at);
    if f.stack.has(it) {
        return Ok(None);
    }
    let FrameRef {
        locals,
        stack,
        flag,
    } = f;
    let locals = all_replaced(p, it, TypeRef::Top, locals);
    put(
        p,
        most,
        TypeRef::Uninit(at),
        FrameRef {
            locals,
            stack,
            flag,
        },
    )
}

// ---- calls of an `<init>`

fn same_name(p: &NamedProgram, c: ClassRef, d: ClassRef) -> bool
    ensures { result ≡ same_name (class_named p.now c) (class_named p.now d) }
{
    p.same_class(c, d)
}

fn is_named(p: &NamedProgram, c: ClassRef, d: Option<ClassRef>) -> bool
    ensures { result ≡ is_named (class_named p.now c) (option_map (class_named p.now) d) }
{
    match d {
        None => false,
        Some(d) => same_name(p, c, d),
    }
}

fn may_ready_this<N: News>(
    p: &NamedProgram,
    here: &TypingContext,
    news: &N,
    owner: ClassRef,
) -> bool
    ensures { result ≡ may_ready_this (seen_here p.now (N.makes news.now) here.now) (class_named p.now owner) }
{
    if here.covered {
        return false;
    }
    if same_name(p, owner, here.this()) {
        return true;
    }
    is_named(p, owner, here.above)
}

/// The frame in which every copy of an object is of its class.
fn readied(p: &NamedProgram, it: Unready, class: ClassRef, flag: bool, f: FrameRef) -> FrameRef
    ensures { seen p.now result ≡ readied it (class_named p.now class) flag (map (named p.now) f.locals) (map (named p.now) f.stack) }
{
    let FrameRef {
        locals,
        stack,
        flag: _,
    } = f;
    let new = TypeRef::Object(class);
    FrameRef {
        locals: all_replaced(p, it, new, locals),
        stack: stack.all_swapped(it, new),
        flag,
    }
}

fn init_of<N: News>(
    p: &NamedProgram,
    here: &TypingContext,
    news: &N,
    owner: ClassRef,
    mut f: FrameRef,
) -> Option<FrameRef>
    ensures { option_map (seen p.now) result ≡ init_of (seen_here p.now (N.makes news.now) here.now) (class_named p.now owner) (seen p.now f) }
{
    match f.stack.pop()? {
        TypeRef::Uninit(o) => {
            if !is_named(p, owner, news.made_at(o)) {
                return None;
            }
            let flag = f.flag;
            Some(readied(p, Unready::New(o), owner, flag, f))
        }
        TypeRef::UninitThis => {
            if !may_ready_this(p, here, news, owner) {
                return None;
            }
            Some(readied(p, Unready::This, here.this(), false, f))
        }
        _ => None,
    }
}

/// The frame behind a call of an `<init>` (JVMS 4.10.1.9, invokespecial); none where the arguments don't fit, or where the object isn't
/// one that waits for an `<init>` of that class. `params` are the types of its parameters, the newest first.
pub fn init<N: News>(
    p: &NamedProgram,
    here: &TypingContext,
    news: &N,
    call: &CallUse,
    params: &[TypeRef],
    f: FrameRef,
) -> Result<Option<FrameRef>, AllocError>
    ensures { IfOk result (λ r. option_map (seen p.now) r
        ≡ ObjectRule.init (tree p.now) (seen_here p.now (N.makes news.now) here.now) (seen_call p.now call.now params.now) (seen p.now f)) }
{
    let Some(f) = take_arguments(p, params, f) else {
        return Ok(None);
    };
    let Some(f) = init_of(p, here, news, call.owner, f) else {
        return Ok(None);
    };
    give(p, here.max_stack, call.ret, f)
}
