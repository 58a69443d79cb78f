ghost use Rattle.std.specs.Prelude.{◌≡◌, ◌≤◌, ◌<◌, ◌++◌, ◌∷◌, [], All, IfOk, IsTrue, None, OnOk, length, option_map};
ghost use Rattle.std.specs.Option.{option_to_list};
ghost use Rattle.jclass.specs.Class.{class_file};
ghost use Rattle.jclass.specs.FileContents.{IsIn};
ghost use Rattle.jmove.specs.MethodExpansion;
ghost use Rattle.jmove.specs.MethodExpansion.{CanMove};
ghost use Rattle.jmoveclass.specs.EntryLocals;
ghost use Rattle.jmoveclass.specs.EntryLocals.{bare_beginning};
ghost use Rattle.jmoveclass.specs.CallExpansion;
ghost use Rattle.jmoveclass.specs.MovedMembers;
ghost use Rattle.jmoveclass.specs.MovedMembers.{with_attribute, with_code, with_first, with_method, with_moved};
ghost use Rattle.jmoveclass.specs.MovableClasses.{HasNoLimit, IsCode, IsMoving, named_body, seen_body};
ghost use Rattle.jmoveclass.specs.PoolPuts.{Puts, with_each};
ghost use Rattle.jclass.specs.CodeFormat;

use crate::beginning::{params_of, put_beginning, slots};
use crate::body::{BodyRef, frames_in};
use crate::calls::expands;
use crate::frames::{in_full, moved_maps};
use crate::kept::method_keeps;
use crate::moving::Moving;
use jadder::Adder;
use jclass::{Attribute, ClassParts, MemberInfo};
use jground::jbase::Seq;
use jmove::{Expand, MethodIn, MethodOut, MoveError, move_method, moved_descriptor, put_text};
use jparts::jcode::Placed;
use jparts::jmaps::MapType;
use jparts::jpool::{FieldType, Pool};
use jresolution::jprogram::member_desc;
use std::alloc::{AllocError, Global};

// ---- the method that is moved

/// The same instructions at the same places again.
fn ops_again(alloc: Global, ops: &[Placed]) -> Result<Seq<Placed>, AllocError>
    ensures { IfOk result (λ same. same ≡ ops.now) }
{
    let mut same = Seq::new(alloc);
    for one in ops {
        let op = one.copy(alloc)?;
        same.push(op)?;
    }
    Ok(same)
}

/// A method with code, whose locals hold `first` where it begins.
#[tactic(auto, unfolding(crate::specs::MovedMembers::frames_of))]
pub fn method_in(
    alloc: Global,
    class: &ClassParts,
    m: &MemberInfo,
    params: &[FieldType],
    b: BodyRef<'_>,
    first: &[MapType],
) -> Result<MethodIn, AllocError>
    requires params { params.now ≡ EntryLocals.params_of class.now m.now }
    requires good { IsTrue (class_file.fits class.now) }
    requires code { IsCode class.now m.now (seen_body b) }
    ensures { IfOk result (λ x. x ≡ MovedMembers.method_in class.now m.now (seen_body b.entry) first.now) }
{
    let frames = in_full(alloc, first, frames_in(b.attributes))?;
    let ops = ops_again(alloc, b.ops)?;
    let handlers = Seq::from_slice(alloc, b.handlers)?;
    Ok(MethodIn {
        slots: slots(class, m, params),
        max_stack: u32::from(b.max_stack),
        max_locals: u32::from(b.max_locals),
        ops,
        handlers,
        frames,
    })
}

// ---- its code

/// The attribute of moved code.
fn moved_code(
    alloc: Global,
    name: u16,
    b: BodyRef<'_>,
    out: MethodOut,
) -> Result<Attribute, AllocError>
    requires stack { out.max_stack ≤ 0xffff }
    requires locals { out.max_locals ≤ 0xffff }
    requires frames { All (λ f. f.at ≤ 0xffff) out.frames }
    ensures { IfOk result (λ a. a ≡ MovedMembers.moved_code name (seen_body b.entry) out) }
{
    let attributes = moved_maps(alloc, out.frames, b.attributes)?;
    Ok(Attribute::Code {
        name,
        max_stack: out.max_stack as u16,
        max_locals: out.max_locals as u16,
        ops: out.ops,
        handlers: out.handlers,
        attributes,
    })
}

/// Puts what the code of a method names where it begins, if it has frames that take it over.
fn put_first(
    alloc: Global,
    pool: &mut Adder,
    c: &Moving<'_>,
    m: &MemberInfo,
    params: &[FieldType],
    b: BodyRef<'_>,
) -> Result<Seq<MapType>, MoveError>
    requires moving { IsMoving c.now }
    requires params { params.now ≡ EntryLocals.params_of c.now.class.now m.now }
    ensures { Puts (λ x. x) (with_first c.now.class.now m.now (CodeFormat.frames_in (seen_body b.entry))) result pool.old pool.new }
{
    if frames_in(b.attributes).is_empty() {
        return Ok(Seq::new(alloc));
    }
    put_beginning(alloc, pool, c.class, m, params)
}

/// Puts what the moved code of a method names, and moves it.
fn put_moved(
    alloc: Global,
    pool: &mut Adder,
    domain: u32,
    kinds: &[Expand],
    name: u16,
    b: BodyRef<'_>,
    m: &MethodIn,
) -> Result<Attribute, MoveError>
    requires can { CanMove m.now kinds.now }
    requires domain { domain < 4096 }
    requires limits { MethodExpansion.limit_of m.now kinds.now ≡ None }
    ensures { Puts (λ x. x) (with_moved domain kinds.now name (seen_body b.entry) m.now) result pool.old pool.new }
{
    let out = move_method(alloc, m, kinds, domain, pool)?;
    let code = moved_code(alloc, name, b, out)?;
    Ok(code)
}

/// Puts what the code of a method names, and moves it.
#[tactic(auto, unfolding(crate::specs::MovedMembers::with_code))]
fn put_code(
    alloc: Global,
    pool: &mut Adder,
    c: &Moving<'_>,
    m: &MemberInfo,
    params: &[FieldType],
    name: u16,
    b: BodyRef<'_>,
) -> Result<Attribute, MoveError>
    requires moving { IsMoving c.now }
    requires params { params.now ≡ EntryLocals.params_of c.now.class.now m.now }
    requires code { IsCode c.now.class.now m.now (seen_body b) }
    requires limits { MethodExpansion.limit_of (MovedMembers.method_in c.now.class.now m.now (seen_body b) (bare_beginning c.now.class.now m.now))
        (CallExpansion.expands c.now.program.now c.now.class.now.pool b.ops.now) ≡ None }
    ensures { Puts (λ x. x) (with_code c.now.program.now c.now.class.now c.now.domain m.now name (seen_body b.entry)) result pool.old pool.new }
{
    let first = put_first(alloc, pool, c, m, params, b)?;
    let kinds = expands(alloc, c, b.ops)?;
    let method = method_in(alloc, c.class, m, params, b, first.as_slice())?;
    let kinds = kinds.as_slice();
    put_moved(alloc, pool, c.domain, kinds, name, b, &method)
}

// ---- the method

/// What an attribute of a method holds as its code.
fn body_in(one: &Attribute) -> Option<(u16, BodyRef<'_>)>
    ensures { option_map (λ x. (x.0, seen_body x.1)) result ≡ named_body one.now }
{
    match one {
        Attribute::Code {
            name,
            max_stack,
            max_locals,
            ops,
            handlers,
            attributes,
        } => Some((
            *name,
            BodyRef {
                max_stack: *max_stack,
                max_locals: *max_locals,
                ops: ops.as_slice(),
                handlers: handlers.as_slice(),
                attributes: attributes.as_slice(),
            },
        )),
        _ => None,
    }
}

/// An attribute that isn't code, where it is kept.
fn kept(alloc: Global, pool: &Pool, one: &Attribute) -> Result<Option<Attribute>, AllocError>
    ensures { IfOk result (λ a. option_to_list a ≡ MovedMembers.kept_alone pool.now one.now) }
{
    match one {
        Attribute::Raw { .. } => {
            if !method_keeps(pool, one) {
                return Ok(None);
            }
            let same = one.copy(alloc)?;
            Ok(Some(same))
        }
        _ => Ok(None),
    }
}

/// Puts what an attribute of a method names when it is moved.
fn put_attribute(
    alloc: Global,
    pool: &mut Adder,
    c: &Moving<'_>,
    m: &MemberInfo,
    params: &[FieldType],
    one: &Attribute,
) -> Result<Option<Attribute>, MoveError>
    requires moving { IsMoving c.now }
    requires params { params.now ≡ EntryLocals.params_of c.now.class.now m.now }
    requires method { IsIn m.now c.now.class.now.methods }
    requires there { IsIn one.now m.now.attributes }
    requires limits { HasNoLimit c.now.program.now c.now.class.now m.now }
    ensures { Puts option_to_list (with_attribute c.now.program.now c.now.class.now c.now.domain m.now one.now) result pool.old pool.new }
{
    let Some((name, b)) = body_in(one) else {
        let same = kept(alloc, &c.class.pool, one)?;
        return Ok(same);
    };
    let code = put_code(alloc, pool, c, m, params, name, b)?;
    Ok(Some(code))
}

fn push_some(list: &mut Seq<Attribute>, one: Option<Attribute>) -> Result<(), AllocError>
    ensures { OnOk result (list.new ≡ list.old ++ option_to_list one) }
{
    if let Some(one) = one {
        list.push(one)?;
    }
    Ok(())
}

/// Puts what the attributes of a method name when they are moved.
fn put_attributes(
    alloc: Global,
    pool: &mut Adder,
    c: &Moving<'_>,
    m: &MemberInfo,
    params: &[FieldType],
) -> Result<Seq<Attribute>, MoveError>
    requires moving { IsMoving c.now }
    requires params { params.now ≡ EntryLocals.params_of c.now.class.now m.now }
    requires method { IsIn m.now c.now.class.now.methods }
    requires limits { HasNoLimit c.now.program.now c.now.class.now m.now }
    ensures { Puts (λ x. x)
        (with_each (with_attribute c.now.program.now c.now.class.now c.now.domain m.now) m.now.attributes) result pool.old pool.new }
{
    let mut moved = Seq::new(alloc);
    for one in m.attributes.as_slice() {
        let one = put_attribute(alloc, pool, c, m, params, one)?;
        push_some(&mut moved, one)?;
    }
    Ok(moved)
}

/// The descriptor of a method with the context as one more parameter.
fn new_desc(alloc: Global, c: &Moving<'_>, m: &MemberInfo) -> Result<Seq<u8>, AllocError>
    requires moving { IsMoving c.now }
    requires method { IsIn m.now c.now.class.now.methods }
    ensures text { IfOk result (λ text. text ≡ MovedMembers.new_desc c.now.class.now m.now) }
{
    match moved_descriptor(alloc, member_desc(c.class, m))? {
        Some(text) => Ok(Seq::from_vec(text)),
        None => Ok(Seq::new(alloc)),
    }
}

/// Puts what a method of a class names when it is moved.
#[tactic(auto, unfolding(crate::specs::MovedMembers::with_method))]
pub fn put_method(
    alloc: Global,
    pool: &mut Adder,
    c: &Moving<'_>,
    m: &MemberInfo,
) -> Result<MemberInfo, MoveError>
    requires moving { IsMoving c.now }
    requires method { IsIn m.now c.now.class.now.methods }
    requires short { length (MovedMembers.new_desc c.now.class.now m.now) ≤ 0xffff }
    requires limits { HasNoLimit c.now.program.now c.now.class.now m.now }
    ensures { Puts (λ x. x ∷ []) (with_method c.now.program.now c.now.class.now c.now.domain m.now) result pool.old pool.new }
{
    let text = new_desc(alloc, c, m)?;
    let desc = put_text(alloc, pool, text.as_slice())?;
    let params = params_of(alloc, c.class, m)?;
    let attributes = put_attributes(alloc, pool, c, m, params.as_slice())?;
    Ok(MemberInfo {
        flags: m.flags,
        name: m.name,
        desc,
        attributes,
    })
}
