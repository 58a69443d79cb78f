ghost use Rattle.std.specs.Prelude.{◌≡◌, ◌<◌, ◌≤◌, ◌^◌, ℕ, IfOk, IsTrue, None, Option, length, map, nat_le, option_map, true};
ghost use Rattle.jparts.specs.jcode.Instructions.{Rises};
ghost use Rattle.jparts.specs.jmaps.StackMapFormat.{maps};
ghost use Rattle.jparts.specs.jmaps.ExpandedFrames;
ghost use Rattle.jtypes.specs.declared.vtype.Name.{Name};
ghost use Rattle.jresolution.specs.juses.InstructionMeanings;
ghost use Rattle.jresolution.specs.juses.PoolTables.{pool_at};
ghost use Rattle.jresolution.specs.juses.InternedTypes.{class_named, named};
ghost use Rattle.jresolution.specs.juses.EntryUses.{AreUses};
ghost use Rattle.jtyping.specs.jrule.OperandSlots.{slot_count};
ghost use Rattle.jtyping.specs.jwelltyped.DeclaredFrames as typing;
ghost use Rattle.jtyping.specs.jwelltyped.ProofNames;
ghost use Rattle.jtyping.specs.jwelltyped.DeclaredFrames.{written_from};
ghost use Rattle.jverify.specs.LocalChains.{AreMade, all_made, chain};
ghost use Rattle.jverify.specs.FrameTables.{IsDeclared, given, is_good_in, written_named};
ghost use Rattle.jverify.specs.InternedMethods.{seen_body};

use crate::chains::{Chains, is_made, size};
use crate::declared::{Declared, Kept};
use crate::method::BodyRef;
use jground::jbase::Seq;
use jparts::jcode::place_of;
use jparts::jmaps::{MapType, RawFrame};
use jresolution::jprogram::NamedProgram;
use jresolution::juses::{TypeRef, Uses};
use jtyping::jrule::News;
use std::alloc::{AllocError, Global};

// ---- items

fn or_top(p: &NamedProgram, t: Option<TypeRef>) -> TypeRef
    ensures { named p.now result ≡ ProofNames.or_top (option_map (named p.now) t) }
{
    match t {
        None => TypeRef::Top,
        Some(t) => t,
    }
}

/// The type of the class at an index of a part's pool.
fn class_at(p: &NamedProgram, uses: &Uses, class: u32, i: u16) -> Option<TypeRef>
    requires { AreUses p.now uses.now }
    ensures { option_map (named p.now) result ≡ InstructionMeanings.class_at p.now (pool_at p.now class) i }
{
    uses.class_at(class, i)
}

fn item_of(p: &NamedProgram, uses: &Uses, class: u32, t: MapType) -> TypeRef
    requires { AreUses p.now uses.now }
    ensures { named p.now result ≡ typing.item p.now (pool_at p.now class) t }
{
    match t {
        MapType::Top => TypeRef::Top,
        MapType::Int => TypeRef::Int,
        MapType::Long => TypeRef::Long,
        MapType::Null => TypeRef::Null,
        MapType::UninitThis => TypeRef::UninitThis,
        MapType::Uninit(at) => TypeRef::Uninit(at),
        MapType::Object(i) => or_top(p, class_at(p, uses, class, i)),
    }
}

/// The types of items in a part.
fn items_of(
    alloc: Global,
    p: &NamedProgram,
    uses: &Uses,
    class: u32,
    types: &[MapType],
) -> Result<Seq<TypeRef>, AllocError>
    requires { AreUses p.now uses.now }
    ensures { IfOk result (λ items. map (named p.now) items ≡ map (typing.item p.now (pool_at p.now class)) types.now) }
{
    let mut items = Seq::new(alloc);
    for t in types {
        items.push(item_of(p, uses, class, *t))?;
    }
    Ok(items)
}

// ---- what is asked of a frame

/// Whether operands take no more slots than there are.
fn is_within(items: &[TypeRef], most: u16) -> bool
    ensures { result ≡ nat_le (slot_count items.now) most }
{
    let mut left = usize::from(most);
    for kind in items {
        let count = size(*kind);
        if left < count {
            return false;
        }
        left -= count;
    }
    true
}

/// Whether the `new`s are there that operands name.
fn are_made<N: News>(news: &N, items: &[TypeRef]) -> bool
    ensures { result ≡ all_made (N.makes news.now) items.now }
{
    for kind in items {
        if !is_made(news, *kind) {
            return false;
        }
    }
    true
}

/// Whether a frame stands at an instruction, keeps to the maxima, and names `new`s that are there.
fn is_good<N: News>(
    p: &NamedProgram,
    news: &N,
    body: &BodyRef<'_>,
    chains: &Chains,
    k: &Kept,
) -> bool
    requires rises { Rises body.now.ops.now }
    requires last { k.now.last ≤ length chains.now }
    requires made { AreMade (N.makes news.now) chains.now }
    ensures good { result
        ≡ is_good_in (seen_body body.now) (λ o. option_map (class_named p.now) (N.makes news.now o))
        (written_named p.now body.now.max_locals (given chains.now k.now)) }
    ensures room { result ≡ true → slot_count (chain chains.now k.now.last) ≤ body.now.max_locals }
{
    if place_of(body.ops, k.at).is_none() {
        return false;
    }
    if usize::from(body.max_locals) < chains.places(k.last) {
        return false;
    }
    if !is_within(k.stack.as_slice(), body.max_stack) {
        return false;
    }
    if !chains.made(k.last) {
        return false;
    }
    are_made(news, k.stack.as_slice())
}

// ---- frames

/// The place of a frame by that of the frame before it.
fn place_from(earlier: Option<u32>, delta: u16) -> u32
    requires { ExpandedFrames.place_from earlier 0xffff < 2 ^ 32 }
    ensures place { result ≡ ExpandedFrames.place_from earlier delta }
    ensures near { result ≤ ExpandedFrames.place_from earlier 0xffff }
{
    match earlier {
        None => u32::from(delta),
        Some(at) => at + u32::from(delta) + 1,
    }
}

/// The frames of a StackMapTable, where a method of a part begins with these values in its locals, the first one first; or the place of the
/// first that isn't good: it begins no instruction, takes away more locals than there are, is above a maximum, or names a `new` that isn't
/// there (JVMS 4.7.4, 4.10.1.6). The error says that no memory was left, or that more than 2 ^ 32 - 1 locals are written.
pub(crate) fn declared_of<N: News>(
    alloc: Global,
    p: &NamedProgram,
    uses: &Uses,
    class: u32,
    news: &N,
    body: &BodyRef<'_>,
    params: &[TypeRef],
    frames: &[RawFrame],
) -> Result<Result<Declared, u32>, AllocError>
    requires uses { AreUses p.now uses.now }
    requires fits { IsTrue (maps.fits frames.now) }
    requires rises { Rises body.now.ops.now }
    ensures { (makes : ℕ → Option Name) → ((o : ℕ) → option_map (class_named p.now) (N.makes news.now o) ≡ makes o)
        → IfOk result (λ r. IsDeclared p.now (seen_body body.now) makes
        (written_from p.now (pool_at p.now class) body.now.max_locals None (map (named p.now) params.now) frames.now) r) }
{
    let mut chains = Chains::new(alloc);
    let mut last = chains.grow(news, 0, params)?;
    let mut earlier = None;
    let mut all: Vec<Kept> = Vec::new(alloc);
    for frame in frames {
        let at = place_from(earlier, frame.delta);
        let locals = items_of(alloc, p, uses, class, frame.locals.as_slice())?;
        let Some(next) = chains.follow(news, frame.form, last, locals.as_slice())? else {
            return Ok(Err(at));
        };
        let stack = items_of(alloc, p, uses, class, frame.stack.as_slice())?;
        let kept = Kept {
            at,
            last: next,
            stack,
        };
        if !is_good(p, news, body, &chains, &kept) {
            return Ok(Err(at));
        }
        all.push(kept)?;
        earlier = Some(at);
        last = next;
    }
    Ok(Ok(Declared {
        most: body.max_locals,
        chains,
        frames: all,
    }))
}
