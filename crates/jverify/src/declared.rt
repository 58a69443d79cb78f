ghost use Rattle.std.specs.Prelude.{◌≡◌, ◌≤◌, ◌∷◌, ◌++◌, [], pos, Bool, IfOk, IfSome, List, OnOk, Some};
ghost use Rattle.std.specs.Prelude.{length, map, option_map, reverse, slice_get, true};
ghost use Rattle.std.specs.List.{find, flat_map};
ghost use Rattle.std.specs.Option.{option_copied};
ghost use Rattle.std.specs.Ordering.{int_eq};
ghost use Rattle.jresolution.specs.jprogram.ProgramClasses.{tree};
ghost use Rattle.jtypes.specs.declared.vtype.VType.{VType};
ghost use Rattle.jtypes.specs.Assignability.{fits};
ghost use Rattle.jtypes.specs.TypeFrames;
ghost use Rattle.jtypes.specs.ProofNames;
ghost use Rattle.jtypes.specs.TypeFrames.{all_fit, places_of};
ghost use Rattle.jresolution.specs.juses.InternedTypes.{named};
ghost use Rattle.jtyping.specs.jrule.StackOperands.{with_stack};
ghost use Rattle.jtyping.specs.jrule.InternedFrames.{seen};
ghost use Rattle.jtyping.specs.jrule.OperandSlots.{slot_count};
ghost use Rattle.jtyping.specs.jwelltyped.DeclaredFrames.{declared_at, filled};
ghost use Rattle.jtyping.specs.jwelltyped.VerifierTests;
ghost use Rattle.jverify.specs.LocalChains.{chain, values};
ghost use Rattle.jverify.specs.declared.held.Served.{Served};
ghost use Rattle.jverify.specs.FrameTables;
ghost use Rattle.jverify.specs.FrameTables.{IsKept, Rise, all_written, frame_named, frame_seen, given, places};
ghost use Rattle.jverify.specs.FrameFacts as keeping;
ghost use Rattle.jverify.specs.FrameFacts.{AreFrom, held_seen};

use crate::chains::{Chains, size};
use crate::held::{Arriving, Held, LocalsInfo, arrived, served_by};
use jground::jbase::Seq;
use jresolution::jprogram::NamedProgram;
use jresolution::juses::{TypeRef, type_fits};
use jtyping::jrule::{FrameRef, Locals, Stack};
use std::alloc::{AllocError, Global};
use std::marker::Model;

/// A declared frame.
#[derive(Debug, Drop)]
pub(crate) struct Kept {
    pub at: u32,
    /// The node of its last local.
    pub last: usize,
    /// Its operands, the oldest first.
    pub stack: Seq<TypeRef>,
}

/// The frames that a method declares (JVMS 4.7.4), in the memory that they take as they are written: where a frame has the locals of the
/// one before it, more or fewer, the two share them.
#[derive(Debug, Drop)]
pub(crate) struct Declared {
    /// How many locals the method has.
    pub(crate) most: u16,
    pub(crate) chains: Chains,
    pub(crate) frames: Vec<Kept>,
}

impl Model for Declared {
    ghost use Rattle.std.specs.Prelude.{map};
    ghost use Rattle.jverify.specs.FrameTables.{AreKept, Givens, Rise, given};

    ghost Value = { Givens };

    ghost view = { λ d. record { most = d.most; frames = map (given d.chains) d.frames.items } };

    ghost invariant = { λ d. AreKept d.chains d.most d.frames.items × Rise d.frames.items };
}

// ---- what fits

pub(crate) fn is_long(p: &NamedProgram, kind: TypeRef) -> bool
    ensures { result ≡ TypeFrames.is_long (named p.now kind) }
{
    matches!(kind, TypeRef::Long)
}

fn item_fits(p: &NamedProgram, a: TypeRef, b: TypeRef) -> bool
    ensures { result ≡ ProofNames.item_fits (fits (tree p.now)) (named p.now a) (named p.now b) }
{
    if !type_fits(p, a, b) {
        return false;
    }
    if is_long(p, a) {
        return is_long(p, b);
    }
    true
}

/// Whether operands fit others, both in one order.
fn stack_fits(p: &NamedProgram, from: &[TypeRef], to: &[TypeRef]) -> bool
    ensures { result ≡ TypeFrames.stack_fits (fits (tree p.now)) (map (named p.now) from.now) (map (named p.now) to.now) }
{
    if from.len() != to.len() {
        return false;
    }
    for i in 0..from.len() {
        if !item_fits(p, from[i], to[i]) {
            return false;
        }
    }
    true
}

fn local_fits(p: &NamedProgram, locals: &Locals, n: usize, kind: TypeRef) -> bool
    ensures { IfSome (slice_get locals.now n) (λ t. result ≡ fits (tree p.now) (named p.now t) (named p.now kind)) }
{
    match locals.get(n) {
        Some(t) => type_fits(p, t, kind),
        None => false,
    }
}

/// Whether locals fit those of a chain, with Top behind them. What isn't in the chain isn't looked at.
fn locals_fit(p: &NamedProgram, chains: &Chains, locals: &Locals, last: usize) -> bool
    requires last { last ≤ length chains.now }
    requires room { slot_count (chain chains.now last) ≤ length locals.now }
    ensures { result
        ≡ all_fit (fits (tree p.now)) (map (named p.now) locals.now)
        (filled (length locals.now) (places_of (map (named p.now) (values chains.now last)))) }
{
    let mut number = last;
    while number != 0 {
        let node = chains.get(number);
        if !local_fits(p, locals, node.places - size(node.kind), node.kind) {
            return false;
        }
        number = node.parent;
    }
    true
}

fn implies(a: bool, b: bool) -> bool
    ensures { result ≡ TypeFrames.implies a b }
{
    !a || b
}

/// Whether locals, operands, the oldest first, and a flag fit a declared frame. Locals that are known to be `same` aren't looked at.
fn kept_fits(
    p: &NamedProgram,
    chains: &Chains,
    k: &Kept,
    locals: &Locals,
    stack: &[TypeRef],
    flag: bool,
    same: bool,
) -> bool
    requires kept { IsKept chains.now (length locals.now) k.now }
    requires same { same ≡ true
        → map (named p.now) locals.now ≡ (frame_named p.now (length locals.now) (given chains.now k.now)).locals }
    ensures { result
        ≡ VerifierTests.frame_fits (tree p.now) (frame_seen p.now locals.now (reverse stack.now) flag)
        (frame_named p.now (length locals.now) (given chains.now k.now)) }
{
    if !implies(flag, chains.flag(k.last)) {
        return false;
    }
    if !stack_fits(p, stack, k.stack.as_slice()) {
        return false;
    }
    if same {
        return true;
    }
    locals_fit(p, chains, locals, k.last)
}

// ---- frames made anew

/// Puts the places that a local fills to others, the last one first.
pub(crate) fn push_places(places: &mut Vec<TypeRef>, kind: TypeRef) -> Result<(), AllocError>
    ensures { OnOk result (places.new.items ≡ places.old.items ++ reverse (FrameTables.places kind)) }
{
    match kind {
        TypeRef::Long => {
            places.push(TypeRef::Top)?;
            places.push(TypeRef::Long)?;
            Ok(())
        }
        _ => {
            places.push(kind)?;
            Ok(())
        }
    }
}

/// The places that the locals of a chain fill.
fn places_of(alloc: Global, chains: &Chains, last: usize) -> Result<Seq<TypeRef>, AllocError>
    requires { last ≤ length chains.now }
    ensures { IfOk result (λ s. s ≡ flat_map places (values chains.now last)) }
{
    let mut places = Vec::new(alloc);
    let mut number = last;
    while number != 0 {
        let node = chains.get(number);
        push_places(&mut places, node.kind)?;
        number = node.parent;
    }
    places.reverse();
    Ok(Seq::from_vec(places))
}

/// Operands, given the oldest first.
fn stack_of(alloc: Global, items: &[TypeRef]) -> Result<Stack, AllocError>
    ensures { IfOk result (λ s. s ≡ reverse items.now) }
{
    let mut stack = Stack::new(alloc);
    for item in items {
        stack.push(*item)?;
    }
    Ok(stack)
}

/// A declared frame of a method with so many locals.
fn frame_of(
    alloc: Global,
    p: &NamedProgram,
    chains: &Chains,
    k: &Kept,
    most: u16,
) -> Result<FrameRef, AllocError>
    requires { IsKept chains.now most k.now }
    ensures seen { IfOk result (λ f. seen p.now f ≡ frame_named p.now most (given chains.now k.now)) }
    ensures count { IfOk result (λ f. length f.locals ≡ most) }
{
    let places = places_of(alloc, chains, k.last)?;
    let stack = stack_of(alloc, k.stack.as_slice())?;
    Ok(FrameRef {
        locals: Locals::of(places, usize::from(most)),
        stack,
        flag: chains.flag(k.last),
    })
}

/// The declared frame of a place, which has the locals of the frame before it.
fn again(
    alloc: Global,
    p: &NamedProgram,
    chains: &Chains,
    k: &Kept,
    at: u32,
    old: Held,
) -> Result<Held, AllocError>
    requires kept { IsKept chains.now (length old.frame.locals) k.now }
    requires same { (held_seen p.now old).locals ≡ (frame_named p.now (length old.frame.locals) (given chains.now k.now)).locals }
    ensures seen { IfOk result (λ h. held_seen p.now h ≡ frame_named p.now (length old.frame.locals) (given chains.now k.now)) }
    ensures count { IfOk result (λ h. length h.frame.locals ≡ length old.frame.locals) }
    ensures from { IfOk result (λ h. h.known.from ≡ Some at) }
    ensures served { (test : List VType → Bool → Served → Bool)
        → IfSome old.known.served (λ s. test (held_seen p.now old).locals old.frame.flag s ≡ true)
        → IfOk result (λ h. IfSome h.known.served (λ s. test (held_seen p.now h).locals h.frame.flag s ≡ true)) }
{
    let stack = stack_of(alloc, k.stack.as_slice())?;
    let flag = chains.flag(k.last);
    let served = served_by(old.known.served, old.frame.flag, flag);
    Ok(Held {
        frame: FrameRef {
            locals: old.frame.locals,
            stack,
            flag,
        },
        known: LocalsInfo {
            from: Some(at),
            served,
        },
    })
}

/// The declared frame of a place, made anew.
fn anew(
    alloc: Global,
    p: &NamedProgram,
    chains: &Chains,
    k: &Kept,
    most: u16,
    at: u32,
) -> Result<Held, AllocError>
    requires { IsKept chains.now most k.now }
    ensures seen { IfOk result (λ h. held_seen p.now h ≡ frame_named p.now most (given chains.now k.now)) }
    ensures count { IfOk result (λ h. length h.frame.locals ≡ most) }
    ensures from { IfOk result (λ h. h.known.from ≡ Some at) }
    ensures served { IfOk result (λ h. h.known.served ≡ None) }
{
    Ok(Held {
        frame: frame_of(alloc, p, chains, k, most)?,
        known: LocalsInfo {
            from: Some(at),
            served: None,
        },
    })
}

// ---- frames at places

/// The frame that stands at a place.
fn found(frames: &[Kept], at: i64) -> Option<&Kept>
    requires { Rise frames.now }
    ensures { option_copied result ≡ find (λ k. int_eq (pos k.at) at) frames.now }
{
    match frames.binary_search_by_key(&at, |one| i64::from(one.at)) {
        Ok(i) => Some(&frames[i]),
        Err(_) => None,
    }
}

/// Whether the frame that is kept at a place, where one is told, has its locals from a chain.
fn shares(frames: &[Kept], from: Option<u32>, last: usize) -> bool
    requires { Rise frames.now }
    ensures { result ≡ FrameTables.shares frames.now last from }
{
    let Some(at) = from else {
        return false;
    };
    match found(frames, i64::from(at)) {
        None => false,
        Some(one) => one.last == last,
    }
}

impl Declared {
    /// Whether a frame fits the one that is declared at a place; false where none is. Its locals number those of the method, and are those
    /// of the declared frame at `from`, where that is told.
    pub(crate) fn leads_in(
        &self,
        p: &NamedProgram,
        f: &FrameRef,
        from: Option<u32>,
        at: i64,
    ) -> bool
        requires count { length f.now.locals ≡ self.now.most }
        requires from { AreFrom (all_written p.now self.now) (seen p.now f.now).locals from }
        ensures { result ≡ VerifierTests.leads_in (tree p.now) (seen p.now f.now) (declared_at (all_written p.now self.now) at) }
    {
        match found(self.frames.as_slice(), at) {
            None => false,
            Some(k) => {
                let same = shares(self.frames.as_slice(), from, k.last);
                kept_fits(
                    p,
                    &self.chains,
                    k,
                    &f.locals,
                    f.stack.as_slice(),
                    f.flag,
                    same,
                )
            }
        }
    }

    /// Whether a frame fits the one that is declared at a place; true where none is. Its locals number those of the method, and are those
    /// of the declared frame at `from`, where that is told.
    pub(crate) fn lets_in(&self, p: &NamedProgram, f: &FrameRef, from: Option<u32>, at: i64) -> bool
        requires count { length f.now.locals ≡ self.now.most }
        requires from { AreFrom (all_written p.now self.now) (seen p.now f.now).locals from }
        ensures { result ≡ VerifierTests.lets_in (tree p.now) (seen p.now f.now) (declared_at (all_written p.now self.now) at) }
    {
        match found(self.frames.as_slice(), at) {
            None => true,
            Some(k) => {
                let same = shares(self.frames.as_slice(), from, k.last);
                kept_fits(
                    p,
                    &self.chains,
                    k,
                    &f.locals,
                    f.stack.as_slice(),
                    f.flag,
                    same,
                )
            }
        }
    }

    /// Whether a frame, with what is caught alone on its stack, fits the one that is declared at a place; false where none is. Its locals
    /// number those of the method, and are those of the declared frame at `from`, where that is told.
    pub(crate) fn catches(
        &self,
        p: &NamedProgram,
        f: &FrameRef,
        from: Option<u32>,
        caught: TypeRef,
        at: i64,
    ) -> bool
        requires count { length f.now.locals ≡ self.now.most }
        requires from { AreFrom (all_written p.now self.now) (seen p.now f.now).locals from }
        ensures { result
            ≡ VerifierTests.leads_in (tree p.now) (with_stack (seen p.now f.now) (named p.now caught ∷ []))
            (declared_at (all_written p.now self.now) at) }
    {
        match found(self.frames.as_slice(), at) {
            None => false,
            Some(k) => {
                let same = shares(self.frames.as_slice(), from, k.last);
                kept_fits(p, &self.chains, k, &f.locals, &[caught], f.flag, same)
            }
        }
    }

    /// The frame with which the instruction at a place begins: the declared one, or else what arrives. Its locals are made anew only where
    /// they aren't known to be those of the frame that is held.
    pub(crate) fn begun(
        &self,
        alloc: Global,
        p: &NamedProgram,
        at: u32,
        a: Arriving,
    ) -> Result<Option<Held>, AllocError>
        requires count { length a.held.frame.locals ≡ self.now.most }
        requires from { AreFrom (all_written p.now self.now) (held_seen p.now a.held).locals a.held.known.from }
        ensures count { IfOk result (λ r. IfSome r (λ h. length h.frame.locals ≡ self.now.most)) }
        ensures seen { IfOk result (λ r. option_map (held_seen p.now) r
            ≡ VerifierTests.begun (declared_at (all_written p.now self.now) (pos at)) (keeping.arrived p.now a)) }
        ensures from { IfOk result (λ r. IfSome r (λ h. AreFrom (all_written p.now self.now) (held_seen p.now h).locals h.known.from)) }
        ensures served { (test : List VType → Bool → Served → Bool)
            → IfSome a.held.known.served (λ s. test (held_seen p.now a.held).locals a.held.frame.flag s ≡ true)
            → IfOk result (λ r. IfSome r (λ h. IfSome h.known.served (λ s. test (held_seen p.now h).locals h.frame.flag s ≡ true))) }
    {
        match found(self.frames.as_slice(), i64::from(at)) {
            None => Ok(arrived(a)),
            Some(k) => {
                if shares(self.frames.as_slice(), a.held.known.from, k.last) {
                    let held = again(alloc, p, &self.chains, k, at, a.held)?;
                    return Ok(Some(held));
                }
                let held = anew(alloc, p, &self.chains, k, self.most, at)?;
                Ok(Some(held))
            }
        }
    }
}
