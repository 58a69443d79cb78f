ghost use Rattle.std.specs.Prelude.{◌≡◌, ◌≤◌, ◌<◌, ℕ, IfOk, IsTrue, None, length, map};
ghost use Rattle.jparts.specs.jcode.Instructions.{code};
ghost use Rattle.jmove.specs.AssemblyLines;
ghost use Rattle.jmove.specs.AssemblyLines.{end_of, place_of, placed};
ghost use Rattle.jmove.specs.MethodExpansion;
ghost use Rattle.jmove.specs.MethodExpansion.{CanMove, expansions, lines, setting};
ghost use Rattle.jmove.specs.PlaceTables.{in_table};

use crate::emission::{prologue, put_begin, put_expansions};
use crate::framing::{frames_moved, too_many};
use crate::method::{Expand, MethodIn, MethodOut, MoveError, Setting};
use crate::places::{Places, places_of};
use crate::sizing::{end_of, move_size};
use jground::jbase::Seq;
use jparts::jcode::{Handler, Op, Placed, size_at};
use std::alloc::{AllocError, Global};

/// The local that holds the context.
fn context_local(m: &MethodIn) -> u32
    requires { m.now.slots ≤ 255 }
    ensures { result ≡ MethodExpansion.context_local m.now }
{
    m.max_locals.max(m.slots + 1)
}

/// The length of what a moved body begins with, whatever the domain and the reference.
fn begin_of(slots: u32, local: u32) -> u32
    ensures { (domain enter : ℕ) → AssemblyLines.reach 0 (MethodExpansion.prologue slots (record { local = local; domain = domain }) enter) ≡ result }
{
    move_size(slots) + 6 + move_size(local)
}

/// The number of bytes of code.
fn code_length(ops: &[Placed]) -> u32
    requires is_code { IsTrue (code.fits ops.now) }
    requires short { length (code.spell ops.now) ≤ 0xffff }
    ensures { result ≡ length (code.spell ops.now) }
{
    match ops.last() {
        None => 0,
        Some(one) => one.at + size_at(&one.op, one.at),
    }
}

/// The number of bytes of moved code.
fn moved_length(m: &MethodIn, local: u16, kinds: &[Expand]) -> u32
    requires can { CanMove m.now kinds.now }
    requires local { local ≡ MethodExpansion.context_local m.now }
    ensures { result ≡ MethodExpansion.moved_length m.now kinds.now }
{
    let s = Setting { local, domain: 0 };
    let begin = begin_of(m.slots, u32::from(local));
    end_of(s, kinds, m.ops.as_slice(), begin)
}

/// The first limit that a method would break if it were moved, in this order: `Slots`, `Locals`, `Stack`, `TooLong`.
#[tactic(auto, unfolding(crate::specs::MethodExpansion::limit_of))]
pub fn limit_of(m: &MethodIn, kinds: &[Expand]) -> Option<MoveError>
    requires { CanMove m.now kinds.now }
    ensures { result ≡ MethodExpansion.limit_of m.now kinds.now }
{
    if m.slots == 255 {
        return Some(MoveError::Slots);
    }
    if m.max_locals == 65535 {
        return Some(MoveError::Locals);
    }
    let local = context_local(m);
    if too_many(m.frames.as_slice(), local as usize) {
        return Some(MoveError::Locals);
    }
    if m.max_stack > 65532 {
        return Some(MoveError::Stack);
    }
    let length = moved_length(m, local as u16, kinds);
    if length > 32767 {
        return Some(MoveError::TooLong(length));
    }
    None
}

fn handler_moved(handler: Handler, places: &Places) -> Handler
    ensures { result ≡ MethodExpansion.moved_handler (in_table places.now) handler }
{
    Handler {
        start: u32::from(places.at(handler.start as usize)),
        end: u32::from(places.at(handler.end as usize)),
        at: u32::from(places.at(handler.at as usize)),
        class: handler.class,
    }
}

fn handlers_moved(
    alloc: Global,
    handlers: &[Handler],
    places: &Places,
) -> Result<Vec<Handler>, AllocError>
    ensures { IfOk result (λ moved. moved.items ≡ map (MethodExpansion.moved_handler (in_table places.now)) handlers.now) }
{
    handlers
        .iter()
        .map(|one| handler_moved(*one, places))
        .collect(alloc)
}

/// Where the old places of code lie, whose expansions stand behind a place.
fn places_in(
    alloc: Global,
    s: Setting,
    kinds: &[Expand],
    ops: &[Placed],
    begin: u32,
) -> Result<Places, AllocError>
    requires each { length kinds.now ≡ length ops.now }
    requires is_code { IsTrue (code.fits ops.now) }
    requires short { length (code.spell ops.now) ≤ 0xffff }
    requires near { AssemblyLines.end_of begin (expansions s kinds.now ops.now) ≤ 0x7fff }
    ensures { IfOk result (λ places. in_table places ≡ λ old. place_of old begin (expansions s kinds.now ops.now)) }
{
    let end = end_of(s, kinds, ops, begin);
    places_of(alloc, s, kinds, ops, code_length(ops), begin, end as u16)
}

/// Moved code, which begins with these instructions of so many bytes.
fn code_in(
    alloc: Global,
    s: Setting,
    begin: &[Op],
    at: u32,
    kinds: &[Expand],
    ops: &[Placed],
    places: &Places,
) -> Result<Vec<Placed>, AllocError>
    requires domain { s.domain < 0x8000 }
    requires at { at ≡ AssemblyLines.reach 0 begin.now }
    requires each { length kinds.now ≡ length ops.now }
    requires near { AssemblyLines.end_of at (expansions s kinds.now ops.now) ≤ 0x7fff }
    ensures { IfOk result (λ code. code.items ≡ placed (in_table places.now) 0 (lines begin.now s kinds.now ops.now)) }
{
    let mut out = Vec::new(alloc);
    put_begin(alloc, begin, places, &mut out)?;
    put_expansions(alloc, s, kinds, ops, places, at, &mut out)?;
    Ok(out)
}

/// The moved method of a domain, by expansions and indices of the moved pool: `enter` is the reference that a body begins by calling, and
/// `context` the class of contexts.
pub fn moved_by(
    alloc: Global,
    m: &MethodIn,
    kinds: &[Expand],
    domain: u16,
    enter: u16,
    context: u16,
) -> Result<MethodOut, AllocError>
    requires can { CanMove m.now kinds.now }
    requires domain { domain < 0x8000 }
    requires limits { MethodExpansion.limit_of m.now kinds.now ≡ None }
    ensures { IfOk result (λ moved. moved ≡ MethodExpansion.moved_by m.now domain enter context kinds.now) }
{
    let local = context_local(m);
    let s = Setting {
        local: local as u16,
        domain,
    };
    let ops = m.ops.as_slice();
    let at = begin_of(m.slots, local);
    let begin = prologue(alloc, m.slots as u16, s, enter)?;
    let places = places_in(alloc, s, kinds, ops, at)?;
    let code = code_in(alloc, s, begin.as_slice(), at, kinds, ops, &places)?;
    let handlers = handlers_moved(alloc, m.handlers.as_slice(), &places)?;
    let frames = frames_moved(alloc, m.frames.as_slice(), &places, local as usize, context)?;
    Ok(MethodOut {
        slots: m.slots + 1,
        max_stack: m.max_stack + 3,
        max_locals: local + 1,
        ops: Seq::from_vec(code),
        handlers: Seq::from_vec(handlers),
        frames,
    })
}
