ghost use Rattle.std.specs.Prelude.{◌≡◌, ◌+◌, ◌≤◌, ◌<◌, ◌++◌, ◌∷◌, [], IfOk, OnOk, length, map};
ghost use Rattle.jparts.specs.jcode.Instructions.{placed_at, size};
ghost use Rattle.jmove.specs.AssemblyLines;
ghost use Rattle.jmove.specs.AssemblyLines.{Do, placed, with_branches};
ghost use Rattle.jmove.specs.MethodExpansion;
ghost use Rattle.jmove.specs.MethodExpansion.{expansion, expansions};
ghost use Rattle.jmove.specs.PlaceTables.{distances, in_table};

use crate::branching::{Distances, retarget_branches};
use crate::method::{Expand, Setting};
use crate::places::Places;
use crate::sizing::{move_size, reach};
use jparts::jcode::{Access, CallOp, IntConst, LocalKind, LocalOp, Op, Placed, Wide, size_at};
use std::alloc::{AllocError, Global};

/// aload or astore.
fn move_ref(access: Access, local: u16) -> Op
    ensures { result ≡ MethodExpansion.move_ref access local }
{
    if local < 256 {
        return Op::RefLocal(LocalOp::At(access, local as u8));
    }
    Op::Wide(Wide::Local(LocalKind::Ref, access, local))
}

fn push_int(n: u16) -> Op
    requires { n < 0x8000 }
    ensures { result ≡ MethodExpansion.push_int n }
{
    Op::IntConst(IntConst::Short(n as i16))
}

fn call_static(reference: u16) -> Op
    ensures { result ≡ MethodExpansion.call_static reference }
{
    Op::Call(CallOp::Static, reference)
}

/// The same call by another reference, with one more argument.
fn calling(alloc: Global, reference: u16, op: &Op) -> Result<Op, AllocError>
    ensures { IfOk result (λ call. call ≡ MethodExpansion.calling reference op.now) }
{
    match op {
        Op::Call(call, _) => Ok(Op::Call(*call, reference)),
        Op::CallInterface(_, slots) => Ok(Op::CallInterface(reference, slots.saturating_add(1))),
        _ => op.copy(alloc),
    }
}

/// Puts an instruction behind others.
fn put(out: &mut Vec<Placed>, at: u32, op: Op) -> Result<(), AllocError>
    ensures { OnOk result (out.new.items ≡ out.old.items ++ placed_at at op ∷ []) }
{
    out.push(Placed { at, op })?;
    Ok(())
}

/// Puts an instruction behind others, with other distances of its branches.
fn put_led(
    alloc: Global,
    by: &Distances<'_>,
    at: u32,
    op: &Op,
    out: &mut Vec<Placed>,
) -> Result<(), AllocError>
    ensures { OnOk result (out.new.items ≡ out.old.items ++ placed_at at (with_branches (distances by.now) op.now) ∷ []) }
{
    let led = retarget_branches(alloc, op, by)?;
    put(out, at, led)
}

/// What a moved body begins with.
pub fn prologue(alloc: Global, slots: u16, s: Setting, enter: u16) -> Result<Vec<Op>, AllocError>
    requires { s.domain < 0x8000 }
    ensures { IfOk result (λ ops. ops.items ≡ MethodExpansion.prologue slots s enter) }
{
    Ok(vec![in alloc;
        move_ref(Access::Load, slots),
        push_int(s.domain),
        call_static(enter),
        move_ref(Access::Store, s.local),
    ]?)
}

/// Puts what a body begins with.
pub fn put_begin(
    alloc: Global,
    begin: &[Op],
    places: &Places,
    out: &mut Vec<Placed>,
) -> Result<(), AllocError>
    requires { AssemblyLines.reach 0 begin.now ≤ 0x7fff }
    ensures { OnOk result (out.new.items ≡ out.old.items ++ placed (in_table places.now) 0 (map (Do 0) begin.now)) }
{
    let mut at = 0;
    for op in begin {
        put_led(alloc, &Distances::between(places, 0, at), at, op, out)?;
        at += size_at(op, at);
    }
    Ok(())
}

/// Puts a call that is handed the domain last.
fn put_in_domain(
    out: &mut Vec<Placed>,
    at: u32,
    domain: u16,
    reference: u16,
) -> Result<(), AllocError>
    requires domain { domain < 0x8000 }
    requires near { at ≤ 0x7fff }
    ensures { OnOk result (out.new.items ≡
        out.old.items ++ placed_at at (MethodExpansion.push_int domain) ∷ placed_at (at + size at (MethodExpansion.push_int domain)) (MethodExpansion.call_static reference) ∷ []) }
{
    put(out, at, push_int(domain))?;
    put(out, at + 3, call_static(reference))
}

/// Puts what an instruction becomes.
#[tactic(auto, using(crate::proofs::Sizes::emitted))]
fn put_expansion(
    alloc: Global,
    s: Setting,
    kind: Expand,
    one: &Placed,
    places: &Places,
    at: u32,
    out: &mut Vec<Placed>,
) -> Result<(), AllocError>
    requires domain { s.domain < 0x8000 }
    requires near { AssemblyLines.reach at (expansion s kind one.now.op) ≤ 0x7fff }
    ensures { OnOk result (out.new.items ≡ out.old.items ++ placed (in_table places.now) at (map (Do one.now.at) (expansion s kind one.now.op))) }
{
    let load = move_size(u32::from(s.local));
    match kind {
        Expand::Same => put_led(
            alloc,
            &Distances::between(places, one.at, at),
            at,
            &one.op,
            out,
        ),
        Expand::Call(reference) => {
            put(out, at, move_ref(Access::Load, s.local))?;
            let call = calling(alloc, reference, &one.op)?;
            let by = Distances::between(places, one.at, at + load);
            put_led(alloc, &by, at + load, &call, out)
        }
        Expand::Check(reference) | Expand::Snapshot(reference) => {
            put(out, at, move_ref(Access::Load, s.local))?;
            put(out, at + load, call_static(reference))
        }
        Expand::Privileged(reference) | Expand::PrivilegedWith(reference) => {
            put_in_domain(out, at, s.domain, reference)
        }
        Expand::PrivilegedLimited(reference) => {
            put(out, at, move_ref(Access::Load, s.local))?;
            put_in_domain(out, at + load, s.domain, reference)
        }
    }
}

/// Puts what instructions become, from a place on.
pub fn put_expansions(
    alloc: Global,
    s: Setting,
    kinds: &[Expand],
    ops: &[Placed],
    places: &Places,
    begin: u32,
    out: &mut Vec<Placed>,
) -> Result<(), AllocError>
    requires domain { s.domain < 0x8000 }
    requires same { length kinds.now ≡ length ops.now }
    requires near { AssemblyLines.end_of begin (expansions s kinds.now ops.now) ≤ 0x7fff }
    ensures { OnOk result (out.new.items ≡ out.old.items ++ placed (in_table places.now) begin (expansions s kinds.now ops.now)) }
{
    let mut at = begin;
    for (i, one) in ops.iter().enumerate() {
        put_expansion(alloc, s, kinds[i], one, places, at, out)?;
        at = reach(s, kinds[i], &one.op, at);
    }
    Ok(())
}
