ghost use Rattle.std.specs.Prelude.{◌≡◌, ◌≤◌, ◌+◌, ℕ, length, slice_get, true};
ghost use Rattle.jmemory.specs.jheap.Heaps.{kind_at};
ghost use Rattle.jsemantics.specs.jmachine.Store.{Store};
ghost use Rattle.jresolution.specs.juses.InstructionMeanings.{CallMeaning};
ghost use Rattle.jresolution.specs.declared.juses.meaning.InvokeKind.TheVariants as how;
ghost use Rattle.jserving.specs.jserve.CallOperandChecks;
ghost use Rattle.jserving.specs.jserve.CallOperandChecks.{CallServes, IsCall, begins_in, count_of};
ghost use Rattle.jserving.specs.jserve.ValueTypes.{IsStore};

use crate::jfits::{Ancestors, fits};
use crate::jserve::serving::{object_serves, params_serve};
use crate::jserve::values::{Objects, kind_type};
use jresolution::jprogram::ClassRef;
use jresolution::juses::{InvokeKind, TypeRef};
use jruntime::jstate::{Frames, heap_laws};
use jvalues::jops::Value;

/// Whether an `<init>` of a class may be called on the object of a number, which may hold nothing yet.
#[inline]
#[tactic(auto, unfolding(jsemantics::specs::jmachine::World::world))]
fn begins_on(a: &Ancestors<'_>, x: &Objects<'_>, owner: ClassRef, o: u32) -> bool
    ensures { result ≡ CallOperandChecks.begins_as a.now x.now owner (kind_at x.now.heap.now o) }
{
    match x.heap.found(o) {
        None => false,
        Some(kind) => fits(a, kind_type(x.shapes, kind), TypeRef::Object(owner)),
    }
}

/// Whether an `<init>` of a class may be called on a value.
#[inline]
#[tactic(auto, using(crate::proofs::JserveProofs::CallOperands::on_null, crate::proofs::JserveProofs::CallOperands::on_object))]
fn begins(a: &Ancestors<'_>, x: &Objects<'_>, owner: ClassRef, value: Value) -> bool
    ensures { result ≡ begins_in a.now x.now owner value }
{
    match value {
        Value::Int(_) => false,
        Value::Long(_) => false,
        Value::Ctx(_) => false,
        Value::Ref(o) => {
            if o == 0 {
                return true;
            }
            begins_on(a, x, owner, o)
        }
    }
}

/// Whether an `<init>` of a class may be called on the operand at a place, counted from the newest, if it is there.
#[inline]
fn begins_at<M: Copy>(
    a: &Ancestors<'_>,
    x: &Objects<'_>,
    frames: &Frames<M>,
    owner: ClassRef,
    i: usize,
) -> bool
    ensures { result ≡ CallOperandChecks.begins_at a.now x.now owner (slice_get frames.now.newest.operands i) }
{
    if i >= frames.count() {
        return false;
    }
    begins(a, x, owner, frames.operand(i))
}

/// Whether the operands of a call of an `<init>` serve.
#[inline]
fn init_serves<M: Copy>(
    a: &Ancestors<'_>,
    x: &Objects<'_>,
    frames: &Frames<M>,
    owner: ClassRef,
    params: &[TypeRef],
) -> bool
    ensures serve { (s : Store ℕ) (c : CallMeaning) → IsStore a.now x.now s → IsCall a.now owner params.now c
        → CallServes a.now s frames.now.newest.method.class how.Init c (length params.now + 1) frames.now.newest.operands result }
    ensures few { result ≡ true → length params.now + 1 ≤ length frames.now.newest.operands }
{
    heap_laws();
    if !params_serve(a, x, frames, params) {
        return false;
    }
    begins_at(a, x, frames, owner, params.len())
}

/// Whether the newest operands serve for a call, by how it is made, the class by which its method is named, and the types of the
/// parameters, the newest first: its arguments and, behind them, its object.
#[inline]
pub fn call_serves<M: Copy>(
    a: &Ancestors<'_>,
    x: &Objects<'_>,
    frames: &Frames<M>,
    by: InvokeKind,
    owner: ClassRef,
    params: &[TypeRef],
) -> bool
    ensures serve { (s : Store ℕ) (c : CallMeaning) → IsStore a.now x.now s → IsCall a.now owner params.now c
        → CallServes a.now s frames.now.newest.method.class by c (count_of by (length params.now)) frames.now.newest.operands result }
    ensures few { result ≡ true → count_of by (length params.now) ≤ length frames.now.newest.operands }
{
    heap_laws();
    match by {
        InvokeKind::Static => params_serve(a, x, frames, params),
        InvokeKind::Virtual => object_serves(a, x, frames, params, TypeRef::Object(owner)),
        InvokeKind::Interface => object_serves(a, x, frames, params, TypeRef::Object(owner)),
        InvokeKind::Special => {
            let this = ClassRef::User(frames.method().class);
            object_serves(a, x, frames, params, TypeRef::Object(this))
        }
        InvokeKind::Init => init_serves(a, x, frames, owner, params),
    }
}
