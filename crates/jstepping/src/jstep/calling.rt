ghost use Rattle.std.specs.Prelude.{◌≡◌, ◌≤◌, ◌<◌, ◌^◌, IfOk, IfSome, OnOk, length, true};
ghost use Rattle.jserving.specs.jinvoke.InvokeOutcomes.{CallWithin};
ghost use Rattle.jserving.specs.jserve.CallOperandChecks as counting;
ghost use Rattle.jruntime.specs.jstate.ObjectCells.{StayCelled};
ghost use Rattle.jruntime.specs.jstate.FrameLists.{all};
ghost use Rattle.jruntime.specs.jstate.HeapMeanings.{AreBuilt};
ghost use Rattle.jrows.specs.jcalls.FrameMarks.{Stand};
ghost use Rattle.jserving.specs.jcells.ObjectEquivalence.{NamesNoMore};
ghost use Rattle.jstepping.specs.jstep.StepRelation.{ExecutesCall, IsFixed, StoodAs};
ghost use Rattle.jstepping.specs.jstep.HeapOperands.{ServesCall, TakesCall};

use crate::jstep::outcomes::Stepped;
use crate::jstep::run_tables::RunTables;
use crate::jstep::settling::settle_call;
use jmemory::jheap::Heap;
use jresolution::jprogram::ClassRef;
use jresolution::juses::{InvokeKind, Span, TypeRef};
use jrows::jcalls::{Counts, Room};
use jruntime::jstate::Frames;
use jserving::jinvoke::Calls;
use jserving::jserve::{Objects, call_serves};
use std::alloc::{AllocError, Global};

/// How many operands a call takes that has so many parameters.
#[inline]
fn count_of(by: InvokeKind, params: usize) -> usize
    requires { counting.count_of by params < 2 ^ 64 }
    ensures { result ≡ counting.count_of by params }
{
    match by {
        InvokeKind::Static => params,
        InvokeKind::Virtual => params + 1,
        InvokeKind::Special => params + 1,
        InvokeKind::Interface => params + 1,
        InvokeKind::Init => params + 1,
    }
}

/// Whether the newest operands serve for a call.
#[inline]
fn serves<M: Copy>(
    frames: &Frames<M>,
    heap: &Heap,
    fixed: &RunTables<'_, '_, M>,
    counts: Counts,
    by: InvokeKind,
    owner: ClassRef,
    params: &[TypeRef],
) -> bool
    ensures serve { ServesCall fixed.now.ancestors.now fixed.now.shapes.now counts heap.now frames.now by owner params.now result }
    ensures few { result ≡ true → counting.count_of by (length params.now) ≤ length frames.now.newest.operands }
{
    let x = Objects {
        shapes: fixed.shapes,
        heap,
        counts,
    };
    call_serves(fixed.ancestors, &x, frames, by, owner, params)
}

/// How many operands a call takes, where they serve.
#[inline]
fn taken<M: Copy>(
    frames: &Frames<M>,
    heap: &Heap,
    fixed: &RunTables<'_, '_, M>,
    counts: Counts,
    by: InvokeKind,
    owner: ClassRef,
    params: Span,
) -> Option<usize>
    ensures takes { TakesCall fixed.now counts heap.now frames.now by owner params result }
    ensures few { IfSome result (λ count. count ≤ length frames.now.newest.operands) }
{
    let types = fixed.ready.params(params);
    if !serves(frames, heap, fixed, counts, by, owner, types) {
        return None;
    }
    Some(count_of(by, types.len()))
}

/// A step that calls a method, or comes to one of the library, at a site.
#[tactic(auto, using(crate::proofs::JstepProofs::ObjectPreservation::same_celled, crate::proofs::JstepProofs::ObjectPreservation::same_names))]
pub(crate) fn step_call<M: Copy>(
    alloc: Global,
    frames: &mut Frames<M>,
    heap: &mut Heap,
    fixed: &RunTables<'_, '_, M>,
    calls: &mut Calls<'_>,
    counts: Counts,
    site: usize,
    by: InvokeKind,
    pool: u16,
    params: Span,
) -> Result<Stepped, AllocError>
    requires fixed { IsFixed calls.old fixed.now }
    requires within { CallWithin calls.old frames.old.newest.method.class by pool }
    requires stand { Stand (length fixed.now.marks.now) (all frames.old) }
    requires built { AreBuilt heap.old.objects }
    ensures row { IfOk result (λ done. ExecutesCall calls.old fixed.now counts by pool params frames.old heap.old done frames.new heap.new) }
    ensures built { OnOk result (AreBuilt heap.new.objects) }
    ensures celled { OnOk result (StayCelled heap.old.objects heap.new.objects) }
    ensures alike { OnOk result (NamesNoMore heap.old.objects heap.new.objects) }
    ensures stand { IfOk result (λ done. StoodAs (length fixed.now.marks.now) done frames.new) }
    ensures same { calls.new ≡ calls.old }
{
    let Some(owner) = calls.owner_at(site, frames.method().class, by, pool) else {
        return Ok(Stepped::Stuck);
    };
    let Some(count) = taken(frames, heap, fixed, counts, by, owner, params) else {
        return Ok(Stepped::Stuck);
    };
    let room = Room {
        frames: frames.depth(),
        depth: fixed.depth,
    };
    let called = calls.invoke(frames, heap, site, by, pool, count, fixed.marks, room)?;
    let known = calls.known();
    settle_call(alloc, frames, heap, called, count, fixed.marks, known)
}
