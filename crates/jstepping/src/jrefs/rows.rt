ghost use Rattle.std.specs.Prelude.{◌≡◌, ◌<◌, ◌+◌, ◌^◌, IfOk, OnOk};
ghost use Rattle.jresolution.specs.juses.IndexedInstructions as instructions;
ghost use Rattle.jresolution.specs.juses.InternedInstructions.{test_of};
ghost use Rattle.jready.specs.declared.instr.ArrayInstr.TheVariants as arrays;
ghost use Rattle.jready.specs.DecodedInstructions.{array_instr, flow_meant};
ghost use Rattle.jruntime.specs.jstate.ObjectCells.{AreCelled};
ghost use Rattle.jruntime.specs.jstate.HeapMeanings.{AreBuilt};
ghost use Rattle.jrows.specs.jobjs.RowFrames.{Stays};
ghost use Rattle.jstepping.specs.jrefs.ReferenceRows.{IsExact, IsFetched, IsFlowHere, IsHere, IsLasting, IsRefTest, Runs, RunsAlike, StaysStuck, StoresRef};
ghost use Rattle.jstepping.specs.jrefs.RowInvariance.{SeenActs, SeenRuns};
ghost use Rattle.jrows.specs.jacts.RowOutcomes.{Rests};

use crate::jrefs::arrays::store;
use crate::jrefs::branches::branch;
use crate::jrefs::lasting::Lasting;
use crate::jrefs::looking::FieldAt;
use crate::jrefs::objects::{field, object};
use jlinking::jlink::field_law;
use jmemory::jheap::Heap;
use jparts::jcode::Element;
use jready::{ArrayInstr, FlowInstr, Instr};
use jresolution::juses::Condition;
use jrows::jacts::Way;
use jrows::jcalls::Counts;
use jruntime::jstate::Frames;
use jserving::jcells::alike_laws;
use std::alloc::{AllocError, Global};

/// A branch that tests references.
#[inline]
fn jump<M: Copy>(
    frames: &mut Frames<M>,
    heap: &Heap,
    x: &Lasting<'_, '_>,
    counts: Counts,
    when: Condition,
    to: u32,
) -> Way
    requires place { frames.old.newest.place + 1 < 2 ^ 32 }
    requires here { IsRefTest when }
    ensures row { SeenActs x.now counts (instructions.Jump (test_of when) to) frames.old.newest heap.now result frames.new.newest heap.now }
    ensures stays { Stays result frames.old.newest frames.new.newest }
    ensures below { frames.new.below ≡ frames.old.below }
    ensures rests { Rests result frames.old frames.new }
{
    match when {
        Condition::IfRef(test) => branch(frames, heap, x, counts, test, to),
        Condition::Always => unreachable!(),
        Condition::If(_) => unreachable!(),
        Condition::IfInt(_) => unreachable!(),
    }
}

/// What says where the method goes on, where that is such a branch.
#[inline]
fn flow<M: Copy>(
    frames: &mut Frames<M>,
    heap: &Heap,
    x: &Lasting<'_, '_>,
    counts: Counts,
    f: FlowInstr,
) -> Way
    requires place { frames.old.newest.place + 1 < 2 ^ 32 }
    requires here { IsFlowHere f }
    ensures row { SeenActs x.now counts (flow_meant f) frames.old.newest heap.now result frames.new.newest heap.now }
    ensures stays { Stays result frames.old.newest frames.new.newest }
    ensures below { frames.new.below ≡ frames.old.below }
    ensures rests { Rests result frames.old frames.new }
{
    match f {
        FlowInstr::Jump(when, to) => jump(frames, heap, x, counts, when, to),
        FlowInstr::Return(_) => unreachable!(),
        FlowInstr::Throw => unreachable!(),
    }
}

/// A store into an array of references.
#[inline]
fn store_of<M: Copy>(
    frames: &mut Frames<M>,
    heap: &mut Heap,
    x: &Lasting<'_, '_>,
    counts: Counts,
    element: Element,
) -> Way
    requires place { frames.old.newest.place + 1 < 2 ^ 32 }
    requires here { StoresRef (arrays.Store element) }
    requires built { AreBuilt heap.old.objects }
    requires celled { AreCelled x.now.shapes.now heap.old.objects }
    ensures row { SeenActs x.now counts (array_instr (arrays.Store element)) frames.old.newest heap.old result frames.new.newest heap.new }
    ensures stays { Stays result frames.old.newest frames.new.newest }
    ensures below { frames.new.below ≡ frames.old.below }
    ensures rests { Rests result frames.old frames.new }
    ensures kept { Rests result heap.old heap.new }
    ensures built { AreBuilt heap.new.objects }
    ensures celled { AreCelled x.now.shapes.now heap.new.objects }
{
    match element {
        Element::Ref => store(frames, heap, x, counts),
        Element::Int => unreachable!(),
        Element::Long => unreachable!(),
        Element::Byte => unreachable!(),
        Element::Char => unreachable!(),
        Element::Short => unreachable!(),
    }
}

/// An instruction with an array, where that is such a store.
#[inline]
#[tactic(auto, using(jrows::proofs::JactsProofs::ArrayFailures::same))]
fn array<M: Copy>(
    frames: &mut Frames<M>,
    heap: &mut Heap,
    x: &Lasting<'_, '_>,
    counts: Counts,
    f: ArrayInstr,
) -> Way
    requires place { frames.old.newest.place + 1 < 2 ^ 32 }
    requires here { StoresRef f }
    requires built { AreBuilt heap.old.objects }
    requires celled { AreCelled x.now.shapes.now heap.old.objects }
    ensures row { SeenActs x.now counts (array_instr f) frames.old.newest heap.old result frames.new.newest heap.new }
    ensures stays { Stays result frames.old.newest frames.new.newest }
    ensures below { frames.new.below ≡ frames.old.below }
    ensures rests { Rests result frames.old frames.new }
    ensures kept { Rests result heap.old heap.new }
    ensures built { AreBuilt heap.new.objects }
    ensures celled { AreCelled x.now.shapes.now heap.new.objects }
{
    match f {
        ArrayInstr::Store(element) => store_of(frames, heap, x, counts, element),
        ArrayInstr::New(_) => unreachable!(),
        ArrayInstr::Load(_) => unreachable!(),
        ArrayInstr::Length => unreachable!(),
    }
}

/// The row of an instruction by number that is here.
#[inline]
#[tactic(auto, using(jrows::proofs::JactsProofs::ArrayFailures::same, jrows::proofs::JactsProofs::ArrayFailures::ok_same))]
fn run_row<M: Copy>(
    alloc: Global,
    frames: &mut Frames<M>,
    heap: &mut Heap,
    x: &Lasting<'_, '_>,
    counts: Counts,
    one: Instr,
) -> Result<Way, AllocError>
    requires place { frames.old.newest.place + 1 < 2 ^ 32 }
    requires lasting { IsLasting x.now }
    requires here { IsHere one }
    requires means { IsFetched x.now one frames.old.newest }
    requires exact { IsExact x.now one frames.old.newest }
    requires built { AreBuilt heap.old.objects }
    requires celled { AreCelled x.now.shapes.now heap.old.objects }
    ensures row { IfOk result (λ way. SeenRuns x.now counts one frames.old.newest heap.old way frames.new.newest heap.new) }
    ensures missing { IfOk result (λ way. StaysStuck x.now one frames.old.newest way) }
    ensures stays { IfOk result (λ way. Stays way frames.old.newest frames.new.newest) }
    ensures below { OnOk result (frames.new.below ≡ frames.old.below) }
    ensures rests { IfOk result (λ way. Rests way frames.old frames.new) }
    ensures kept { IfOk result (λ way. Rests way heap.old heap.new) }
    ensures built { OnOk result (AreBuilt heap.new.objects) }
    ensures celled { OnOk result (AreCelled x.now.shapes.now heap.new.objects) }
{
    field_law();
    match one {
        Instr::Flow(f) => Ok(flow(frames, heap, x, counts, f)),
        Instr::Array(f) => Ok(array(frames, heap, x, counts, f)),
        Instr::Object(f) => object(alloc, frames, heap, x, counts, f),
        Instr::Field {
            op,
            cell,
            narrow,
            pool,
            slot,
            owner,
        } => {
            let a = FieldAt {
                op,
                cell,
                narrow,
                pool,
                slot,
                owner,
            };
            field(frames, heap, x, counts, a)
        }
        _ => unreachable!(),
    }
}

/// Does what an instruction by number does that is here: one with a class or a field, a store of a reference into an array, or a branch that
/// tests references. What is left to do behind it is answered. `counts` says how many permissions and contexts the machine keeps.
#[inline]
pub fn run<M: Copy>(
    alloc: Global,
    frames: &mut Frames<M>,
    heap: &mut Heap,
    x: &Lasting<'_, '_>,
    counts: Counts,
    one: Instr,
) -> Result<Way, AllocError>
    requires place { frames.old.newest.place + 1 < 2 ^ 32 }
    requires lasting { IsLasting x.now }
    requires here { IsHere one }
    requires means { IsFetched x.now one frames.old.newest }
    requires exact { IsExact x.now one frames.old.newest }
    requires built { AreBuilt heap.old.objects }
    requires celled { AreCelled x.now.shapes.now heap.old.objects }
    ensures row { IfOk result (λ way. Runs x.now counts one frames.old.newest heap.old way frames.new.newest heap.new) }
    ensures missing { IfOk result (λ way. StaysStuck x.now one frames.old.newest way) }
    ensures alike { IfOk result (λ way. RunsAlike x.now counts way heap.old.objects heap.new.objects) }
    ensures stays { IfOk result (λ way. Stays way frames.old.newest frames.new.newest) }
    ensures below { OnOk result (frames.new.below ≡ frames.old.below) }
    ensures rests { IfOk result (λ way. Rests way frames.old frames.new) }
    ensures kept { IfOk result (λ way. Rests way heap.old heap.new) }
    ensures built { OnOk result (AreBuilt heap.new.objects) }
    ensures celled { OnOk result (AreCelled x.now.shapes.now heap.new.objects) }
{
    alike_laws::<M>();
    run_row(alloc, frames, heap, x, counts, one)
}
