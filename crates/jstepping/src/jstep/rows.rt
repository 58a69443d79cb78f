ghost use Rattle.std.specs.Prelude.{◌≡◌, ◌<◌, ◌+◌, ◌^◌, IfOk, OnOk};
ghost use Rattle.jresolution.specs.jprogram.ProgramClasses.{Program};
ghost use Rattle.jready.specs.CodeLayout.{Within};
ghost use Rattle.jruntime.specs.jstate.ObjectCells.{StayCelled};
ghost use Rattle.jruntime.specs.jstate.HeapMeanings.{AreBuilt, Things};
ghost use Rattle.jserving.specs.jcells.ObjectEquivalence.{LeavesAlike};
ghost use Rattle.jserving.specs.jcells.ArrayTypeNumbers.{AreRows};
ghost use Rattle.jstepping.specs.jstep.InstructionRows.{IsHere, Runs, Stays};
ghost use Rattle.jrows.specs.jacts.RowOutcomes.{Rests};

use crate::jstep::arrays::array;
use crate::jstep::computing::{plain, push};
use crate::jstep::jumps::{flow, lookup, table};
use crate::jstep::run_tables::RunTables;
use jmemory::jheap::Heap;
use jready::Instr;
use jrows::jacts::{Way, local, stack};
use jruntime::jstate::Frames;
use jserving::jcells::alike_laws;
use std::alloc::{AllocError, Global};

/// The row of an instruction by number that is here.
#[inline]
#[tactic(auto, using(jrows::proofs::JactsProofs::ArrayFailures::same, jrows::proofs::JactsProofs::ArrayFailures::ok_same, crate::proofs::JstepProofs::ObjectPreservation::same_celled, crate::proofs::JstepProofs::ObjectPreservation::same_celled_if,),)]
fn run_row<M: Copy>(
    alloc: Global,
    frames: &mut Frames<M>,
    heap: &mut Heap,
    fixed: &RunTables<'_, '_, M>,
    one: Instr,
) -> Result<Way, AllocError>
    requires place { frames.old.newest.place + 1 < 2 ^ 32 }
    requires built { AreBuilt heap.old.objects }
    requires numbers { AreRows fixed.now.shapes.now fixed.now.numbers }
    requires here { IsHere one }
    requires within { Within fixed.now.tables.now one }
    ensures row { IfOk result (λ way. Runs fixed.now.tables.now fixed.now.shapes.now one frames.old.newest heap.old way frames.new.newest heap.new) }
    ensures below { OnOk result (frames.new.below ≡ frames.old.below) }
    ensures rests { IfOk result (λ way. Rests way frames.old frames.new) }
    ensures kept { IfOk result (λ way. Rests way heap.old heap.new) }
    ensures built { OnOk result (AreBuilt heap.new.objects) }
    ensures celled { OnOk result (StayCelled heap.old.objects heap.new.objects) }
{
    match one {
        Instr::Plain(f) => plain(frames, fixed.tables, f),
        Instr::Push(f) => push(frames, fixed.tables, f),
        Instr::Local(f) => local(frames, f),
        Instr::Stack(op) => stack(frames, op),
        Instr::Flow(f) => Ok(flow(frames, f)),
        Instr::Table(c) => Ok(table(frames, fixed.tables, c)),
        Instr::Lookup(c) => Ok(lookup(frames, fixed.tables, c)),
        Instr::Array(f) => array(alloc, frames, heap, fixed.shapes, fixed.numbers, f),
        _ => unreachable!(),
    }
}

/// Does what an instruction by number does that is here: one with numbers alone, with a local, with the newest items of the stack, or with
/// an array, but a store of a reference. What is left to do behind it is answered.
#[inline]
pub fn run<M: Copy>(
    alloc: Global,
    frames: &mut Frames<M>,
    heap: &mut Heap,
    fixed: &RunTables<'_, '_, M>,
    one: Instr,
) -> Result<Way, AllocError>
    requires place { frames.old.newest.place + 1 < 2 ^ 32 }
    requires built { AreBuilt heap.old.objects }
    requires numbers { AreRows fixed.now.shapes.now fixed.now.numbers }
    requires here { IsHere one }
    requires within { Within fixed.now.tables.now one }
    ensures row { IfOk result (λ way. Runs fixed.now.tables.now fixed.now.shapes.now one frames.old.newest heap.old way frames.new.newest heap.new) }
    ensures stays { IfOk result (λ way. Stays way frames.old.newest frames.new.newest) }
    ensures below { OnOk result (frames.new.below ≡ frames.old.below) }
    ensures rests { IfOk result (λ way. Rests way frames.old frames.new) }
    ensures kept { IfOk result (λ way. Rests way heap.old heap.new) }
    ensures built { OnOk result (AreBuilt heap.new.objects) }
    ensures celled { OnOk result (StayCelled heap.old.objects heap.new.objects) }
    ensures alike { IfOk result
        (λ way. (p : Program) (things : Things) → LeavesAlike p fixed.now.shapes.now things way heap.old.objects heap.new.objects) }
{
    alike_laws::<M>();
    run_row(alloc, frames, heap, fixed, one)
}
