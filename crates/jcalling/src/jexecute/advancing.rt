ghost use Rattle.std.specs.Prelude.{◌≡◌, IfOk, OnOk, length};
ghost use Rattle.jresolution.specs.jprogram.ProgramClasses.{Program};
ghost use Rattle.jruntime.specs.jstate.ObjectCells.{AreCelled};
ghost use Rattle.jruntime.specs.jstate.HeapMeanings.{AreBuilt, Things};
ghost use Rattle.jrows.specs.jcalls.FrameMarks.{AreStanding};
ghost use Rattle.jrows.specs.jcalls.Readiness.{AreCounted};
ghost use Rattle.jstepping.specs.jrefs.ReferenceRows.{IsLasting};
ghost use Rattle.jstepping.specs.jstep.StepRelation.{IsFixed, StepsAlike, StoodAs};
ghost use Rattle.jcalling.specs.jexecute.FrameSteps.{Advances, Fetches, lasting_by};

use crate::jexecute::grouping::{Group, group_of};
use crate::jexecute::loading::step_load;
use crate::jexecute::referring::step_refs;
use jlibcalls::jconstants::Constants;
use jmemory::jheap::Heap;
use jready::{Instr, MethodRow};
use jrows::jcalls::Counts;
use jruntime::jstate::Frames;
use jserving::jinvoke::{Calls, step_laws};
use jstepping::jstep::{RunTables, Stepped};
use std::alloc::{AllocError, Global};

/// The instruction at which the newest frame of a thread stands.
#[inline]
fn instr_at<M: Copy>(frames: &Frames<M>, fixed: &RunTables<'_, '_, M>) -> Instr
    ensures { (p : Program) → IsFixed p fixed.now → Fetches p fixed.now frames.now.newest result }
{
    match fixed.ready.row_of(frames.method()) {
        None => Instr::Off,
        Some(row) => fixed.ready.fetch(&row, frames.place()),
    }
}

/// The number among all of the instruction at a place of a method.
#[inline]
pub(crate) fn site_of(row: &MethodRow, place: u32) -> usize {
    row.first as usize + place as usize
}

/// The number of the instruction at which the newest frame of a thread stands.
#[inline]
fn site_at<M: Copy>(frames: &Frames<M>, fixed: &RunTables<'_, '_, M>) -> usize {
    match fixed.ready.row_of(frames.method()) {
        None => usize::MAX,
        Some(row) => site_of(&row, frames.place()),
    }
}

/// A step of a thread, whose newest frame stands at this instruction.
#[inline]
fn step_at<M: Copy>(
    alloc: Global,
    frames: &mut Frames<M>,
    heap: &mut Heap,
    constants: &mut Constants<'_>,
    fixed: &RunTables<'_, '_, M>,
    calls: &mut Calls<'_>,
    counts: Counts,
    one: Instr,
) -> Result<Stepped, AllocError>
    requires fixed { IsFixed calls.old fixed.now }
    requires lasting { IsLasting (lasting_by fixed.now) }
    requires constants { constants.old.program ≡ calls.old }
    requires fetches { Fetches calls.old fixed.now frames.old.newest one }
    requires stand { AreStanding (length fixed.now.marks.now) frames.old }
    requires built { AreBuilt heap.old.objects }
    requires celled { AreCelled fixed.now.shapes.now heap.old.objects }
    ensures row { IfOk result (λ done. Advances calls.old fixed.now counts
        constants.old.constants frames.old heap.old done constants.new.constants frames.new heap.new) }
    ensures stand { IfOk result (λ done. StoodAs (length fixed.now.marks.now) done frames.new) }
    ensures built { OnOk result (AreBuilt heap.new.objects) }
    ensures celled { OnOk result (AreCelled fixed.now.shapes.now heap.new.objects) }
    ensures alike { IfOk result (λ done. (things : Things) → AreCounted counts things
        → StepsAlike calls.old fixed.now.shapes.now things done heap.old.objects heap.new.objects) }
    ensures program { constants.new.program ≡ constants.old.program }
    ensures same { calls.new ≡ calls.old }
{
    step_laws::<M>();
    match group_of(one) {
        Group::Off => Ok(Stepped::Stuck),
        Group::Text(index) => step_load(alloc, frames, heap, constants, fixed, index),
        Group::References => step_refs(alloc, frames, heap, fixed, calls.known(), counts, one),
        Group::Others => {
            let site = site_at(frames, fixed);
            jstepping::jstep::step(alloc, frames, heap, fixed, calls, counts, one, site)
        }
    }
}

/// A step of a thread that has frames, whichever its instruction is.
#[inline]
pub(crate) fn advance<M: Copy>(
    alloc: Global,
    frames: &mut Frames<M>,
    heap: &mut Heap,
    constants: &mut Constants<'_>,
    fixed: &RunTables<'_, '_, M>,
    calls: &mut Calls<'_>,
    counts: Counts,
) -> Result<Stepped, AllocError>
    requires fixed { IsFixed calls.old fixed.now }
    requires lasting { IsLasting (lasting_by fixed.now) }
    requires constants { constants.old.program ≡ calls.old }
    requires stand { AreStanding (length fixed.now.marks.now) frames.old }
    requires built { AreBuilt heap.old.objects }
    requires celled { AreCelled fixed.now.shapes.now heap.old.objects }
    ensures row { IfOk result (λ done. Advances calls.old fixed.now counts
        constants.old.constants frames.old heap.old done constants.new.constants frames.new heap.new) }
    ensures stand { IfOk result (λ done. StoodAs (length fixed.now.marks.now) done frames.new) }
    ensures built { OnOk result (AreBuilt heap.new.objects) }
    ensures celled { OnOk result (AreCelled fixed.now.shapes.now heap.new.objects) }
    ensures alike { IfOk result (λ done. (things : Things) → AreCounted counts things
        → StepsAlike calls.old fixed.now.shapes.now things done heap.old.objects heap.new.objects) }
    ensures program { constants.new.program ≡ constants.old.program }
    ensures same { calls.new ≡ calls.old }
{
    let one = instr_at(frames, fixed);
    step_at(alloc, frames, heap, constants, fixed, calls, counts, one)
}
