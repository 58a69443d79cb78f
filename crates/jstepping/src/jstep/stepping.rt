ghost use Rattle.std.specs.Prelude.{◌≡◌, IfOk, OnOk, length};
ghost use Rattle.jready.specs.InlineOperands.{Exact};
ghost use Rattle.jready.specs.CodeLayout.{Within};
ghost use Rattle.jready.specs.DecodedInstructions.{meant};
ghost use Rattle.jready.specs.declared.instr.Instr.TheVariants as instrs;
ghost use Rattle.jsemantics.specs.jmachine.MachineSteps.{fetched};
ghost use Rattle.jruntime.specs.jstate.FrameLists.{all};
ghost use Rattle.jruntime.specs.jstate.ObjectCells.{StayCelled};
ghost use Rattle.jruntime.specs.jstate.HeapMeanings.{AreBuilt, Things};
ghost use Rattle.jrows.specs.declared.jcalls.ready.Counts.{Counts as CountsOf};
ghost use Rattle.jrows.specs.jcalls.FrameMarks.{Stand};
ghost use Rattle.jstepping.specs.jstep.InstructionRows.{IsHere};
ghost use Rattle.jstepping.specs.jstep.StepRelation.{Executes, IsFixed, IsFlowStep, IsStep, Steps, StepsAlike, StoodAs};

use crate::jstep::calling::step_call;
use crate::jstep::laws::behind_laws;
use crate::jstep::outcomes::Stepped;
use crate::jstep::returning::step_return;
use crate::jstep::rows::run;
use crate::jstep::run_tables::RunTables;
use crate::jstep::settling::settle;
use crate::jstep::throwing::step_throw;
use jmemory::jheap::Heap;
use jready::{FlowInstr, Instr};
use jrows::jcalls::Counts;
use jruntime::jstate::Frames;
use jserving::jinvoke::{Calls, MethodLookup, step_laws, within_laws};
use std::alloc::{AllocError, Global};

/// A step with a row.
#[inline]
fn step_row<M: Copy>(
    alloc: Global,
    frames: &mut Frames<M>,
    heap: &mut Heap,
    fixed: &RunTables<'_, '_, M>,
    known: &MethodLookup<'_>,
    one: Instr,
) -> Result<Stepped, AllocError>
    requires fixed { IsFixed known.now fixed.now }
    requires here { IsHere one }
    requires within { Within fixed.now.tables.now one }
    requires stand { Stand (length fixed.now.marks.now) (all frames.old) }
    requires built { AreBuilt heap.old.objects }
    ensures row { IfOk result
        (λ done. (counts : CountsOf) → Executes known.now fixed.now counts (meant known.now fixed.now.tables.now frames.old.newest.method.class one)
        frames.old heap.old done frames.new heap.new) }
    ensures built { OnOk result (AreBuilt heap.new.objects) }
    ensures celled { OnOk result (StayCelled heap.old.objects heap.new.objects) }
    ensures alike { IfOk result (λ done. (things : Things) →
        StepsAlike known.now fixed.now.shapes.now things done heap.old.objects heap.new.objects) }
    ensures stand { IfOk result (λ done. StoodAs (length fixed.now.marks.now) done frames.new) }
{
    behind_laws::<M>();
    let way = run(alloc, frames, heap, fixed, one)?;
    settle(alloc, frames, heap, way, fixed.marks, known)
}

/// A step that says where the method goes on.
#[inline]
#[tactic(auto, using(crate::proofs::JstepProofs::ObjectPreservation::same_celled, crate::proofs::JstepProofs::ObjectPreservation::same_celled_if))]
fn step_flow<M: Copy>(
    alloc: Global,
    frames: &mut Frames<M>,
    heap: &mut Heap,
    fixed: &RunTables<'_, '_, M>,
    known: &MethodLookup<'_>,
    counts: Counts,
    f: FlowInstr,
) -> Result<Stepped, AllocError>
    requires fixed { IsFixed known.now fixed.now }
    requires here { IsFlowStep f }
    requires stand { Stand (length fixed.now.marks.now) (all frames.old) }
    requires built { AreBuilt heap.old.objects }
    ensures row { IfOk result
        (λ done. Executes known.now fixed.now counts (meant known.now fixed.now.tables.now frames.old.newest.method.class (instrs.Flow f))
        frames.old heap.old done frames.new heap.new) }
    ensures built { OnOk result (AreBuilt heap.new.objects) }
    ensures celled { OnOk result (StayCelled heap.old.objects heap.new.objects) }
    ensures alike { IfOk result (λ done. (things : Things) →
        StepsAlike known.now fixed.now.shapes.now things done heap.old.objects heap.new.objects) }
    ensures stand { IfOk result (λ done. StoodAs (length fixed.now.marks.now) done frames.new) }
{
    match f {
        FlowInstr::Jump(_, _) => step_row(alloc, frames, heap, fixed, known, Instr::Flow(f)),
        FlowInstr::Return(kind) => step_return(frames, heap, fixed, counts, kind),
        FlowInstr::Throw => step_throw(alloc, frames, heap, fixed, known, counts),
    }
}

/// A step of a thread, whose newest frame stands at an instruction that is here. A call is remembered by the number of its site, which may
/// be any.
#[inline(always)]
#[tactic(auto, using(crate::proofs::JstepProofs::ObjectPreservation::same_celled, crate::proofs::JstepProofs::ObjectPreservation::same_celled_if))]
pub fn step<M: Copy>(
    alloc: Global,
    frames: &mut Frames<M>,
    heap: &mut Heap,
    fixed: &RunTables<'_, '_, M>,
    calls: &mut Calls<'_>,
    counts: Counts,
    one: Instr,
    site: usize,
) -> Result<Stepped, AllocError>
    requires fixed { IsFixed calls.old fixed.now }
    requires here { IsStep one }
    requires means { meant calls.old fixed.now.tables.now frames.old.newest.method.class one
        ≡ fetched calls.old frames.old.newest.method frames.old.newest.place }
    requires within { Within fixed.now.tables.now one }
    requires exact { Exact calls.old fixed.now.ready.now.uses.types fixed.now.tables.now frames.old.newest.method.class one }
    requires stand { Stand (length fixed.now.marks.now) (all frames.old) }
    requires built { AreBuilt heap.old.objects }
    ensures row { IfOk result (λ done. Steps calls.old fixed.now counts frames.old heap.old done frames.new heap.new) }
    ensures built { OnOk result (AreBuilt heap.new.objects) }
    ensures celled { OnOk result (StayCelled heap.old.objects heap.new.objects) }
    ensures alike { IfOk result (λ done. (things : Things) →
        StepsAlike calls.old fixed.now.shapes.now things done heap.old.objects heap.new.objects) }
    ensures stand { IfOk result (λ done. StoodAs (length fixed.now.marks.now) done frames.new) }
    ensures same { calls.new ≡ calls.old }
{
    step_laws::<M>();
    within_laws();
    match one {
        Instr::Off => Ok(Stepped::Stuck),
        Instr::Plain(_) => step_row(alloc, frames, heap, fixed, calls.known(), one),
        Instr::Push(_) => step_row(alloc, frames, heap, fixed, calls.known(), one),
        Instr::Local(_) => step_row(alloc, frames, heap, fixed, calls.known(), one),
        Instr::Stack(_) => step_row(alloc, frames, heap, fixed, calls.known(), one),
        Instr::Flow(f) => step_flow(alloc, frames, heap, fixed, calls.known(), counts, f),
        Instr::Table(_) => step_row(alloc, frames, heap, fixed, calls.known(), one),
        Instr::Lookup(_) => step_row(alloc, frames, heap, fixed, calls.known(), one),
        Instr::Array(_) => step_row(alloc, frames, heap, fixed, calls.known(), one),
        Instr::Object(_) => step_row(alloc, frames, heap, fixed, calls.known(), one),
        Instr::Field { .. } => step_row(alloc, frames, heap, fixed, calls.known(), one),
        Instr::Call {
            how,
            pool,
            params,
            ..
        } => step_call(
            alloc, frames, heap, fixed, calls, counts, site, how, pool, params,
        ),
        Instr::Library {
            how,
            pool,
            params,
            ..
        } => step_call(
            alloc, frames, heap, fixed, calls, counts, site, how, pool, params,
        ),
    }
}
