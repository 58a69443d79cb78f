ghost use Rattle.std.specs.Prelude.{◌≡◌, ◌<◌, ◌+◌, ◌^◌, ℕ, IfOk, OnOk, length};
ghost use Rattle.jready.specs.declared.instr.Instr.TheVariants as instrs;
ghost use Rattle.jready.specs.declared.instr.Push.TheVariants as pushes;
ghost use Rattle.jruntime.specs.jstate.ObjectCells.{AreCelled};
ghost use Rattle.jruntime.specs.jstate.FrameLists.{all};
ghost use Rattle.jruntime.specs.jstate.HeapMeanings.{AreBuilt, Things};
ghost use Rattle.jrows.specs.declared.jcalls.ready.Counts.{Counts as CountsOf};
ghost use Rattle.jrows.specs.jcalls.FrameMarks.{Stand};
ghost use Rattle.jlibcalls.specs.jconstants.ConstantLoads.{RaisesNothing};
ghost use Rattle.jstepping.specs.jstep.StepRelation.{IsFixed, StepsAlike, StoodAs};
ghost use Rattle.jcalling.specs.jexecute.FrameSteps.{Advances, Fetches, quiet_as};

use jlibcalls::jconstants::Constants;
use jmemory::jheap::Heap;
use jrows::jacts::Way;
use jruntime::jstate::Frames;
use jserving::jcells::alike_laws;
use jserving::jinvoke::step_laws;
use jstepping::jstep::{RunTables, Stepped, behind_laws};
use std::alloc::{AllocError, Global};

/// What a step came to whose row raises and throws nothing.
#[inline]
fn stepped_by(way: Way) -> Stepped
    requires { RaisesNothing way }
    ensures { result ≡ quiet_as way }
{
    match way {
        Way::Went => Stepped::Went,
        Way::Full => Stepped::Full,
        Way::Stuck => Stepped::Stuck,
        Way::Raises(_) => unreachable!(),
        Way::Throws(_) => unreachable!(),
    }
}

/// A step that loads a string constant (JVMS 6.5: ldc).
#[inline]
pub(crate) fn step_load<M: Copy>(
    alloc: Global,
    frames: &mut Frames<M>,
    heap: &mut Heap,
    constants: &mut Constants<'_>,
    fixed: &RunTables<'_, '_, M>,
    index: u16,
) -> Result<Stepped, AllocError>
    requires fixed { IsFixed constants.old.program fixed.now }
    requires fetches { Fetches constants.old.program fixed.now frames.old.newest (instrs.Push (pushes.Text index)) }
    requires stand { Stand (length fixed.now.marks.now) (all frames.old) }
    requires built { AreBuilt heap.old.objects }
    requires celled { AreCelled fixed.now.shapes.now heap.old.objects }
    ensures row { IfOk result (λ done. (counts : CountsOf) → Advances constants.old.program fixed.now counts
        constants.old.constants frames.old heap.old done constants.new.constants frames.new heap.new) }
    ensures stand { IfOk result (λ done. StoodAs (length fixed.now.marks.now) done frames.new) }
    ensures built { OnOk result (AreBuilt heap.new.objects) }
    ensures celled { OnOk result (AreCelled fixed.now.shapes.now heap.new.objects) }
    ensures alike { IfOk result (λ done. (things : Things)
        → StepsAlike constants.old.program fixed.now.shapes.now things done heap.old.objects heap.new.objects) }
    ensures program { constants.new.program ≡ constants.old.program }
{
    step_laws::<M>();
    behind_laws::<M>();
    alike_laws::<M>();
    let class = frames.method().class;
    let way = constants.load(alloc, frames, heap, class, index)?;
    Ok(stepped_by(way))
}
