ghost use Rattle.std.specs.Prelude.{IfOk, OnOk, length};
ghost use Rattle.jruntime.specs.jstate.ObjectCells.{StayCelled};
ghost use Rattle.jruntime.specs.jstate.HeapMeanings.{AreBuilt};
ghost use Rattle.jserving.specs.jcells.ObjectEquivalence.{NamesNoMore};
ghost use Rattle.jrows.specs.jcalls.MethodCalls.{CallStands};
ghost use Rattle.jstepping.specs.jstep.InstructionRows.{MayRaise};
ghost use Rattle.jstepping.specs.jstep.StepRelation.{CallLeft, IsQuiet, Settles, SettlesCall, StandsFor, StaysStuck, StoodAs};

use crate::jstep::outcomes::Stepped;
use crate::jstep::raising::{settle_raised, thrown_class};
use jmemory::jheap::Heap;
use jrows::jacts::Way;
use jrows::jcalls::Called;
use jruntime::jstate::Frames;
use jserving::jinvoke::MethodLookup;
use std::alloc::{AllocError, Global};

/// Does what a row left to do.
#[inline]
#[tactic(auto, using(crate::proofs::JstepProofs::ObjectPreservation::same_celled, crate::proofs::JstepProofs::ObjectPreservation::same_names))]
pub fn settle<M: Copy>(
    alloc: Global,
    frames: &mut Frames<M>,
    heap: &mut Heap,
    way: Way,
    marks: &[M],
    known: &MethodLookup<'_>,
) -> Result<Stepped, AllocError>
    requires raised { MayRaise way }
    requires stand { StandsFor (length marks.now) way frames.old }
    requires built { AreBuilt heap.old.objects }
    ensures row { IfOk result (λ done. Settles marks.now known.now way frames.old heap.old done frames.new heap.new) }
    ensures quiet { IfOk result IsQuiet }
    ensures stuck { IfOk result (StaysStuck way) }
    ensures built { OnOk result (AreBuilt heap.new.objects) }
    ensures celled { OnOk result (StayCelled heap.old.objects heap.new.objects) }
    ensures alike { OnOk result (NamesNoMore heap.old.objects heap.new.objects) }
    ensures stand { IfOk result (λ done. StoodAs (length marks.now) done frames.new) }
{
    match way {
        Way::Went => Ok(Stepped::Went),
        Way::Full => Ok(Stepped::Full),
        Way::Stuck => Ok(Stepped::Stuck),
        Way::Raises(class) => {
            settle_raised(alloc, frames, heap, thrown_class(class), marks, known)
        }
        Way::Throws(_) => unreachable!(),
    }
}

/// Does what a call of so many operands left to do.
#[inline]
#[tactic(auto, using(crate::proofs::JstepProofs::ObjectPreservation::same_celled, crate::proofs::JstepProofs::ObjectPreservation::same_names))]
pub fn settle_call<M: Copy>(
    alloc: Global,
    frames: &mut Frames<M>,
    heap: &mut Heap,
    called: Called,
    count: usize,
    marks: &[M],
    known: &MethodLookup<'_>,
) -> Result<Stepped, AllocError>
    requires left { CallLeft called count frames.old }
    requires stand { CallStands (length marks.now) called frames.old }
    requires built { AreBuilt heap.old.objects }
    ensures row { IfOk result (λ done. SettlesCall marks.now known.now called count frames.old heap.old done frames.new heap.new) }
    ensures built { OnOk result (AreBuilt heap.new.objects) }
    ensures celled { OnOk result (StayCelled heap.old.objects heap.new.objects) }
    ensures alike { OnOk result (NamesNoMore heap.old.objects heap.new.objects) }
    ensures stand { IfOk result (λ done. StoodAs (length marks.now) done frames.new) }
{
    match called {
        Called::Begun => Ok(Stepped::Went),
        Called::Stuck => Ok(Stepped::Stuck),
        Called::Runs(call) => Ok(Stepped::Asks { call, count }),
        Called::Raises(class) => {
            settle_raised(alloc, frames, heap, thrown_class(class), marks, known)
        }
    }
}
