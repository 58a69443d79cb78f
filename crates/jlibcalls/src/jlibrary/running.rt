ghost use Rattle.std.specs.Prelude.{◌≡◌, ◌<◌, ◌≤◌, ◌+◌, ◌^◌, ℕ, IfOk, OnOk, Some, length, take};
ghost use Rattle.jsemantics.specs.jmachine.CallTargets.{receiver};
ghost use Rattle.jvalues.specs.declared.jops.value.Value.{Value as Held};
ghost use Rattle.jresolution.specs.jprogram.ProgramClasses.{Program};
ghost use Rattle.jruntime.specs.jstate.ObjectCells.{AreCelled, StayCelled};
ghost use Rattle.jruntime.specs.jstate.HeapMeanings.{AreBuilt};
ghost use Rattle.jrows.specs.jtexts.Messages.{MayBeTold};
ghost use Rattle.jlibcalls.specs.jlibrary.HeldPermissions.{AreHeld};
ghost use Rattle.jlibcalls.specs.jlibrary.LibraryOutcomes.{IsAskFree, IsTelling, Runs, Stays};

use crate::jlibrary::came::Came;
use crate::jlibrary::going::go;
use crate::jlibrary::rows::row;
use jground::jbase::Seq;
use jground::jtext::Units;
use jlib::LibCall;
use jmemory::jheap::Heap;
use joutput::jtrace::Event;
use jperm::Permission;
use jrows::jacts::Way;
use jruntime::jstate::{Frames, Shapes};
use std::alloc::{AllocError, Global};

/// What a call of the library has to know of where it runs.
#[derive(Clone, Copy)]
pub struct CallEnvironment<'a> {
    /// What stands in the heap's cells.
    pub shapes: &'a Shapes,
    /// The directory in which the names of files are read.
    pub cwd: &'a Units,
    /// The number of the running thread.
    pub thread: u32,
}

/// What a call of the library came to.
#[derive(Drop)]
pub struct Done {
    /// What is to be done behind it.
    pub way: Way,
    /// What it told.
    pub told: Option<Event>,
}

/// Runs the library with so many operands of the newest frame, which serve for the call (class documentation of Object, Throwable, String,
/// StringBuilder, PrintStream and the permissions). Permissions that are made stand behind the others, and objects hold them by their
/// numbers, from 1. The operands go where the call goes on; where it raises, is above what the heap has left, or has no step, the frame
/// stays as it was. After an error nothing is said.
pub fn run<M: Copy>(
    alloc: Global,
    frames: &mut Frames<M>,
    heap: &mut Heap,
    permissions: &mut Seq<Permission>,
    fixed: &CallEnvironment<'_>,
    call: LibCall,
    count: usize,
) -> Result<Done, AllocError>
    requires free { IsAskFree call }
    requires place { frames.old.newest.place + 1 < 2 ^ 32 }
    requires few { count ≤ length frames.old.newest.operands }
    requires built { AreBuilt heap.old.objects }
    requires celled { AreCelled fixed.now.shapes.now heap.old.objects }
    requires told { IsTelling call → (v : Held ℕ) → receiver (take count frames.old.newest.operands) ≡ Some v
        → MayBeTold fixed.now.shapes.now heap.old v }
    ensures row { IfOk result (λ done. Runs fixed.now.shapes.now fixed.now.cwd.now fixed.now.thread call count frames.old.newest
        permissions.old heap.old done frames.new.newest permissions.new heap.new) }
    ensures stays { IfOk result (λ done. (p : Program) → AreHeld p fixed.now.shapes.now permissions.old heap.old.objects
        → Stays done.way frames.old.newest frames.new.newest) }
    ensures below { OnOk result (frames.new.below ≡ frames.old.below) }
    ensures held { OnOk result ((p : Program) → AreHeld p fixed.now.shapes.now permissions.old heap.old.objects
        → AreHeld p fixed.now.shapes.now permissions.new heap.new.objects) }
    ensures built { OnOk result (AreBuilt heap.new.objects) }
    ensures celled { OnOk result (StayCelled heap.old.objects heap.new.objects) }
{
    let came = row(alloc, frames, heap, permissions, fixed, call, count)?;
    let Came { ran, told } = came;
    let way = go(frames, count, ran)?;
    Ok(Done { way, told })
}
