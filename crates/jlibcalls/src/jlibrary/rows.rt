ghost use Rattle.std.specs.Prelude.{◌≡◌, ◌≤◌, None, ℕ, IfOk, OnOk, Some, length, take};
ghost use Rattle.jsemantics.specs.jmachine.CallTargets.{receiver};
ghost use Rattle.jvalues.specs.declared.jops.value.Value.{Value as Held};
ghost use Rattle.jresolution.specs.jprogram.ProgramClasses.{Program};
ghost use Rattle.jruntime.specs.jstate.ObjectCells.{AreCelled, StayCelled};
ghost use Rattle.jruntime.specs.jstate.HeapMeanings.{AreBuilt};
ghost use Rattle.jrows.specs.jtexts.Messages.{MayBeTold};
ghost use Rattle.jlibcalls.specs.jlibrary.HeldPermissions.{AreHeld};
ghost use Rattle.jlibcalls.specs.jlibrary.LibraryOutcomes.{CallDoes, IsTelling};

use crate::jlibrary::came::Came;
use crate::jlibrary::permissions::permission_init;
use crate::jlibrary::printing::{print_nothing, print_value};
use crate::jlibrary::running::CallEnvironment;
use crate::jlibrary::texts::{builder, string};
use crate::jlibrary::thrown::{get_message, object, thrown_init, told};
use jground::jbase::Seq;
use jlib::LibCall;
use jmemory::jheap::Heap;
use jperm::Permission;
use jrows::jtexts::{Ran, cells_laws};
use jruntime::jstate::{Frames, celled_laws};
use std::alloc::{AllocError, Global};

/// What a call came to that told nothing.
#[inline]
fn quiet(ran: Ran) -> Came
    ensures ran { result.ran ≡ ran }
    ensures told { result.told ≡ None }
{
    Came { ran, told: None }
}

/// What a call of the library does with its operands; a call that asks for something of access control, or for threads, has no row here.
pub(crate) fn row<M: Copy>(
    alloc: Global,
    frames: &Frames<M>,
    heap: &mut Heap,
    permissions: &mut Seq<Permission>,
    fixed: &CallEnvironment<'_>,
    call: LibCall,
    count: usize,
) -> Result<Came, AllocError>
    requires few { count ≤ length frames.now.newest.operands }
    requires built { AreBuilt heap.old.objects }
    requires celled { AreCelled fixed.now.shapes.now heap.old.objects }
    requires told { IsTelling call → (v : Held ℕ) → receiver (take count frames.now.newest.operands) ≡ Some v
        → MayBeTold fixed.now.shapes.now heap.old v }
    ensures row { IfOk result (λ came. CallDoes M fixed.now.shapes.now fixed.now.cwd.now fixed.now.thread call (take count frames.now.newest.operands)
        permissions.old heap.old came permissions.new heap.new) }
    ensures held { OnOk result ((p : Program) → AreHeld p fixed.now.shapes.now permissions.old heap.old.objects
        → AreHeld p fixed.now.shapes.now permissions.new heap.new.objects) }
    ensures built { OnOk result (AreBuilt heap.new.objects) }
    ensures celled { OnOk result (StayCelled heap.old.objects heap.new.objects) }
{
    cells_laws();
    celled_laws();
    match call {
        LibCall::ObjectInit => Ok(quiet(object(frames, count))),
        LibCall::ThrownInit(_, how) => {
            Ok(quiet(thrown_init(frames, heap, fixed.shapes, how, count)))
        }
        LibCall::AccessControlInit => Ok(quiet(told(frames, heap, fixed.shapes, count))),
        LibCall::GetMessage => Ok(quiet(get_message(frames, heap, fixed.shapes, count))),
        LibCall::String(call) => {
            let ran = string(alloc, frames, heap, call, count)?;
            Ok(quiet(ran))
        }
        LibCall::Builder(call) => {
            let ran = builder(alloc, frames, heap, call, count)?;
            Ok(quiet(ran))
        }
        LibCall::PermissionInit(init) => {
            let ran = permission_init(alloc, frames, heap, permissions, fixed.cwd, init, count)?;
            Ok(quiet(ran))
        }
        LibCall::PrintEnd => Ok(print_nothing(alloc, frames, fixed.thread, count)),
        LibCall::Print(piece) => print_value(alloc, frames, heap, fixed.thread, piece, count),
        LibCall::Out => Ok(quiet(Ran::Stuck)),
        LibCall::Run(_) => Ok(quiet(Ran::Stuck)),
        LibCall::RunAction(_) => Ok(quiet(Ran::Stuck)),
        LibCall::Thread(_) => Ok(quiet(Ran::Stuck)),
        LibCall::Controller(_) => Ok(quiet(Ran::Stuck)),
        LibCall::ContextCheck => Ok(quiet(Ran::Stuck)),
        LibCall::Rt(_) => Ok(quiet(Ran::Stuck)),
    }
}
