ghost use Rattle.std.specs.Prelude.{◌≡◌, IfOk, OnOk, length};
ghost use Rattle.jlib.specs.declared.classes.LibClass.TheVariants as lib;
ghost use Rattle.jruntime.specs.jstate.ObjectCells.{StayCelled};
ghost use Rattle.jruntime.specs.jstate.FrameLists.{all};
ghost use Rattle.jruntime.specs.jstate.ClassNumbers.{thrown_number};
ghost use Rattle.jruntime.specs.jstate.HeapMeanings.{AreBuilt};
ghost use Rattle.jrows.specs.jcalls.FrameMarks.{Stand};
ghost use Rattle.jrows.specs.jcalls.Throws.{LeavesStanding, RaisedHeap, Raises, Throws};

use crate::jcalls::handlers::Handlers;
use crate::jcalls::unwinding::unwind;
use jlib::Thrown;
use jmemory::jheap::{Heap, Kind};
use jruntime::jstate::{Frames, built_laws, celled_laws, heap_laws, number_laws};
use std::alloc::{AllocError, Global};

/// What raising or throwing came to.
#[derive(Clone, Copy, Debug, PartialEq, Eq)]
pub enum Raised {
    /// The heap has too few cells left for the exception, and nothing has changed.
    Full,
    /// A frame handles it, and is the newest.
    Handled,
    /// No frame handled it: the thread has ended, and its frames are not to be used.
    Uncaught,
}

/// Throws the object of a number (JVMS 2.10). `handlers` say where frames go on that handle its type.
#[tactic(auto, using(crate::proofs::JcallsProofs::ThrownExceptions::handled_so, crate::proofs::JcallsProofs::ThrownExceptions::uncaught_so))]
pub fn throw_object<M: Copy, H: Handlers>(
    frames: &mut Frames<M>,
    object: u32,
    marks: &[M],
    handlers: &H,
) -> Result<Raised, AllocError>
    requires { Stand (length marks.now) (all frames.old) }
    ensures row { IfOk result (λ way. Throws marks.now (H.goes handlers.now) object frames.old way frames.new) }
    ensures stand { OnOk result (LeavesStanding frames.old frames.new) }
{
    let caught = unwind(frames, object, marks, handlers)?;
    if caught {
        return Ok(Raised::Handled);
    }
    Ok(Raised::Uncaught)
}

/// Raises an exception of a class of the library, without a message: makes an object of the class, by the heap's number for it, and throws
/// it. `handlers` say where frames go on that handle its type.
#[tactic(auto, using(crate::proofs::JcallsProofs::FrameStability::same_stands))]
pub fn raise<M: Copy, H: Handlers>(
    alloc: Global,
    frames: &mut Frames<M>,
    heap: &mut Heap,
    class: Thrown,
    number: u32,
    marks: &[M],
    handlers: &H,
) -> Result<Raised, AllocError>
    requires stand { Stand (length marks.now) (all frames.old) }
    requires built { AreBuilt heap.old.objects }
    requires number { number ≡ thrown_number class }
    ensures row { IfOk result (λ way. Raises marks.now (H.goes handlers.now) (lib.Thrown class) frames.old heap.old way frames.new heap.new) }
    ensures stand { OnOk result (LeavesStanding frames.old frames.new) }
    ensures heap { OnOk result (RaisedHeap class heap.old heap.new) }
    ensures built { OnOk result (AreBuilt heap.new.objects) }
    ensures celled { OnOk result (StayCelled heap.old.objects heap.new.objects) }
{
    heap_laws();
    number_laws();
    built_laws();
    celled_laws();
    let Some(object) = heap.make(Kind::Object(number), 1) else {
        return Ok(Raised::Full);
    };
    throw_object(frames, object, marks, handlers)
}
