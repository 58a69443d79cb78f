ghost use Rattle.std.specs.Prelude.{◌≡◌, IfOk, OnOk, length};
ghost use Rattle.jlib.specs.declared.classes.LibClass.TheVariants as lib;
ghost use Rattle.jruntime.specs.jstate.ObjectCells.{StayCelled};
ghost use Rattle.jruntime.specs.jstate.FrameLists.{all};
ghost use Rattle.jruntime.specs.jstate.HeapMeanings.{AreBuilt};
ghost use Rattle.jrows.specs.jcalls.MethodCalls.{IsThrown};
ghost use Rattle.jrows.specs.jcalls.FrameMarks.{Stand};
ghost use Rattle.jserving.specs.jcells.ObjectEquivalence.{NamesNoMore};
ghost use Rattle.jstepping.specs.jstep.StepRelation.{IsQuiet, RaisesAs, StoodAs, ThrowsAs};

use crate::jstep::outcomes::{Stepped, stepped_of};
use jlib::{LibClass, Thrown};
use jmemory::jheap::Heap;
use jresolution::jprogram::ClassRef;
use jrows::jcalls::{raise, throw_object};
use jruntime::jstate::{Frames, heap_laws, thrown_number};
use jserving::jcells::alike_laws;
use jserving::jinvoke::{MethodLookup, ThrownAs, class_laws, class_numbered, number_of, told_law};
use std::alloc::{AllocError, Global};

/// A class of what can be thrown, as one.
#[inline]
pub fn thrown_class(class: LibClass) -> Thrown
    requires { IsThrown class }
    ensures { class ≡ lib.Thrown result }
{
    match class {
        LibClass::Thrown(c) => c,
        _ => unreachable!(),
    }
}

/// Raises an exception of a class of the library, without a message.
#[tactic(auto, using(crate::proofs::JstepProofs::RowCompletion::stood, crate::proofs::JstepProofs::RowCompletion::quiet_raised, crate::proofs::JstepProofs::ObjectPreservation::raised_names,),)]
pub fn settle_raised<M: Copy>(
    alloc: Global,
    frames: &mut Frames<M>,
    heap: &mut Heap,
    class: Thrown,
    marks: &[M],
    known: &MethodLookup<'_>,
) -> Result<Stepped, AllocError>
    requires stand { Stand (length marks.now) (all frames.old) }
    requires built { AreBuilt heap.old.objects }
    ensures row { IfOk result (λ done. RaisesAs marks.now known.now class frames.old heap.old done frames.new heap.new) }
    ensures quiet { IfOk result IsQuiet }
    ensures built { OnOk result (AreBuilt heap.new.objects) }
    ensures celled { OnOk result (StayCelled heap.old.objects heap.new.objects) }
    ensures alike { OnOk result (NamesNoMore heap.old.objects heap.new.objects) }
    ensures stand { IfOk result (λ done. StoodAs (length marks.now) done frames.new) }
{
    told_law::<M>();
    alike_laws::<M>();
    let thrown = ClassRef::Lib(LibClass::Thrown(class));
    let handlers = ThrownAs {
        known,
        class: thrown,
    };
    let number = thrown_number(class);
    let done = raise(alloc, frames, heap, class, number, marks, &handlers)?;
    Ok(stepped_of(done, thrown))
}

/// Throws the object of a number (JVMS 2.10), which is no array.
#[tactic(auto, using(crate::proofs::JstepProofs::RowCompletion::stood, crate::proofs::JstepProofs::RowCompletion::quiet_raised, crate::proofs::JstepProofs::RowCompletion::none_thrown, crate::proofs::JstepProofs::RowCompletion::array_thrown,),)]
pub fn settle_thrown<M: Copy>(
    frames: &mut Frames<M>,
    heap: &Heap,
    object: u32,
    marks: &[M],
    known: &MethodLookup<'_>,
) -> Result<Stepped, AllocError>
    requires stand { Stand (length marks.now) (all frames.old) }
    ensures row { IfOk result (λ done. ThrowsAs marks.now known.now object frames.old heap.now done frames.new) }
    ensures quiet { IfOk result IsQuiet }
    ensures stand { IfOk result (λ done. StoodAs (length marks.now) done frames.new) }
{
    told_law::<M>();
    heap_laws();
    class_laws();
    let Some(kind) = heap.found(object) else {
        return Ok(Stepped::Stuck);
    };
    let Some(number) = number_of(kind) else {
        return Ok(Stepped::Stuck);
    };
    let class = class_numbered(number);
    let handlers = ThrownAs { known, class };
    let done = throw_object(frames, object, marks, &handlers)?;
    Ok(stepped_of(done, class))
}
