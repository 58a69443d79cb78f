ghost use Rattle.std.specs.Prelude.{◌≡◌, ◌≤◌, ◌+◌, ℕ, IfOk, OnOk, length, nat_le};
ghost use Rattle.jlib.specs.declared.classes.LibClass.{LibClass as Class};
ghost use Rattle.jruntime.specs.jstate.ObjectCells.{StayCelled};
ghost use Rattle.jruntime.specs.jstate.FrameLists.{all};
ghost use Rattle.jruntime.specs.jstate.ClassNumbers.{library_number};
ghost use Rattle.jruntime.specs.jstate.HeapMeanings.{AreBuilt};
ghost use Rattle.jrows.specs.jcalls.FrameMarks.{Stand};
ghost use Rattle.jrows.specs.jcalls.MessageThrows.{HoldsMessage, MakesThrown, MakesTold, RaisesWith, TellsHeap, told_cells};
ghost use Rattle.jrows.specs.jcalls.Throws.{LeavesStanding};

use crate::jcalls::handlers::Handlers;
use crate::jcalls::raising::{Raised, throw_object};
use crate::jtexts::make_text;
use jlib::LibClass;
use jmemory::jheap::{Heap, Kind};
use jruntime::jstate::{Frames, built_laws, celled_laws, heap_laws, number_laws};
use jvalues::jops::Value;
use std::alloc::{AllocError, Global};

/// Makes an exception of the class of the heap's number, whose message is an object. The cells for it are left.
fn make_thrown(alloc: Global, heap: &mut Heap, number: u32, message: u32) -> Result<u32, AllocError>
    requires built { AreBuilt heap.old.objects }
    requires room { 2 ≤ heap.old.left }
    ensures made { IfOk result
        (λ o. (class : Class) → number ≡ library_number class → HoldsMessage class → MakesThrown class message heap.old o heap.new) }
    ensures built { OnOk result ((class : Class) → number ≡ library_number class → HoldsMessage class → AreBuilt heap.new.objects) }
    ensures celled { OnOk result
        ((class : Class) → number ≡ library_number class → HoldsMessage class → StayCelled heap.old.objects heap.new.objects) }
{
    heap_laws();
    number_laws();
    built_laws();
    celled_laws();
    let Some(object) = heap.make(Kind::Object(number), 1) else {
        unreachable!()
    };
    heap.set_cell(object, 0, Value::Ref(message));
    Ok(object)
}

/// Whether the cells for an exception and a message of these units are left.
fn has_room(heap: &Heap, units: &[u16]) -> bool
    ensures { result ≡ nat_le (told_cells units.now) heap.now.left }
{
    units.len() as u64 + 4 <= u64::from(heap.left())
}

/// Makes an exception of the class of the heap's number with a message of these units, where the cells for both are left. Where they
/// aren't, nothing changes.
fn make_told(
    alloc: Global,
    heap: &mut Heap,
    class: LibClass,
    number: u32,
    units: &[u16],
) -> Result<Option<u32>, AllocError>
    requires built { AreBuilt heap.old.objects }
    requires number { number ≡ library_number class }
    requires holds { HoldsMessage class }
    ensures made { IfOk result (λ o. MakesTold class units.now heap.old o heap.new) }
    ensures built { OnOk result (AreBuilt heap.new.objects) }
    ensures celled { OnOk result (StayCelled heap.old.objects heap.new.objects) }
{
    if !has_room(heap, units) {
        return Ok(None);
    }
    let Some(message) = make_text(alloc, heap, units)? else {
        unreachable!()
    };
    let object = make_thrown(alloc, heap, number, message)?;
    Ok(Some(object))
}

/// Raises an exception of a class of the library with a message of these units: makes the message and an object of the class, by the heap's
/// number for it, and throws it. `handlers` say where frames go on that handle its type.
#[tactic(auto, using(crate::proofs::JcallsProofs::FrameStability::same_stands))]
pub fn raise_with<M: Copy, H: Handlers>(
    alloc: Global,
    frames: &mut Frames<M>,
    heap: &mut Heap,
    class: LibClass,
    number: u32,
    units: &[u16],
    marks: &[M],
    handlers: &H,
) -> Result<Raised, AllocError>
    requires stand { Stand (length marks.now) (all frames.old) }
    requires built { AreBuilt heap.old.objects }
    requires number { number ≡ library_number class }
    requires holds { HoldsMessage class }
    ensures row { IfOk result (λ way. RaisesWith marks.now (H.goes handlers.now) class units.now frames.old heap.old way frames.new heap.new) }
    ensures stand { OnOk result (LeavesStanding frames.old frames.new) }
    ensures heap { OnOk result (TellsHeap class units.now heap.old heap.new) }
    ensures built { OnOk result (AreBuilt heap.new.objects) }
    ensures celled { OnOk result (StayCelled heap.old.objects heap.new.objects) }
{
    let Some(object) = make_told(alloc, heap, class, number, units)? else {
        return Ok(Raised::Full);
    };
    let way = throw_object(frames, object, marks, handlers)?;
    Ok(way)
}
