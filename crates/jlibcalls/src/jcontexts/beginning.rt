ghost use Rattle.std.specs.Prelude.{◌≡◌, ◌++◌, ◌∷◌, [], IfOk, OnOk, option_map, option_to_list};
ghost use Rattle.jvalues.specs.declared.jops.value.Value.TheVariants as values;
ghost use Rattle.jsemantics.specs.jmachine.Security.{handed};
ghost use Rattle.jruntime.specs.jstate.ObjectCells.{StayCelled};
ghost use Rattle.jruntime.specs.jstate.FrameLists.{starting};
ghost use Rattle.jruntime.specs.jstate.HeapMeanings.{AreBuilt};
ghost use Rattle.jrows.specs.jcalls.Throws.{RaisedHeap};
ghost use Rattle.jlibcalls.specs.jcontexts.KeptContexts.{StayKept};
ghost use Rattle.jlibcalls.specs.jcontexts.RunnableStarts.{AsksNothing, Begins, BeginsStanding, EndsUnbegun, FailsFirst, StuckUnbegun};

use jlib::{Side, Thrown};
use jmemory::jheap::{Heap, Kind};
use jrows::jcalls::Callee;
use jruntime::jstate::{Frames, built_laws, celled_laws, heap_laws, number_laws, thrown_number};
use jvalues::jops::Value;
use std::alloc::{AllocError, Global};

/// What a thread inherited that it hands on: nothing on the source side.
fn handed_on(side: Side, inherited: Option<u64>) -> Option<u64>
    ensures { option_to_list (option_map values.Ctx result) ≡ handed side inherited }
{
    match side {
        Side::Source => None,
        Side::Passing => inherited,
    }
}

/// The one frame of a thread that begins with a method, with a context, if there is one, and its object.
fn first_frame<M: Copy>(
    alloc: Global,
    callee: Callee<M>,
    object: u32,
    ctx: Option<u64>,
) -> Result<Frames<M>, AllocError>
    ensures { IfOk result (λ f. f ≡ record {
      newest = starting callee.method callee.most (option_to_list (option_map values.Ctx ctx) ++ values.Ref object ∷ []) callee.mark;
      below = [];
    }) }
{
    let Callee {
        method,
        most,
        stack,
        mark,
        ..
    } = callee;
    let object = Value::Ref(object);
    match ctx {
        None => Frames::open(alloc, method, most, stack, &[object], mark),
        Some(k) => Frames::open(alloc, method, most, stack, &[object, Value::Ctx(k)], mark),
    }
}

/// The frames of a thread that begins with a user's method as the `run` of its Runnable, which isn't null: what it inherited is handed on
/// on the passing side. None where there is no step.
#[tactic(auto, using(crate::proofs::JcontextsProofs::ThreadEntries::without_code, crate::proofs::JcontextsProofs::ThreadEntries::begins_so, crate::proofs::JcontextsProofs::ThreadEntries::begun_stands,),)]
pub fn begin<M: Copy>(
    alloc: Global,
    callee: Callee<M>,
    runnable: u32,
    inherited: Option<u64>,
    side: Side,
) -> Result<Option<Frames<M>>, AllocError>
    ensures row { IfOk result (λ begun. Begins callee runnable inherited side begun) }
    ensures stand { IfOk result (λ begun. BeginsStanding callee begun) }
{
    if !callee.has_code {
        return Ok(None);
    }
    let ctx = handed_on(side, inherited);
    let frames = first_frame(alloc, callee, runnable, ctx)?;
    Ok(Some(frames))
}

/// Raises an exception of a class where a thread was to begin with the `run` of its Runnable. No frame handles it, so that the thread has
/// ended by it. The answer is no where the heap has too few cells for it, and then nothing has changed.
#[tactic(auto, using(crate::proofs::JcontextsProofs::ThreadEntries::failings))]
pub fn fail_beginning<M>(alloc: Global, heap: &mut Heap, class: Thrown) -> Result<bool, AllocError>
    requires built { AreBuilt heap.old.objects }
    ensures row { IfOk result (λ room. FailsFirst M class heap.old room heap.new) }
    ensures heap { OnOk result (RaisedHeap class heap.old heap.new) }
    ensures kept { OnOk result (StayKept heap.old.objects heap.new.objects) }
    ensures built { OnOk result (AreBuilt heap.new.objects) }
    ensures celled { OnOk result (StayCelled heap.old.objects heap.new.objects) }
{
    heap_laws();
    number_laws();
    built_laws();
    celled_laws();
    let number = thrown_number(class);
    let made = heap.make(Kind::Object(number), 1);
    Ok(made.is_some())
}

/// The laws of threads that begin: one without a Runnable ends, one is stuck whose Runnable is no object, or has its `run` from the
/// library, and none asks anything of access control. They have no body to run; the contract is the laws.
#[tactic(auto, using(crate::proofs::JcontextsProofs::ThreadEntries::ends_unbegun, crate::proofs::JcontextsProofs::ThreadEntries::stuck_unbegun, crate::proofs::JcontextsProofs::ThreadEntries::asks_nothing,),)]
pub fn begin_laws<M>()
    ensures ends { EndsUnbegun M }
    ensures stuck { StuckUnbegun M }
    ensures asks { AsksNothing M }
{}
