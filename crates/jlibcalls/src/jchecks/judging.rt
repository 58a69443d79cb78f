ghost use Rattle.std.specs.Prelude.{◌≡◌, ◌≤◌, ◌<◌, ◌+◌, ◌^◌, [], IfOk, OnOk, codes, drop, length};
ghost use Rattle.jdomain.specs.declared.verdict.Verdict.TheVariants as verdicts;
ghost use Rattle.jsemantics.specs.jmachine.FrameOperations.{onward};
ghost use Rattle.jsemantics.specs.jmachine.Security.{denial_message};
ghost use Rattle.jlib.specs.declared.classes.LibClass.TheVariants as lib;
ghost use Rattle.jruntime.specs.jstate.ObjectCells.{StayCelled};
ghost use Rattle.jruntime.specs.jstate.FrameLists.{all, holding, with_newest};
ghost use Rattle.jruntime.specs.jstate.HeapMeanings.{AreBuilt};
ghost use Rattle.jrows.specs.jcalls.FrameMarks.{Stand};
ghost use Rattle.jrows.specs.jcalls.MessageThrows.{TellsHeap};
ghost use Rattle.jrows.specs.jcalls.Throws.{LeavesStanding};
ghost use Rattle.jlibcalls.specs.jchecks.PermissionVerdicts.{Judges};

use jdomain::Verdict;
use jground::jtext::Units;
use jlib::LibClass;
use jmemory::jheap::Heap;
use jperm::{PARTS, Permission, text_laws};
use jrows::jcalls::{Handlers, Raised, raise_with};
use jruntime::jstate::{Frames, library_number};
use std::alloc::{AllocError, Global};

/// What a check came to.
#[derive(Clone, Copy, Debug, PartialEq, Eq)]
pub enum Judged {
    /// It was granted, and the thread goes on.
    Granted,
    /// It was denied, and raised an exception.
    Denied(Raised),
}

/// What the message of a denied check begins with.
fn denied(alloc: Global) -> Result<Vec<u16>, AllocError>
    ensures { IfOk result (λ units. units.items ≡ codes "access denied ") }
{
    let units = Units::from_text(alloc, "access denied ")?.into_vec();
    Ok(units)
}

/// The message of the exception of a denied check.
#[tactic(auto, using(crate::proofs::JchecksProofs::Messages::no_part, crate::proofs::JchecksProofs::Messages::all_parts))]
fn message_of(alloc: Global, asked: &Permission) -> Result<Units, AllocError>
    ensures { IfOk result (λ units. units ≡ denial_message asked.now) }
{
    text_laws();
    let mut units = denied(alloc)?;
    for at in 0..PARTS {
        units.extend_from_slice(asked.part(at))?;
    }
    Ok(Units::from_vec(units))
}

/// The frame goes on behind the call, with so many operands gone.
fn go_on<M: Copy>(frames: &mut Frames<M>, count: usize)
    requires few { count ≤ length frames.old.newest.operands }
    requires place { frames.old.newest.place + 1 < 2 ^ 32 }
    ensures { frames.new ≡ with_newest (onward (holding (drop count frames.old.newest.operands) frames.old).newest []) frames.old }
{
    frames.shrink(count);
    frames.go_on();
}

/// A denied check raises an exception with a message.
fn deny<M: Copy, H: Handlers>(
    alloc: Global,
    frames: &mut Frames<M>,
    heap: &mut Heap,
    asked: &Permission,
    domain: u32,
    count: usize,
    marks: &[M],
    handlers: &H,
) -> Result<Judged, AllocError>
    requires few { count ≤ length frames.old.newest.operands }
    requires stand { Stand (length marks.now) (all frames.old) }
    requires built { AreBuilt heap.old.objects }
    ensures row { IfOk result
        (λ way. Judges marks.now (H.goes handlers.now) asked.now (verdicts.Denied domain) count frames.old heap.old way frames.new heap.new) }
    ensures stand { OnOk result (LeavesStanding frames.old frames.new) }
    ensures heap { OnOk result (TellsHeap lib.AccessControlException (denial_message asked.now) heap.old heap.new) }
    ensures built { OnOk result (AreBuilt heap.new.objects) }
    ensures celled { OnOk result (StayCelled heap.old.objects heap.new.objects) }
{
    let units = message_of(alloc, asked)?;
    frames.shrink(count);
    let class = LibClass::AccessControlException;
    let way = raise_with(
        alloc,
        frames,
        heap,
        class,
        library_number(class),
        units.as_slice(),
        marks,
        handlers,
    )?;
    Ok(Judged::Denied(way))
}

/// Does what a verdict says where a permission is checked, with so many operands of the call there, which are gone then: a granted check
/// goes on, and a denied one raises an AccessControlException, whose message has the permission's text. `handlers` say where frames go on
/// that handle its type.
pub fn judge<M: Copy, H: Handlers>(
    alloc: Global,
    frames: &mut Frames<M>,
    heap: &mut Heap,
    asked: &Permission,
    verdict: Verdict,
    count: usize,
    marks: &[M],
    handlers: &H,
) -> Result<Judged, AllocError>
    requires few { count ≤ length frames.old.newest.operands }
    requires place { frames.old.newest.place + 1 < 2 ^ 32 }
    requires stand { Stand (length marks.now) (all frames.old) }
    requires built { AreBuilt heap.old.objects }
    ensures row { IfOk result (λ way. Judges marks.now (H.goes handlers.now) asked.now verdict count frames.old heap.old way frames.new heap.new) }
    ensures stand { OnOk result (LeavesStanding frames.old frames.new) }
    ensures heap { OnOk result (TellsHeap lib.AccessControlException (denial_message asked.now) heap.old heap.new) }
    ensures built { OnOk result (AreBuilt heap.new.objects) }
    ensures celled { OnOk result (StayCelled heap.old.objects heap.new.objects) }
{
    match verdict {
        Verdict::Granted => {
            go_on(frames, count);
            Ok(Judged::Granted)
        }
        Verdict::Denied(domain) => deny(alloc, frames, heap, asked, domain, count, marks, handlers),
    }
}
