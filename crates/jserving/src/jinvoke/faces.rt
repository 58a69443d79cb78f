ghost use Rattle.std.specs.Prelude.{◌≡◌, ℕ, Some, length, not};
ghost use Rattle.jground.specs.jbase.FirstFaults.{fault_if, or_else};
ghost use Rattle.jrows.specs.jcalls.MethodCalls.{FoundWithin, IsFound};
ghost use Rattle.jrows.specs.jcalls.FrameMarks.{marks_of};
ghost use Rattle.jsemantics.specs.jmachine.CallTargets.{no_access, reached as reached_target, unless, wrong_class};
ghost use Rattle.jresolution.specs.declared.jprogram.member.Selected.{Selected};
ghost use Rattle.jresolution.specs.jprogram.ProgramClasses.{Program};
ghost use Rattle.jserving.specs.jinvoke.Answers.{chosen};
ghost use Rattle.jserving.specs.jinvoke.CallQueries.{call_of, class_of};
ghost use Rattle.jserving.specs.jinvoke.InterfaceCalls.{FaceTarget, TargetAs, TargetWithin};
ghost use Rattle.jserving.specs.jinvoke.InvokeOutcomes.{IsMarked};

use crate::jinvoke::answers::Calls;
use crate::jinvoke::asked::Face;
use crate::jinvoke::choosing::{Answer, number_of};
use crate::jinvoke::invoking::found_by;
use jlib::Thrown;
use jmemory::jheap::Heap;
use jrows::jcalls::{Callee, Selection};
use jruntime::jstate::heap_laws;

/// What a call by an interface of the library comes to.
#[derive(Clone, Copy)]
pub enum Target<M> {
    /// An exception of a class is to be raised.
    Fails(Thrown),
    /// A frame of a user's method is to begin.
    Pushes(Callee<M>),
    /// There is no object, or the library has the method.
    Stuck,
}

/// What is selected is reached, by a thread that has all frames that it may have, or not.
#[tactic(auto, using(crate::proofs::JinvokeProofs::InterfaceCalls::facings))]
fn reached<M: Copy>(what: Selection<M>, full: bool) -> Target<M>
    ensures target { (entry_of : ℕ → M) (p : Program) (s : Selected) → IsFound entry_of p what s
        → TargetAs entry_of p result (Some (reached_target full s)) }
    ensures within { (classes : ℕ) → FoundWithin classes what → TargetWithin classes result }
{
    match what {
        Selection::Method(callee) => {
            if full {
                return Target::Fails(Thrown::StackOverflowError);
            }
            Target::Pushes(callee)
        }
        Selection::Lib(_) => Target::Stuck,
        Selection::Abstract => Target::Fails(Thrown::AbstractMethodError),
        Selection::Missing => Target::Fails(Thrown::AbstractMethodError),
    }
}

/// What a call comes to of which this is known: the object's class has the interface, and what is selected is public.
#[tactic(auto, using(crate::proofs::JinvokeProofs::InterfaceCalls::wrong, crate::proofs::JinvokeProofs::InterfaceCalls::hidden, crate::proofs::JinvokeProofs::InterfaceCalls::reached_so, crate::proofs::JinvokeProofs::InterfaceCalls::reached_within,),)]
fn target_by<M: Copy>(answer: Answer, full: bool, marks: &[M]) -> Target<M>
    requires { IsMarked (length marks.now) answer.what }
    ensures target { (entry_of : ℕ → M) (p : Program) (s : Selected) → marks.now ≡ marks_of entry_of p → answer.what ≡ chosen p s
        → TargetAs entry_of p result
        (Some (unless (or_else (fault_if (not answer.has) wrong_class) (fault_if answer.hidden no_access)) (reached_target full s))) }
    ensures within { TargetWithin (length marks.now) result }
{
    if !answer.has {
        return Target::Fails(Thrown::IncompatibleClassChangeError);
    }
    if answer.hidden {
        return Target::Fails(Thrown::IllegalAccessError);
    }
    reached(found_by(answer.what, marks), full)
}

impl<'p> Calls<'p> {
    /// What a call comes to of a method of an interface of the library on the object of a number (JVMS 6.5: invokeinterface), by a thread
    /// that has all frames that it may have, or not. `marks` are what the frames of each class carry.
    #[tactic(auto, using(crate::proofs::JinvokeProofs::InterfaceCalls::face_marked, crate::proofs::JinvokeProofs::InterfaceCalls::no_object, crate::proofs::JinvokeProofs::InterfaceCalls::one_object,),)]
    pub fn by_interface<M: Copy>(
        &mut self,
        heap: &Heap,
        o: u32,
        face: Face,
        full: bool,
        marks: &[M],
    ) -> Target<M>
        requires marks { length marks.now ≡ length self.old.parts }
        ensures target { FaceTarget self.old marks.now heap.now (class_of face) (call_of face) full o result }
        ensures within { TargetWithin (length marks.now) result }
        ensures same { self.new ≡ self.old }
    {
        heap_laws();
        match heap.found(o) {
            None => Target::Stuck,
            Some(kind) => {
                let answer = self.face_answer(face, number_of(kind));
                target_by(answer, full, marks)
            }
        }
    }
}
