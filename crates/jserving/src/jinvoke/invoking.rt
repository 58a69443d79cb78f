ghost use Rattle.std.specs.Prelude.{◌≡◌, ◌≤◌, IfOk, Some, length};
ghost use Rattle.jrows.specs.jcalls.MethodCalls.{CallLeaves, CallStands, IsByClass};
ghost use Rattle.jrows.specs.jcalls.FrameMarks.{Stand};
ghost use Rattle.jruntime.specs.jstate.FrameLists.{all};
ghost use Rattle.jresolution.specs.declared.juses.meaning.InvokeKind.TheVariants as how;
ghost use Rattle.jserving.specs.jinvoke.InvokeOutcomes.{CallWithin, answer_at, Invokes, IsMarked, marked};

use crate::jinvoke::answers::Calls;
use crate::jinvoke::choosing::{Answer, CallKey, Chosen, asked_of};
use jmemory::jheap::Heap;
use jresolution::juses::InvokeKind;
use jrows::jcalls::{
    Called, Callee, Receiver, Room, Selection, call_by_interface, call_on, call_static, receiver_at,
};
use jruntime::jstate::{Frames, heap_laws};
use std::alloc::AllocError;

/// What is selected, with what the frames of its class carry.
#[inline]
pub(crate) fn found_by<M: Copy>(what: Chosen, marks: &[M]) -> Selection<M>
    requires { IsMarked (length marks.now) what }
    ensures { Some result ≡ marked marks.now what }
{
    match what {
        Chosen::Method {
            method,
            has_code,
            most,
            stack,
        } => Selection::Method(Callee {
            method,
            has_code,
            most,
            stack,
            mark: marks[method.class as usize],
        }),
        Chosen::Lib(call) => Selection::Lib(call),
        Chosen::Abstract => Selection::Abstract,
        Chosen::Missing => Selection::Missing,
    }
}

/// Where nothing is looked for.
const NOTHING: Answer = Answer {
    what: Chosen::Missing,
    has: false,
    hidden: false,
};

impl<'p> Calls<'p> {
    /// What is known of a call on an object.
    #[inline(always)]
    fn answer_on(
        &mut self,
        site: usize,
        class: u32,
        by: InvokeKind,
        pool: u16,
        on: Receiver,
    ) -> Answer
        ensures answer { result ≡ answer_at self.old class by pool on }
        ensures same { self.new ≡ self.old }
    {
        match on {
            Receiver::Missing => NOTHING,
            Receiver::Null => NOTHING,
            Receiver::Object(kind) => self.answer(
                site,
                CallKey {
                    class,
                    pool,
                    by,
                    on: asked_of(by, kind),
                },
            ),
        }
    }

    /// A call of a static method.
    #[inline]
    #[tactic(auto, using(crate::proofs::JinvokeProofs::InvokeOutcomes::static_marked, crate::proofs::JinvokeProofs::InvokeOutcomes::static_invoked, crate::proofs::JinvokeProofs::InvokeOutcomes::stands_on,),)]
    fn invoke_static<M: Copy>(
        &mut self,
        frames: &mut Frames<M>,
        heap: &Heap,
        site: usize,
        pool: u16,
        count: usize,
        marks: &[M],
        room: Room,
    ) -> Result<Called, AllocError>
        requires few { count ≤ length frames.old.newest.operands }
        requires room { room.frames ≡ length (all frames.old) }
        requires marks { length marks.now ≡ length self.old.parts }
        requires within { CallWithin self.old frames.old.newest.method.class how.Static pool }
        ensures call { IfOk result (λ way. Invokes self.old how.Static pool marks.now heap.now count room.depth frames.old way frames.new) }
        ensures leaves { IfOk result (λ way. CallLeaves frames.old way frames.new) }
        ensures stand { Stand (length marks.now) (all frames.old) → IfOk result (λ way. CallStands (length marks.now) way frames.new) }
        ensures same { self.new ≡ self.old }
    {
        let class = frames.method().class;
        let answer = self.answer(
            site,
            CallKey {
                class,
                pool,
                by: InvokeKind::Static,
                on: None,
            },
        );
        let what = found_by(answer.what, marks);
        call_static(frames, count, what, room)
    }

    /// A call on an object, whose class isn't asked for an interface.
    #[inline]
    #[tactic(auto, using(crate::proofs::JinvokeProofs::InvokeOutcomes::on_marked, crate::proofs::JinvokeProofs::InvokeOutcomes::on_invoked, crate::proofs::JinvokeProofs::InvokeOutcomes::stands_on,),)]
    fn invoke_on<M: Copy>(
        &mut self,
        frames: &mut Frames<M>,
        heap: &Heap,
        site: usize,
        by: InvokeKind,
        pool: u16,
        count: usize,
        marks: &[M],
        room: Room,
    ) -> Result<Called, AllocError>
        requires few { count ≤ length frames.old.newest.operands }
        requires room { room.frames ≡ length (all frames.old) }
        requires marks { length marks.now ≡ length self.old.parts }
        requires by { IsByClass by }
        requires within { CallWithin self.old frames.old.newest.method.class by pool }
        ensures call { IfOk result (λ way. Invokes self.old by pool marks.now heap.now count room.depth frames.old way frames.new) }
        ensures leaves { IfOk result (λ way. CallLeaves frames.old way frames.new) }
        ensures stand { Stand (length marks.now) (all frames.old) → IfOk result (λ way. CallStands (length marks.now) way frames.new) }
        ensures same { self.new ≡ self.old }
    {
        let class = frames.method().class;
        let on = receiver_at(frames, heap, count);
        let answer = self.answer_on(site, class, by, pool, on);
        let what = found_by(answer.what, marks);
        call_on(frames, on, count, what, room)
    }

    /// A call by an interface.
    #[inline]
    #[tactic(auto, using(crate::proofs::JinvokeProofs::InvokeOutcomes::on_marked, crate::proofs::JinvokeProofs::InvokeOutcomes::face_invoked, crate::proofs::JinvokeProofs::InvokeOutcomes::stands_on,),)]
    fn invoke_by_interface<M: Copy>(
        &mut self,
        frames: &mut Frames<M>,
        heap: &Heap,
        site: usize,
        pool: u16,
        count: usize,
        marks: &[M],
        room: Room,
    ) -> Result<Called, AllocError>
        requires few { count ≤ length frames.old.newest.operands }
        requires room { room.frames ≡ length (all frames.old) }
        requires marks { length marks.now ≡ length self.old.parts }
        requires within { CallWithin self.old frames.old.newest.method.class how.Interface pool }
        ensures call { IfOk result (λ way. Invokes self.old how.Interface pool marks.now heap.now count room.depth frames.old way frames.new) }
        ensures leaves { IfOk result (λ way. CallLeaves frames.old way frames.new) }
        ensures stand { Stand (length marks.now) (all frames.old) → IfOk result (λ way. CallStands (length marks.now) way frames.new) }
        ensures same { self.new ≡ self.old }
    {
        heap_laws();
        let class = frames.method().class;
        let on = receiver_at(frames, heap, count);
        let answer = self.answer_on(site, class, InvokeKind::Interface, pool, on);
        let what = found_by(answer.what, marks);
        call_by_interface(frames, on, count, what, answer.has, answer.hidden, room)
    }

    /// A call by the entry at an index of the pool of the newest frame's class (JVMS 6.5: invokevirtual, invokespecial, invokestatic,
    /// invokeinterface), which takes so many operands, where they serve. `marks` are what the frames of each class carry. `site` is a number
    /// of the call among all, beside which its last answer is remembered; what it comes to is the same for any.
    #[inline]
    pub fn invoke<M: Copy>(
        &mut self,
        frames: &mut Frames<M>,
        heap: &Heap,
        site: usize,
        by: InvokeKind,
        pool: u16,
        count: usize,
        marks: &[M],
        room: Room,
    ) -> Result<Called, AllocError>
        requires few { count ≤ length frames.old.newest.operands }
        requires room { room.frames ≡ length (all frames.old) }
        requires marks { length marks.now ≡ length self.old.parts }
        requires within { CallWithin self.old frames.old.newest.method.class by pool }
        ensures call { IfOk result (λ way. Invokes self.old by pool marks.now heap.now count room.depth frames.old way frames.new) }
        ensures leaves { IfOk result (λ way. CallLeaves frames.old way frames.new) }
        ensures stand { Stand (length marks.now) (all frames.old) → IfOk result (λ way. CallStands (length marks.now) way frames.new) }
        ensures same { self.new ≡ self.old }
    {
        match by {
            InvokeKind::Static => self.invoke_static(frames, heap, site, pool, count, marks, room),
            InvokeKind::Interface => self.invoke_by_interface(
                frames, heap, site, pool, count, marks, room,
            ),
            InvokeKind::Virtual => self.invoke_on(
                frames,
                heap,
                site,
                InvokeKind::Virtual,
                pool,
                count,
                marks,
                room,
            ),
            InvokeKind::Special => self.invoke_on(
                frames,
                heap,
                site,
                InvokeKind::Special,
                pool,
                count,
                marks,
                room,
            ),
            InvokeKind::Init => self.invoke_on(
                frames,
                heap,
                site,
                InvokeKind::Init,
                pool,
                count,
                marks,
                room,
            ),
        }
    }
}
