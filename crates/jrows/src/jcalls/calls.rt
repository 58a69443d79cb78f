ghost use Rattle.std.specs.Prelude.{◌≡◌, ◌≤◌, IfOk, drop, length, nat_le};
ghost use Rattle.jruntime.specs.jstate.FrameLists.{all, holding};
ghost use Rattle.jlib.specs.declared.classes.LibClass.TheVariants as lib;
ghost use Rattle.jrows.specs.declared.jcalls.calls.Called.TheVariants as ways;
ghost use Rattle.jrows.specs.declared.jcalls.calls.Selection.TheVariants as found;
ghost use Rattle.jrows.specs.jcalls.MethodCalls.{CallLeaves, CallsByInterface, CallsOn, CallsStanding, CallsStatic, Reaches};

use crate::jcalls::receiver::Receiver;
use jlib::{LibCall, LibClass, Thrown};
use jresolution::jprogram::MethodId;
use jruntime::jstate::{Frames, heap_laws};
use std::alloc::AllocError;

/// A user's method, as far as a call asks.
#[derive(Clone, Copy)]
pub struct Callee<M> {
    pub method: MethodId,
    /// It has code.
    pub has_code: bool,
    /// How many locals its frames have.
    pub most: u32,
    /// For how many operands they have room.
    pub stack: u32,
    /// What its frames carry.
    pub mark: M,
}

/// What is selected where a method is called.
#[derive(Clone, Copy)]
pub enum Selection<M> {
    Method(Callee<M>),
    Lib(LibCall),
    /// A method without code.
    Abstract,
    Missing,
}

/// How many frames a thread has, and how many it may have.
#[derive(Clone, Copy, Debug, PartialEq, Eq)]
pub struct Room {
    pub frames: usize,
    pub depth: u32,
}

/// What a call came to.
#[derive(Clone, Copy, Debug, PartialEq, Eq)]
pub enum Called {
    /// A frame of the method has begun.
    Begun,
    /// An exception of a class is to be raised. The operands of the call are gone.
    Raises(LibClass),
    /// The library is to run with the operands of the call, which are there.
    Runs(LibCall),
    /// The state has no step.
    Stuck,
}

#[inline]
fn is_full(room: Room) -> bool
    ensures { result ≡ nat_le room.depth room.frames }
{
    room.depth as usize <= room.frames
}

/// An exception is to be raised in place of a call.
#[inline]
fn raise<M: Copy>(frames: &mut Frames<M>, count: usize, class: Thrown) -> Called
    requires { count ≤ length frames.old.newest.operands }
    ensures way { result ≡ ways.Raises (lib.Thrown class) }
    ensures frames { frames.new ≡ holding (drop count frames.old.newest.operands) frames.old }
{
    frames.shrink(count);
    Called::Raises(LibClass::Thrown(class))
}

/// A frame of a user's method begins, where it has code and there is room.
#[inline]
#[tactic(auto, using(crate::proofs::JcallsProofs::MethodEntry::enterings, crate::proofs::JcallsProofs::FrameStability::raised_thrown, crate::proofs::JcallsProofs::FrameStability::raised_stands, crate::proofs::JcallsProofs::FrameStability::begun_stands,),)]
fn enter<M: Copy>(
    frames: &mut Frames<M>,
    count: usize,
    callee: Callee<M>,
    room: Room,
) -> Result<Called, AllocError>
    requires few { count ≤ length frames.old.newest.operands }
    requires room { room.frames ≡ length (all frames.old) }
    ensures row { IfOk result (λ way. Reaches count (found.Method callee) room.depth frames.old way frames.new) }
    ensures leaves { IfOk result (λ way. CallLeaves frames.old way frames.new) }
    ensures stand { IfOk result (λ way. CallsStanding (found.Method callee) frames.old way frames.new) }
{
    if is_full(room) {
        return Ok(raise(frames, count, Thrown::StackOverflowError));
    }
    if !callee.has_code {
        return Ok(Called::Stuck);
    }
    frames.begin(callee.method, callee.most, callee.stack, count, callee.mark)?;
    Ok(Called::Begun)
}

/// What is selected is reached.
#[inline]
#[tactic(auto, using(crate::proofs::JcallsProofs::MethodEntry::reachings, crate::proofs::JcallsProofs::FrameStability::raised_thrown, crate::proofs::JcallsProofs::FrameStability::raised_stands,),)]
fn reach<M: Copy>(
    frames: &mut Frames<M>,
    count: usize,
    what: Selection<M>,
    room: Room,
) -> Result<Called, AllocError>
    requires few { count ≤ length frames.old.newest.operands }
    requires room { room.frames ≡ length (all frames.old) }
    ensures row { IfOk result (λ way. Reaches count what room.depth frames.old way frames.new) }
    ensures leaves { IfOk result (λ way. CallLeaves frames.old way frames.new) }
    ensures stand { IfOk result (λ way. CallsStanding what frames.old way frames.new) }
{
    match what {
        Selection::Method(callee) => enter(frames, count, callee, room),
        Selection::Lib(call) => Ok(Called::Runs(call)),
        Selection::Abstract => Ok(raise(frames, count, Thrown::AbstractMethodError)),
        Selection::Missing => Ok(raise(frames, count, Thrown::AbstractMethodError)),
    }
}

/// A call of a static method (JVMS 6.5: invokestatic), with so many operands.
#[inline]
#[tactic(auto, using(crate::proofs::JcallsProofs::Outcomes::all_static))]
pub fn call_static<M: Copy>(
    frames: &mut Frames<M>,
    count: usize,
    what: Selection<M>,
    room: Room,
) -> Result<Called, AllocError>
    requires few { count ≤ length frames.old.newest.operands }
    requires room { room.frames ≡ length (all frames.old) }
    ensures row { IfOk result (λ way. CallsStatic count what room.depth frames.old way frames.new) }
    ensures leaves { IfOk result (λ way. CallLeaves frames.old way frames.new) }
    ensures stand { IfOk result (λ way. CallsStanding what frames.old way frames.new) }
{
    reach(frames, count, what, room)
}

/// A call on an object (JVMS 6.5: invokevirtual, invokespecial), with so many operands, of which the oldest is the object. Null fails
/// before all else.
#[inline]
#[tactic(auto, using(crate::proofs::JcallsProofs::FrameStability::raised_thrown, crate::proofs::JcallsProofs::FrameStability::raised_stands))]
pub fn call_on<M: Copy>(
    frames: &mut Frames<M>,
    receiver: Receiver,
    count: usize,
    what: Selection<M>,
    room: Room,
) -> Result<Called, AllocError>
    requires few { count ≤ length frames.old.newest.operands }
    requires room { room.frames ≡ length (all frames.old) }
    ensures row { IfOk result (λ way. CallsOn receiver count what room.depth frames.old way frames.new) }
    ensures leaves { IfOk result (λ way. CallLeaves frames.old way frames.new) }
    ensures stand { IfOk result (λ way. CallsStanding what frames.old way frames.new) }
{
    heap_laws();
    match receiver {
        Receiver::Missing => Ok(Called::Stuck),
        Receiver::Null => Ok(raise(frames, count, Thrown::NullPointerException)),
        Receiver::Object(_) => reach(frames, count, what, room),
    }
}

/// A call by an interface (JVMS 6.5: invokeinterface), as one on an object, whose class is to have the interface. What is selected is to
/// be public.
#[inline]
#[tactic(auto, using(crate::proofs::JcallsProofs::FrameStability::raised_thrown, crate::proofs::JcallsProofs::FrameStability::raised_stands))]
pub fn call_by_interface<M: Copy>(
    frames: &mut Frames<M>,
    receiver: Receiver,
    count: usize,
    what: Selection<M>,
    has: bool,
    hidden: bool,
    room: Room,
) -> Result<Called, AllocError>
    requires few { count ≤ length frames.old.newest.operands }
    requires room { room.frames ≡ length (all frames.old) }
    ensures row { IfOk result (λ way. CallsByInterface receiver count what has hidden room.depth frames.old way frames.new) }
    ensures leaves { IfOk result (λ way. CallLeaves frames.old way frames.new) }
    ensures stand { IfOk result (λ way. CallsStanding what frames.old way frames.new) }
{
    heap_laws();
    match receiver {
        Receiver::Missing => Ok(Called::Stuck),
        Receiver::Null => Ok(raise(frames, count, Thrown::NullPointerException)),
        Receiver::Object(_) => {
            if !has {
                return Ok(raise(frames, count, Thrown::IncompatibleClassChangeError));
            }
            if hidden {
                return Ok(raise(frames, count, Thrown::IllegalAccessError));
            }
            reach(frames, count, what, room)
        }
    }
}
