ghost use Rattle.std.specs.Prelude.{◌≡◌, ◌≤◌, length, take};
ghost use Rattle.jsemantics.specs.jmachine.CallTargets;
ghost use Rattle.jrows.specs.jcalls.MethodCalls.{receiver_seen};

use jmemory::jheap::{Heap, Kind};
use jruntime::jstate::Frames;
use jvalues::jops::Value;

/// The object on which a method is called.
#[derive(Clone, Copy, Debug, PartialEq, Eq)]
pub enum Receiver {
    /// There is none.
    Missing,
    Null,
    /// An object of the heap, of a kind.
    Object(Kind),
}

/// What a value is as the object of a call.
#[inline]
fn received(heap: &Heap, value: Value) -> Receiver
    ensures { result ≡ receiver_seen heap.now (Some value) }
{
    match value {
        Value::Int(_) => Receiver::Missing,
        Value::Long(_) => Receiver::Missing,
        Value::Ctx(_) => Receiver::Missing,
        Value::Ref(o) => {
            if o == 0 {
                return Receiver::Null;
            }
            match heap.found(o) {
                None => Receiver::Missing,
                Some(kind) => Receiver::Object(kind),
            }
        }
    }
}

/// The object on which a method is called that takes so many operands: the oldest of them.
#[inline]
#[tactic(auto, using(crate::proofs::JcallsProofs::Outcomes::none_oldest, crate::proofs::JcallsProofs::Outcomes::oldest_is))]
pub fn receiver_at<M: Copy>(frames: &Frames<M>, heap: &Heap, count: usize) -> Receiver
    requires { count ≤ length frames.now.newest.operands }
    ensures { result ≡ receiver_seen heap.now (CallTargets.receiver (take count frames.now.newest.operands)) }
{
    if count == 0 {
        return Receiver::Missing;
    }
    received(heap, frames.operand(count - 1))
}
