ghost use Rattle.std.specs.Prelude.{◌≡◌, slice_get};
ghost use Rattle.jrows.specs.jobjs.EntryOperands.{target_seen};

use jmemory::jheap::{Heap, Kind};
use jruntime::jstate::Frames;
use jvalues::jops::Value;

/// What an operand is that is wanted to be an object of a class.
#[derive(Clone, Copy)]
pub enum Target {
    /// No object of a class, or nothing that is there.
    Other,
    Null,
    /// The object of a number, with the heap's number for its class.
    Object(u32, u32),
}

/// The object that stands at a place among the newest frame's operands, counted from the newest.
#[inline]
pub(crate) fn target_at<M: Copy>(frames: &Frames<M>, heap: &Heap, i: usize) -> Target
    ensures { result ≡ target_seen heap.now (slice_get frames.now.newest.operands i) }
{
    if i >= frames.count() {
        return Target::Other;
    }
    match frames.operand(i) {
        Value::Int(_) => Target::Other,
        Value::Long(_) => Target::Other,
        Value::Ctx(_) => Target::Other,
        Value::Ref(o) => {
            if o == 0 {
                return Target::Null;
            }
            match heap.found(o) {
                Some(Kind::Object(n)) => Target::Object(o, n),
                Some(Kind::Array(_)) => Target::Other,
                Some(Kind::Text) => Target::Other,
                Some(Kind::Piece) => Target::Other,
                None => Target::Other,
            }
        }
    }
}
