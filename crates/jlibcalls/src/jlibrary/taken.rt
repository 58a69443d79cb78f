ghost use Rattle.std.specs.Prelude.{◌≡◌, ◌≤◌, length, take};
ghost use Rattle.jlibcalls.specs.jlibrary.CallOperands.{one_in, three_in, two_in};

use jruntime::jstate::Frames;
use jvalues::jops::Value;

/// The operand of a call that takes one.
#[inline]
pub(crate) fn one<M: Copy>(frames: &Frames<M>, count: usize) -> Option<Value>
    requires { count ≤ length frames.now.newest.operands }
    ensures { result ≡ one_in (take count frames.now.newest.operands) }
{
    if count != 1 {
        return None;
    }
    Some(frames.operand(0))
}

/// The operands of a call that takes two, the newest first.
#[inline]
pub(crate) fn two<M: Copy>(frames: &Frames<M>, count: usize) -> Option<(Value, Value)>
    requires { count ≤ length frames.now.newest.operands }
    ensures { result ≡ two_in (take count frames.now.newest.operands) }
{
    if count != 2 {
        return None;
    }
    Some((frames.operand(0), frames.operand(1)))
}

/// The operands of a call that takes three, the newest first.
#[inline]
pub(crate) fn three<M: Copy>(frames: &Frames<M>, count: usize) -> Option<(Value, Value, Value)>
    requires { count ≤ length frames.now.newest.operands }
    ensures { result ≡ three_in (take count frames.now.newest.operands) }
{
    if count != 3 {
        return None;
    }
    Some((frames.operand(0), frames.operand(1), frames.operand(2)))
}
