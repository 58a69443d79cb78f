ghost use Rattle.std.specs.Prelude.{◌≡◌, ◌<◌, ◌≤◌, ◌+◌, ◌∷◌, ◌^◌, [], IfOk, OnOk, drop, length};
ghost use Rattle.jsemantics.specs.jmachine.FrameOperations.{onward, with_operands};
ghost use Rattle.jruntime.specs.jstate.FrameLists.{with_newest};
ghost use Rattle.jlibcalls.specs.jlibrary.LibraryOutcomes.{Leaves};

use jrows::jacts::Way;
use jrows::jtexts::Ran;
use jruntime::jstate::Frames;
use jvalues::jops::Value;
use std::alloc::AllocError;

/// The frame goes on behind its call with a value in the place of so many operands.
#[inline]
fn give<M: Copy>(frames: &mut Frames<M>, count: usize, value: Value) -> Result<(), AllocError>
    requires place { frames.old.newest.place + 1 < 2 ^ 32 }
    requires few { count ≤ length frames.old.newest.operands }
    ensures { OnOk result
        (frames.new ≡ with_newest (onward (with_operands frames.old.newest (drop count frames.old.newest.operands)) (value ∷ [])) frames.old) }
{
    frames.shrink(count);
    frames.push(value)?;
    frames.go_on();
    Ok(())
}

/// Does to a frame what a call left to do that took so many of its operands. Where it raises, and where the state has no step, the frame
/// stays as it was.
#[inline]
pub(crate) fn go<M: Copy>(frames: &mut Frames<M>, count: usize, ran: Ran) -> Result<Way, AllocError>
    requires place { frames.old.newest.place + 1 < 2 ^ 32 }
    requires few { count ≤ length frames.old.newest.operands }
    ensures leaves { IfOk result (λ way. Leaves frames.old.newest (drop count frames.old.newest.operands) ran way frames.new.newest) }
    ensures below { OnOk result (frames.new.below ≡ frames.old.below) }
{
    match ran {
        Ran::Went => {
            frames.shrink(count);
            frames.go_on();
            Ok(Way::Went)
        }
        Ran::Gave(value) => {
            give(frames, count, value)?;
            Ok(Way::Went)
        }
        Ran::Raises(class) => Ok(Way::Raises(class)),
        Ran::Full => Ok(Way::Full),
        Ran::Stuck => Ok(Way::Stuck),
    }
}
