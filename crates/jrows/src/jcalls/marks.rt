ghost use Rattle.std.specs.Prelude.{◌≡◌, ◌<◌, Some, length, option_map, slice_get};
ghost use Rattle.jsemantics.specs.jmachine.FrameOperations.{carrying};
ghost use Rattle.jruntime.specs.jstate.FrameLists.{with_newest};

use jruntime::jstate::Frames;

/// The newest frame carries what those of its class do. `marks` has that of each class.
#[inline]
pub(crate) fn unmark<M: Copy>(frames: &mut Frames<M>, marks: &[M])
    requires { frames.old.newest.method.class < length marks.now }
    ensures { Some frames.new ≡ option_map (λ mark. with_newest (carrying mark frames.old.newest) frames.old)
        (slice_get marks.now frames.old.newest.method.class) }
{
    frames.carry(marks[frames.method().class as usize]);
}
