ghost use Rattle.std.specs.Prelude.{◌≡◌, ◌<◌, ◌∷◌, [], ℕ, IfOk, OnOk, Some, length};
ghost use Rattle.jvalues.specs.declared.jops.value.Value.TheVariants as values;
ghost use Rattle.jruntime.specs.jstate.FrameLists.{all};
ghost use Rattle.jrows.specs.jcalls.FrameMarks.{Stand, resumed_by};
ghost use Rattle.jrows.specs.jcalls.Throws.{LeavesStanding};
ghost use Rattle.jrows.specs.jcalls.Unwinds.{Settles, Unwinds};

use crate::jcalls::handlers::Handlers;
use crate::jcalls::marks::unmark;
use jruntime::jstate::Frames;
use jvalues::jops::Value;
use std::alloc::AllocError;

/// Frames go until the newest handles what is thrown: the answer is where it goes on. None is answered where no frame does.
fn settle<M: Copy, H: Handlers>(frames: &mut Frames<M>, handlers: &H) -> Option<u32>
    ensures row { Settles (H.goes handlers.now) frames.old result frames.new }
    ensures stand { (classes : ℕ) → Stand classes (all frames.old) → Stand classes (all frames.new) }
{
    loop {
        if let Some(to) = handlers.find(frames.method(), frames.place()) {
            return Some(to);
        }
        if !frames.leave() {
            return None;
        }
    }
}

/// The newest frame goes on at a number, with the object that is thrown as its one operand.
fn handle<M: Copy>(
    frames: &mut Frames<M>,
    marks: &[M],
    object: u32,
    to: u32,
) -> Result<(), AllocError>
    requires { frames.old.newest.method.class < length marks.now }
    ensures { OnOk result (Some frames.new ≡ resumed_by marks.now frames.old to (values.Ref object ∷ [])) }
{
    frames.shrink(frames.count());
    frames.push(Value::Ref(object))?;
    frames.go_to(to);
    unmark(frames, marks);
    Ok(())
}

/// Unwinds the frames where an object is thrown (JVMS 2.10): the newest that handles it goes on with it alone and carries what those of
/// its class do, by `marks`, and those above it are gone. Where none handles it the answer is no, and the frames are not to be used.
pub fn unwind<M: Copy, H: Handlers>(
    frames: &mut Frames<M>,
    object: u32,
    marks: &[M],
    handlers: &H,
) -> Result<bool, AllocError>
    requires { Stand (length marks.now) (all frames.old) }
    ensures row { IfOk result (λ caught. Unwinds marks.now (H.goes handlers.now) object frames.old caught frames.new) }
    ensures stand { OnOk result (LeavesStanding frames.old frames.new) }
{
    let Some(to) = settle(frames, handlers) else {
        return Ok(false);
    };
    handle(frames, marks, object, to)?;
    Ok(true)
}
