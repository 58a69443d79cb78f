ghost use Rattle.std.specs.Prelude.{◌≡◌, ◌<◌, ◌^◌, IfOk, OnErr, false};
ghost use Rattle.jparts.specs.jmaps.ExpandedFrames;
ghost use Rattle.jparts.specs.jmaps.ExpandedFrames.{locals_after, place_from};
ghost use Rattle.jparts.specs.jmaps.FrameExpansion.{Became};

use crate::jmaps::types::{MapType, RawFrame};
use std::alloc::{AllocError, Global};

/// The place of a frame by that of the frame before it.
pub fn place_from(earlier: Option<u32>, delta: u16) -> u32
    requires { ExpandedFrames.place_from earlier 0xffff < 2 ^ 32 }
    ensures { result ≡ place_from earlier delta }
{
    match earlier {
        None => u32::from(delta),
        Some(at) => at + u32::from(delta) + 1,
    }
}

/// Takes the last locals away, if there are as many.
fn chop(locals: &mut Vec<MapType>, count: usize) -> bool
    ensures value { Became result (ExpandedFrames.chopped count locals.old.items) locals.new.items }
    ensures same { result ≡ false → locals.new.items ≡ locals.old.items }
{
    let all = locals.len();
    if all < count {
        return false;
    }
    locals.truncate(all - count);
    true
}

/// Makes the locals those that a frame has, by the locals before it; false where it takes away more than there are. Where it answers
/// false, or an error, the locals stay.
#[tactic(auto, unfolding(crate::specs::jmaps::ExpandedFrames::locals_after))]
pub fn follow(
    locals: &mut Vec<MapType>,
    frame: &RawFrame,
    alloc: Global,
) -> Result<bool, AllocError>
    ensures value { IfOk result (λ there. Became there (locals_after frame.now.form frame.now.locals locals.old.items) locals.new.items) }
    ensures fewer { IfOk result (λ there. there ≡ false → locals.new.items ≡ locals.old.items) }
    ensures err { OnErr result (locals.new.items ≡ locals.old.items) }
{
    if frame.form < 248 {
        return Ok(true);
    }
    if frame.form < 251 {
        return Ok(chop(locals, usize::from(251 - frame.form)));
    }
    if frame.form < 252 {
        return Ok(true);
    }
    if frame.form < 255 {
        locals.extend_from_slice(frame.locals.as_slice())?;
        return Ok(true);
    }
    *locals = Vec::from_slice(alloc, frame.locals.as_slice())?;
    Ok(true)
}
