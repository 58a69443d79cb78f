ghost use Rattle.std.specs.Prelude.{◌≡◌, ◌+◌, ◌<◌, ◌≤◌, ◌^◌, IfOk, IfSome, IsTrue, None, length};
ghost use Rattle.std.specs.List.{list_all};
ghost use Rattle.std.specs.Option.{option_copied};
ghost use Rattle.jparts.specs.jmaps.StackMapFormat.{maps, own_type};
ghost use Rattle.jparts.specs.jmaps.ExpandedFrames.{GivesFull, all_stand, expand_from, items_fit, locals_before, place_behind, locals_after};

use crate::jmaps::fault::ExpandError;
use crate::jmaps::locals::follow;
use crate::jmaps::types::{FullFrame, MapType, RawFrame};
use jground::jbase::Seq;
use std::alloc::{AllocError, Global};

fn locals_before<'a>(first: &'a [MapType], earlier: Option<&'a FullFrame>) -> &'a [MapType]
    ensures { result.now ≡ locals_before first.now (option_copied earlier.entry) }
{
    match earlier {
        None => first,
        Some(frame) => frame.locals.as_slice(),
    }
}

/// The locals that a frame has, by those before it.
fn locals_of(
    alloc: Global,
    before: &[MapType],
    frame: &RawFrame,
) -> Result<Option<Seq<MapType>>, AllocError>
    ensures { IfOk result (λ r. r ≡ locals_after frame.now.form frame.now.locals before.now) }
{
    let mut locals = Vec::from_slice(alloc, before)?;
    if follow(&mut locals, frame, alloc)? {
        return Ok(Some(Seq::from_vec(locals)));
    }
    Ok(None)
}

fn place_behind(earlier: Option<&FullFrame>, delta: u16) -> u32
    requires { IfSome (option_copied earlier) (λ f. f.at + 0x1_0000 < 2 ^ 32) }
    ensures place { result ≡ place_behind (option_copied earlier.entry) delta }
    ensures near { result ≤ place_behind (option_copied earlier.entry) 0xffff }
{
    match earlier {
        None => u32::from(delta),
        Some(frame) => frame.at + u32::from(delta) + 1,
    }
}

/// All frames in full, by the locals that the method begins with (JVMS 4.7.4): it takes room for the locals of each frame, at most
/// 65,535 times those of the longest, where `Expansion` holds one frame's at a time. The error is `Chop` exactly at the first frame
/// that takes away more locals than there are.
pub fn expand(
    alloc: Global,
    first: &[MapType],
    frames: &[RawFrame],
) -> Result<Vec<FullFrame>, ExpandError>
    requires { IsTrue (maps.fits frames.now) }
    ensures exact { GivesFull result (expand_from first.now 0 None frames.now) }
    // The frames stand in order,
    ensures stand { IfOk result (λ v. IsTrue (all_stand v.items)) }
    // and their items have a spelling, where the first locals have one.
    ensures fit { IsTrue (list_all own_type.fits first.now) → IfOk result (λ v. IsTrue (items_fit v.items)) }
{
    let mut full: Vec<FullFrame> = Vec::new(alloc);
    for (i, frame) in frames.iter().enumerate() {
        let at = place_behind(full.last(), frame.delta);
        let before = locals_before(first, full.last());
        let Some(locals) = locals_of(alloc, before, frame)? else {
            return Err(ExpandError::Chop { frame: i as u32 });
        };
        let stack = frame.stack.copy(alloc)?;
        full.push(FullFrame { at, locals, stack })?;
    }
    Ok(full)
}
