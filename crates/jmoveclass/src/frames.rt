ghost use Rattle.std.specs.Prelude.{◌≡◌, ◌≤◌, All, IfOk, IsTrue, None, Option, option_map};
ghost use Rattle.jground.specs.jbase.FirstFaults.{first_some};
ghost use Rattle.jparts.specs.jmaps.StackMapFormat.{maps};
ghost use Rattle.jparts.specs.jmaps.ExpandedFrames;
ghost use Rattle.jparts.specs.jmaps.ExpandedFrames.{expand_from};
ghost use Rattle.jmoveclass.specs.MovedMembers;
ghost use Rattle.jmoveclass.specs.ProofNames.{or_none};

use jclass::CodeAttribute;
use jground::jbase::Seq;
use jparts::jmaps::{ExpandError, FullFrame, MapType, RawFrame, expand};
use std::alloc::{AllocError, Global};

/// Frames in full, by what the locals hold where their code begins; none where one takes away more locals than there are.
pub fn in_full(
    alloc: Global,
    first: &[MapType],
    frames: &[RawFrame],
) -> Result<Seq<FullFrame>, AllocError>
    requires { IsTrue (maps.fits frames.now) }
    ensures { IfOk result (λ all. all ≡ or_none (expand_from first.now 0 None frames.now)) }
{
    match expand(alloc, first, frames) {
        Ok(all) => Ok(Seq::from_vec(all)),
        Err(ExpandError::Chop { .. }) => Ok(Seq::new(alloc)),
        Err(ExpandError::Memory) => Err(AllocError),
    }
}

/// The full form of a frame, behind the one at an earlier place.
fn full_form(earlier: Option<u32>, frame: FullFrame) -> RawFrame
    requires { frame.at ≤ 0xffff }
    ensures { result ≡ ExpandedFrames.full_form earlier frame }
{
    let delta = match earlier {
        None => frame.at,
        Some(earlier) => frame.at.saturating_sub(earlier.saturating_add(1)),
    };
    RawFrame {
        form: 255,
        delta: delta as u16,
        locals: frame.locals,
        stack: frame.stack,
    }
}

/// The full forms of frames, one behind the other.
fn full_forms(alloc: Global, frames: Seq<FullFrame>) -> Result<Seq<RawFrame>, AllocError>
    requires { All (λ f. f.at ≤ 0xffff) frames }
    ensures { IfOk result (λ forms. forms ≡ ExpandedFrames.full_forms None frames) }
{
    let mut forms = Seq::new(alloc);
    let mut earlier = None;
    for frame in frames.into_vec() {
        let at = frame.at;
        forms.push(full_form(earlier, frame))?;
        earlier = Some(at);
    }
    Ok(forms)
}

/// The name of a code's StackMapTable, where it has one.
#[tactic(auto, unfolding(jground::specs::jbase::FirstFaults::first_some))]
fn maps_name(attributes: &[CodeAttribute]) -> Option<u16>
    ensures { result ≡ first_some MovedMembers.maps_name attributes.now }
{
    for attribute in attributes {
        if let CodeAttribute::Maps { name, .. } = attribute {
            return Some(*name);
        }
    }
    None
}

/// The attributes of moved code: its frames, where it has some.
pub fn moved_maps(
    alloc: Global,
    frames: Seq<FullFrame>,
    attributes: &[CodeAttribute],
) -> Result<Seq<CodeAttribute>, AllocError>
    requires { All (λ f. f.at ≤ 0xffff) frames }
    ensures { IfOk result (λ moved. moved ≡ MovedMembers.moved_maps frames (first_some MovedMembers.maps_name attributes.now)) }
{
    let mut moved = Seq::new(alloc);
    if frames.as_slice().is_empty() {
        return Ok(moved);
    }
    let Some(name) = maps_name(attributes) else {
        return Ok(moved);
    };
    let frames = full_forms(alloc, frames)?;
    moved.push(CodeAttribute::Maps { name, frames })?;
    Ok(moved)
}
