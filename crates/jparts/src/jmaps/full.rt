ghost use Rattle.std.specs.Prelude.{◌≡◌, ◌++◌, IfOk, IsTrue, OnOk, List, None, Ok, Some};
ghost use Rattle.jparts.specs.declared.jmaps.types.MapType.{MapType};
ghost use Rattle.jparts.specs.jmaps.StackMapFormat.{frame, maps, own_frame};
ghost use Rattle.jparts.specs.jmaps.ExpandedFrames.{can_follow, can_write, delta_behind, expand_from, full_form, full_forms, is_behind, items_fit, place_after};

use crate::jmaps::types::FullFrame;
use crate::jmaps::write::put_types;
use jground::jbase::Seq;
use jground::jformat::{StateWriter, put_by, put_u8, put_u16};
use std::alloc::{AllocError, Global};

fn delta_behind(earlier: Option<u32>, at: u32) -> u32
    requires { IsTrue (is_behind earlier at) }
    ensures { result ≡ delta_behind earlier at }
{
    match earlier {
        None => at,
        Some(before) => at - before - 1,
    }
}

/// Writes the full form of a frame.
#[tactic(auto, unfolding(crate::specs::jmaps::StackMapFormat::frame, crate::specs::jmaps::StackMapFormat::row))]
fn put_full(
    alloc: Global,
    earlier: Option<u32>,
    one: &FullFrame,
    out: &mut Seq<u8>,
) -> Result<(), AllocError>
    requires { IsTrue (can_follow earlier one.now) }
    ensures { OnOk result (out.new ≡ out.old ++ own_frame.spell (full_form earlier one.now)) }
{
    let locals = one.locals.as_slice();
    let stack = one.stack.as_slice();
    put_u8(255, out)?;
    put_u16(delta_behind(earlier, one.at) as u16, out)?;
    put_u16(locals.len() as u16, out)?;
    put_types(alloc, locals, out)?;
    put_u16(stack.len() as u16, out)?;
    put_types(alloc, stack, out)
}

struct FullWriter;

impl StateWriter for FullWriter {
    type State = Option<u32>;

    type Item = FullFrame;

    ghost spells = { λ _ earlier one. own_frame.spell (full_form earlier one) };

    ghost fits = { λ _ earlier one. can_follow earlier one };

    ghost goes_to = { λ _ earlier one. place_after earlier one };

    fn write(
        &self,
        alloc: Global,
        earlier: Option<u32>,
        one: &FullFrame,
        out: &mut Seq<u8>,
    ) -> Result<(), AllocError> {
        put_full(alloc, earlier, one, out)
    }

    fn next(&self, _earlier: Option<u32>, one: &FullFrame) -> Option<u32> {
        Some(one.at)
    }
}

/// The content of a StackMapTable with these frames in full form. Their places rise, the first one and each difference less one are
/// at most 65,535, and so are the number of frames and each frame's numbers of locals and of stack items.
pub fn write_maps(alloc: Global, frames: &[FullFrame]) -> Result<Vec<u8>, AllocError>
    requires { IsTrue (can_write frames.now) }
    ensures spelled { IfOk result (λ v. v.items ≡ maps.spell (full_forms None frames.now)) }
    // What is written is read back as the full forms, where the items have a spelling,
    ensures again { IsTrue (items_fit frames.now) → IfOk result (λ v. maps.read v.items ≡ Ok (full_forms None frames.now)) }
    // and these say what the frames say, whatever locals the method begins with.
    ensures same { IfOk result (λ v. (first : List MapType) → expand_from first 0 None (full_forms None frames.now) ≡ Ok frames.now) }
{
    let mut out = Seq::new(alloc);
    put_u16(frames.len() as u16, &mut out)?;
    put_by(alloc, &FullWriter, None, frames, &mut out)?;
    Ok(out.into_vec())
}
