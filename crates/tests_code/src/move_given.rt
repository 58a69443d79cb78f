ghost use Rattle.std.specs.Prelude.{◌≡◌, ◌≤◌, All, IfSome, IsTrue};
ghost use Rattle.jmove.specs.MovedFrames.{widths};
ghost use Rattle.jmove.specs.ProofNames.{width};
ghost use Rattle.jmove.specs.MethodExpansion.{CanMove};

use jground::jbase::Seq;
use jmove::{Expand, MethodIn};
use jparts::jcode::{Handler, decode};
use jparts::jmaps::{FullFrame, MapType};
use std::alloc::Global;

/// The sizes of a method: its slots, its `max_stack` and its `max_locals`.
pub type Sizes = (u32, u32, u32);

/// How many locals a type takes.
fn width_of(one: MapType) -> u32
    ensures { result ≡ width one }
{
    match one {
        MapType::Long => 2,
        _ => 1,
    }
}

/// Whether these locals, which are two at most, are locals of a method that has so many.
fn are_within(locals: &[MapType], max: u32) -> bool
    ensures { IsTrue result → widths locals.now ≤ max }
{
    match locals {
        [] => true,
        [one] => width_of(*one) <= max,
        [one, two] => width_of(*one) + width_of(*two) <= max,
        _ => false,
    }
}

/// Whether the locals of each frame are.
fn lie_within(frames: &[FullFrame], max: u32) -> bool
    ensures { IsTrue result → All (λ f. widths f.locals ≤ max) frames.now }
{
    frames
        .iter()
        .all(|frame| are_within(frame.locals.as_slice(), max))
}

/// A method, where its numbers are those of a class file, its frames have two locals at most, and so many expansions are its own.
pub fn method_of(
    alloc: Global,
    code: &[u8],
    sizes: Sizes,
    handlers: Seq<Handler>,
    frames: Seq<FullFrame>,
    kinds: &[Expand],
) -> Option<MethodIn>
    ensures { IfSome result (λ m. CanMove m kinds.now) }
{
    let (slots, max_stack, max_locals) = sizes;
    if !lie_within(frames.as_slice(), max_locals) {
        drop(handlers);
        drop(frames);
        return None;
    }
    match decode(alloc, code) {
        Ok(ops) => {
            if kinds.len() != ops.len()
                || code.len() > 0xffff
                || slots > 255
                || max_locals > 0xffff
            {
                drop(ops);
                drop(handlers);
                drop(frames);
                return None;
            }
            Some(MethodIn {
                slots,
                max_stack,
                max_locals,
                ops: Seq::from_vec(ops),
                handlers,
                frames,
            })
        }
        Err(_) => {
            drop(handlers);
            drop(frames);
            None
        }
    }
}
