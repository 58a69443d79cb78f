ghost use Rattle.std.specs.Prelude.{◌≡◌, IfOk, IsTrue, OnErr};
ghost use Rattle.jparts.specs.jmaps.StackMapFormat.{maps};
ghost use Rattle.jparts.specs.jmaps.FrameExpansion.{GoesOn, next, opening};

use crate::jmaps::fault::ExpandError;
use crate::jmaps::locals::{follow, place_from};
use crate::jmaps::types::{MapType, RawFrame};
use std::alloc::{AllocError, Global};
use std::marker::Model;

/// The frames of a StackMapTable in full, one at a time: it holds the newest frame's locals and no others, so it takes as much memory
/// as the longest of them. Contracts see the newest frame, and the frames that are left.
#[derive(Drop)]
pub struct Expansion<'a> {
    at: Option<u32>,
    locals: Vec<MapType>,
    stack: &'a [MapType],
    number: u32,
    left: &'a [RawFrame],
}

impl<'a> Model for Expansion<'a> {
    ghost use Rattle.std.specs.Prelude.{◌<◌, ◌+◌, ◌*◌, IfSome, length};
    ghost use Rattle.jparts.specs.jmaps.FrameExpansion.{Expanded};

    ghost Value = { Expanded };

    ghost view = { λ e. record { at = e.at; locals = e.locals.items; stack = e.stack.now; number = e.number; left = e.left.now } };

    ghost invariant = { λ e. IfSome e.at (λ at. at < e.number * 0x1_0000) × (e.number + length e.left.now < 0x1_0000) };
}

impl<'a> Expansion<'a> {
    /// Before the first frame, where the method begins with these locals. The frames are those of some StackMapTable.
    #[tactic(auto, using(crate::proofs::JmapsProofs::FullLaws::few_frames))]
    pub fn open(
        alloc: Global,
        first: &[MapType],
        frames: &'a [RawFrame],
    ) -> Result<Expansion<'a>, AllocError>
        requires { IsTrue (maps.fits frames.now) }
        ensures { IfOk result (λ e. e ≡ opening first.now frames.now) }
    {
        Ok(Expansion {
            at: None,
            locals: Vec::from_slice(alloc, first)?,
            stack: &[],
            number: 0,
            left: frames,
        })
    }

    /// Goes on to the next frame, and answers whether there is one. The error is `Chop` exactly where that frame takes away more
    /// locals than there are. After an error, and where no frame is left, all is as before.
    pub fn next(&mut self, alloc: Global) -> Result<bool, ExpandError>
        ensures value { GoesOn (next self.old) self.old self.new result }
        ensures err { OnErr result (self.new ≡ self.old) }
    {
        let [frame, left @ ..] = self.left else {
            return Ok(false);
        };
        if !follow(&mut self.locals, frame, alloc)? {
            return Err(ExpandError::Chop { frame: self.number });
        }
        self.at = Some(place_from(self.at, frame.delta));
        self.stack = frame.stack.as_slice();
        self.number += 1;
        self.left = left;
        Ok(true)
    }

    /// The place of the newest frame, None before the first.
    pub fn at(&self) -> Option<u32>
        ensures { result ≡ self.now.at }
    {
        self.at
    }

    /// The locals of the newest frame, before the first those that the method begins with.
    pub fn locals(&self) -> &[MapType]
        ensures { result.now ≡ self.now.locals }
    {
        self.locals.as_slice()
    }

    /// The stack items of the newest frame.
    pub fn stack(&self) -> &[MapType]
        ensures { result.now ≡ self.now.stack }
    {
        self.stack
    }
}
