//! The frames of a StackMapTable (JVMS 4.7.4): `read_maps`; `Expansion`, frames in full one at a time, and `expand`, all of them;
//! `write_maps` in full form. jclass reads frames by it.
//!
//! - `StackMapFormat`: types and frames as they are written, by a table of frame types.
//! - `ExpandedFrames`: what a written frame does to the place and the locals of the frame before it, in items of any type; all frames in full;
//!   full frames as they are written.
//! - `FrameExpansion`: frames in full, one after the other.
//! - `StackMapLaws`: the laws.
//!
//! Proved: `read_maps` reads exactly the frames that bytes spell and names the first fault; `Expansion::next` and `expand` give each
//! frame in full, or the first frame that takes away more locals than there are; `write_maps` writes full frames, which are read back
//! as those frames; `map_laws`: bytes spell frames exactly where reading finds no fault, one list of frames at most, and frames have
//! one spelling; `locals_laws`: the rule of locals is the same for items of every type; copies are equal.

mod expansion;
mod fault;
mod full;
mod laws;
mod locals;
mod read;
mod rows;
mod steps;
mod types;
mod write;

pub use expansion::expand;
pub use fault::{ExpandError, Kinds, MapError, MapFault};
pub use full::write_maps;
pub use laws::{locals_laws, map_laws};
pub use read::{TypeReader, frames_of, read_maps, type_of};
pub use steps::Expansion;
pub use types::{FullFrame, MapType, RawFrame};
pub use write::put_frames;
