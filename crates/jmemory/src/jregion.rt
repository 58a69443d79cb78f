//! Blocks of numbers in memory that is reserved once: `Region`, with `room`, `place`, `read`, `write`. Opening a region touches none of
//! its cells; a block's cells are cleared when it is placed.
//!
//! - `Regions`: the cells of the blocks one behind the other, what is left, and what each call changes.
//! - `Blocks`: the blocks of a region in the order of placing, and their cells.
//! - `RegionLaws`: the laws below.
//!
//! Proved: each call is its definition; `place` answers no block exactly where its length is above the room, and then nothing changes;
//! no call but `open` takes memory. `region_laws`: a region is the list of its blocks; `place` adds a block of zeros at the end; `write`
//! changes one cell of one block; the lengths of the blocks and the room add up to what was opened.

mod laws;
mod region;

pub use laws::region_laws;
pub use region::{Block, Region};
