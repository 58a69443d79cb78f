//! Shelves of files and sinks of bytes, and how a text is written in a line.
//!
//! `Shelf` (files by their paths, with counts of faulty reads and writes) and `Sink` (bytes that go out, with a count of
//! faults), as meanings that contracts speak of; `put_all`; `Line`, which sends a line out in pieces of at most 256 bytes;
//! `write_line`, `write_line_text`. `MemoryShelf` and `MemorySink` hold their content and fail at listed calls; `RealShelf` and
//! `RealSink` are std's files and output, and tell nothing of content.
//!
//! - `ShelfFiles`: the files of a shelf as a list, what a read gives, what a write leaves.
//! - `TextOutput`: how a text is written in a line; a line under way, how it goes on and breaks.
//! - `LineParts`: the bytes of a line's parts, and how many they are at most.
//! - `PartialOutput`: what went out before a fault.
//! - `MemoryDevices`: what the two in memory answer, call by call.
//!
//! Proved: `put_all` and `write_line` put the whole line, or exactly the bytes before a fault, which is told only where the sink's
//! count rose; what the shelf and the sink in memory answer at each call; `write_line_text` writes a text as lines do.

mod lines;
mod memory_shelf;
mod memory_sink;
mod parts;
mod real;
mod shelf;
mod sink;

pub use lines::{Line, write_line_text};
pub use memory_shelf::MemoryShelf;
pub use memory_sink::MemorySink;
pub use parts::{Part, write_line};
pub use real::{RealShelf, RealSink};
pub use shelf::{Shelf, ShelfError, stored_laws};
pub use sink::{PutFault, Sink, SinkError, put_all};

/// The most bytes of a file that a shelf reads.
pub const MOST_READ: usize = 67_108_864;

/// The most bytes of a line that go out as one piece.
pub const PIECE: usize = 256;
