//! The objects and static fields of the machine: `Heap`, with `make`, `kind`, `len`, `look`, cells of values, units of texts and of their
//! pieces, each with the piece in front of it, statics. Every value is kept as a number. An object is a block of one region, which is
//! reserved when the heap is opened; so is the table of their blocks.
//!
//! - `RawValues`: a value as a number of 64 bits, and back by the type of its cell.
//! - `Heaps`: objects with a kind and cells, what a heap has left, what an object charges, what an object is, what a look at it tells.
//! - `ObjectLayout`: how an object lies in its block.
//!
//! Proved: each call is its definition; `make` answers no object exactly where the charge is more than is left, and then changes
//! nothing; of all calls only `open` and `add_statics` take memory; `heap_laws`: a read gives the last write to its place, and a write
//! changes no other; `raw_laws`: a cell gives back the value that was written, read as its type.

mod cell;
mod heap;
mod laws;

pub use cell::{CellType, Kind, Look};
pub use heap::Heap;
pub use laws::{heap_laws, raw_laws};
