//! Formats as values. A format says how a value is spelled, which values have a spelling, and how bytes are read from the front; a
//! fault is a kind and the number of bytes that are left at its place, and one call (`stop_at`) makes that an offset (`At`).
//!
//! - `Format`: bytes, numbers, two's complement, texts, one behind the other, tests.
//! - `BodyFormats`: all bytes of a text, texts inside others, values one behind the other.
//! - `StatefulFormats`: values by a state that the earlier ones made.
//! - `UnionFormats`: values of several forms, each with its first byte and its constructor.
//! - `TagTables`: first bytes that are apart, and tables of what each says.
//! - `RepeatedReads`: a stricter reading over the same bytes, looking ahead.
//! - `FaultOffsets`: a fault's place as an offset (`GivesAt`).
//!
//! Proved: each reader gives its format's reading, each writer its spelling. The laws of every combinator are lemmas that crates above
//! cite, once a combinator: what is read is spelled so, what is spelled so is read again, a fault stands within the bytes, the rest is
//! no longer than the bytes. Loops and blocks are Rust generics over traits with ghost members (`Reader`, `BodyReader`, `StateReader`,
//! `Writer`, `StateWriter`), so that no crate above proves a loop again. `proofs/Examples` computes a union, a block with its length in
//! front, signed numbers, a counted list, and values to the end.

mod error;
mod loops;
mod nested;
mod numbers;
mod parts;
mod places;
mod write;

pub use error::{At, Fault, ReadError, stop_at};
pub use loops::{Reader, counted_of, many_of, times_of};
pub use nested::{BodyReader, block_of, inner_of};
pub use numbers::{i8_of, i16_of, i32_of, u8_of, u16_of, u32_of, u64_of};
pub use parts::{fault, run_of, sized_of, words_of};
pub use places::{StateReader, times_by_of};
pub use write::{
    StateWriter, Writer, put_block, put_by, put_bytes, put_counted, put_each, put_i8, put_i16,
    put_i32, put_sized16, put_sized32, put_u8, put_u16, put_u32, put_u64,
};
