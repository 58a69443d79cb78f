//! Class files read (JVMS 4.1): `read_class`, which goes over the same bytes in three passes, whose parts jclass reads.
//!
//! - `ClassTails`: what the third pass keeps, as the definition of a class file has it.
//!
//! Proved: `read_class` accepts exactly the bytes that spell a class file, and names the first fault of the first pass that finds one,
//! with its kind and place.
#![tactic(auto)]

mod read;

pub use read::read_class;
