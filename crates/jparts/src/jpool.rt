//! Names, descriptors (JVMS 4.2, 4.3) and the constant pool (JVMS 4.4): `read_pool` and `write_pool`, look-ups by index,
//! `read_descriptor`.
//!
//! - `PoolEntries`: the entries by their tags, and what stands at each index.
//! - `ConstantPools`: look-ups, what entries may name, the pool's format and first fault.
//! - `ClassNames`: class names.
//! - `Descriptors`: field and method descriptors, written and read.
//! - `FieldTypes`: a field type in a text as the value that it stands for.
//! - `PoolTextUses`: what a text of the pool may be used as (each is judged once, however many entries name it).
//! - `EntryLayouts`: which entries may be added to a pool, and how they stand in it.
//!
//! Proved: `read_pool` reads exactly the pools that bytes spell and names the first fault with its place; `write_pool` writes the
//! spelling; `pool_laws`: bytes begin with one pool at most, a pool has one spelling, and bytes begin with a pool exactly where reading
//! finds no fault; `read_descriptor` and the tests of names and descriptors are the grammar; `Pool::push` puts an entry behind the
//! others, and leaves the pool as it was at every error; copies are equal. New entries are numbered in `jadder`.

mod coding;
mod descriptor;
mod entry;
mod fault;
mod judge;
mod laws;
mod names;
mod pool;
mod read;
mod scan;
mod slots;
mod uses;

pub use coding::put_entry;
pub use descriptor::{DescError, Descriptor, FieldType, read_descriptor, slots_of};
pub use entry::Entry;
pub use fault::{PoolError, PoolFault};
pub use judge::{EntryTest, first_fault_of};
pub use laws::pool_laws;
pub use names::is_class_name;
pub use pool::Pool;
pub use read::{pool_of, read_pool, write_pool};
pub use scan::{is_array_descriptor, is_field_descriptor, is_method_descriptor, method_slots};
pub use slots::{entries_of, is_wide, put_entries};
pub use uses::{TextUse, TextUses};
