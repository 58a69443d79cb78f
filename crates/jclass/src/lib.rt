//! Class files (JVMS 4.1 to 4.7): what spells one, and its parts, both ways. A class file is read in three passes over the same bytes, and
//! the first that finds a fault ends the reading: its shape, its pool entry by entry, and then the rest by the pool. Here is what each
//! pass reads; `read_class`, which goes through them, stands in jreadclass. `ClassFile` holds parts that some bytes spell.
//!
//! - `IndexFormats`: numbers, flags, indices with a test, one of two formats by a test.
//! - `ClassFileShape`: the first pass (attributes as runs of bytes, gone over without keeping them).
//! - `PoolChecks`: the second (what entries hold and name).
//! - `FlagRules` and `PoolOperands`: what indices, flags, descriptors and instructions must be.
//! - `Attributes`, `CodeFormat`, `MemberFormat`, `Class`: the third pass, and the whole.
//! - `FileContents`: what a class file holds, as laws speak of it.
//! - `AttributeLaws`, `CodeLaws`: laws of these formats that readers of blocks need, which is why they stand in `specs/`.
//!
//! Proved: each reader of a part answers what its format reads; `write_class` gives the bytes that spell a class file; `spelling_laws`:
//! one spelling a class file, one class file a spelling, and bytes spell one exactly where reading finds no fault; `stored_laws`: each
//! code in a class file is code of at most 65,535 bytes whose places rise, whose branches and handlers lead to instructions and whose
//! frames are frames, and each text is modified UTF-8; copies are equal.
//!
//! `ProofNames` are names by which proofs and contracts of inner functions call what the definitions say in place.
#![tactic(auto)]

mod access;
mod attribute;
mod class;
mod class_file;
mod code;
mod copying;
mod fault;
mod judge;
mod laws;
mod member;
mod operand;
mod places;
mod pool_info;
mod shape;
mod text;
mod write;

pub use access::Access;
pub use attribute::{ClassAttributes, access_of};
pub use class::{Attribute, ClassParts, CodeAttribute, MemberInfo};
pub use class_file::ClassFile;
pub use fault::{ClassError, ClassFault};
pub use judge::judge_pool;
pub use laws::{spelling_laws, stored_laws};
pub use member::{Fields, Methods};
pub use pool_info::{PoolInfo, is_text};
pub use shape::{Head, head_of, skip_tail};
pub use write::write_class;
