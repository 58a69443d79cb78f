//! What instructions mean in their class (JVMS 6.5): verification types by number, and what the entries of pools stand for. The
//! checker, the machine and moving read it.
//!
//! - `InternedTypes`: what a type by number stands for.
//! - `DescriptorTypes`: the types that descriptors and class entries name.
//! - `InstructionMeanings`: constants, fields, calls, objects, arrays and casts, classes and types by name.
//! - `IndexedInstructions`: each instruction by number, with the numbers to which it may lead.
//! - `PoolTables`, `EntryUses`: what is kept of a program, each entry and each descriptor once.
//! - `EntryTextCache`: what is noted of a pool while it is made, so that what several entries name is looked at once.
//! - `InternedInstructions`: instructions whose classes and types are said by number, and what they stand for.
//!
//! Proved: `Uses::of` makes the table of a program; `use_at`, `array_use_at`, `class_at`, `member_at` and `params` say what it says,
//! without memory; `type_in`, `class_type`, `type_fits`, `stands_below` are their definitions. `instruction_at` and `instruction_of`
//! give the instruction of a number, without names, `code_at` the code of a method, and `flow_of` where a form goes on.

mod code;
mod descriptors;
mod entries;
mod fitting;
mod indices;
mod kept_reference;
mod laws;
mod meaning;
mod numbered;
mod numbering;
mod types;
mod typing;
mod uses;
mod using;

pub use code::{CodeRef, code_at};
pub use descriptors::{params_in, return_in};
pub use fitting::{stands_below, type_fits};
pub use indices::Indices;
pub use laws::member_law;
pub use meaning::{CallUse, Constant, FieldUse, InvokeKind, Span, Use};
pub use numbered::{Condition, FlowRef, InstructionRef, Key, Keys};
pub use numbering::{flow_of, instruction_at, instruction_of};
pub use types::{ArrayRef, ElementRef, TypeRef};
pub use typing::{class_there, class_type, type_in};
pub use uses::Uses;
