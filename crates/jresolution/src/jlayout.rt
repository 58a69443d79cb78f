//! Where fields stand (JVMS 2.5.3): those of an object in its own list, behind those of the classes above its own, and the statics of
//! all classes in one list. The machine's definition reads the definitions; jready calls the table.
//!
//! - `FieldLayout`: layouts, slots, and what a field holds.
//! - `InternedFields`, `FieldSlots`, `FieldCounts`, `LayoutTables`: the same by numbers, as the table keeps it.
//! - `FieldKinds`: what a field holds, by the number of its type.
//!
//! Proved: `Layouts::of` makes the table of a program whose classes stand in order, in one pass; `slot`, `field_count` and
//! `static_count` are their definitions, without memory; `held_type` is what a field of a descriptor holds; `layout_laws`: an object of
//! a class begins with the fields of each class that its class extends, and at the slot of a field stands its type, or the static
//! itself.

mod counts;
mod fields;
mod held;
mod laws;
mod layouts;
mod slots;

pub use held::held_type;
pub use laws::layout_laws;
pub use layouts::Layouts;
