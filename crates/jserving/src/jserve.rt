//! Which operands serve where an instruction wants something, by number and without memory. The rows of `jobjs` and the calls of `jcalls`
//! are told it.
//!
//! - `ValueTypes`: the types of values by number, and which store objects of the heap are.
//! - `OperandChecks`: operands that serve, one after the other.
//! - `CallOperandChecks`: the operands of calls, and the object of an `<init>`, which may hold nothing yet.
//! - `StoreTargets`: the array into which a reference is stored.
//!
//! Types are compared by `jfits`, as the definition of the machine compares them in the program's world.
//!
//! Proved, whatever the heap's numbers stand for: `call_serves` says whether the operands of a call serve, of each kind; `get_field_serves`,
//! `put_field_serves`, `put_static_serves`, `ref_serves`, `refs_serve`, `thrown_serves`, `is_one` and `is_stored` answer what the rows
//! ask.

mod calls;
mod casts;
mod fields;
mod serving;
mod storing;
mod values;

pub use calls::call_serves;
pub use casts::{is_one, is_stored, ref_serves, refs_serve, thrown_serves};
pub use fields::{get_field_serves, put_field_serves, put_static_serves};
pub use storing::{may_store, store_serves};
pub use values::Objects;
