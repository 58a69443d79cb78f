//! What instructions do, by numbers, one function a row, in place: those that compute, push constants, jump, move the newest items of
//! the stack, load, store and increment locals, and load from and store numbers into arrays, make arrays of numbers and tell their
//! length.
//!
//! - `RowOutcomes`: what a row came to, by what the machine's definition says that its instruction does, whatever the rules and the place are
//!   (`Does`), or with the stores before and behind it told (`Acts`).
//! - `ArrayOperands`, `ArrayAccesses`: arrays as operands, and their items.
//! - `StackMoves`: the newest items of the stack, and what comes in their place.
//!
//! Proved: each row is jmachine's row of its instruction: where that goes on, jumps, raises or is stuck, so does the row, and of
//! exceptions it raises the one that the definition names first; where it raises or finds too few cells it has changed nothing (`Rests`);
//! the frames below are left as they are, and what holds of the pieces of builders and of the objects' cells stays.

mod access;
mod arrays;
mod jumps;
mod locals;
mod moves;
mod ops;
mod stacks;
mod storing;
mod straight;
mod way;

pub use access::{array_load, within};
pub use arrays::{array_length, count_of, make_array, new_array};
pub use jumps::{branch, goto, int_at, jump_if, jump_if_int, switch, switch_key, switch_laws};
pub use locals::local;
pub use stacks::stack;
pub use storing::{array_store, narrowed, put_at};
pub use straight::simple;
pub use way::{Way, way_laws};
