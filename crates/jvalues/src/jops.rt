//! What instructions that compute, compare and move items of the stack do with values (JVMS 6.5), without memory: `two`, `one`,
//! `divide`, `test`, `shuffle`, over `Value<K>`, where K stands for a security context.
//!
//! - `Operations`: each operation in the integers, and what is left of the result in 32 or 64 bits.
//! - `ValueKinds`: which values are of a kind, and the laws.
//! - `Shuffles`: the forms of each move of the stack, over items of one or two slots.
//!
//! Proved: each call is its definition, `DivideByZero` exactly where the divisor is 0; `kind_laws`: an operation has a value exactly at
//! operands of the kinds of jnames' table, and it is of the kind that the table gives; `shuffle_laws`: a move depends on the items that
//! go alone, at most the newest four, whatever the items are.

mod binary;
mod comparing;
mod division;
mod ints;
mod laws;
mod longs;
mod operands;
mod shuffling;
mod unary;
mod value;

pub use binary::two;
pub use comparing::test;
pub use division::divide;
pub use laws::{kind_laws, shuffle_laws};
pub use shuffling::{Shuffled, shuffle};
pub use unary::one;
pub use value::{DivideByZero, Value};
