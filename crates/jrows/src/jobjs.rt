//! What instructions with objects do, by numbers, one function a row, in place: `getfield`, `putfield`, `getstatic` (`System.out` too),
//! `putstatic`, `checkcast`, `instanceof`, `athrow`, `new`, `anewarray`, `aastore`, and branches that test references.
//!
//! - `EntryOperands`: what a row is told by its caller, who has the program's tables: whether the operands serve for what the entry of the
//!   pool wants, and whether an object is one of a type.
//! - `FieldCells`: slots of fields, and the types of their cells.
//! - `NewObjects`: what `new` makes, by the shapes of users' classes.
//! - `ReferenceBranches`: which references a branch tests.
//! - `StoredReferences`: what a store of a reference is told and leaves, the index before the class of what is stored.
//! - `RowFrames`: where a frame stands behind a row.
//!
//! Proved: each row is jmachine's row of its instruction wherever what it is told is so (`ActsWhere`); what holds of the pieces of
//! builders and of the objects' cells stays.

mod arrays;
mod branching;
mod casts;
mod fields;
mod making;
mod storing;
mod target;

pub use arrays::new_refs;
pub use branching::{if_null, if_same};
pub use casts::{check_cast, instance_of};
pub use fields::{get_field, get_out, get_static, put_field, put_static};
pub use making::{new_library, new_object};
pub use storing::{Held, store_ref};
pub use target::Target;
