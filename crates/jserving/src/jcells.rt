//! What stands in the cells of a program's objects, of its statics and of its arrays, from `jready`'s tables: of each class the cells
//! of the classes above first, and the type of arrays of strings behind those that instructions name. Its `alike_laws`
//! say that what the objects of a heap are doesn't depend on permissions and kept numbers that none of them names, and that rows,
//! objects that are made and cells that are written keep it so.
//!
//! - `CellLayout`: what ties shapes to a program.
//! - `UserClassCells`: the cells of a class, by the class above it and its own fields.
//! - `ArrayTypeNumbers`: the heap's numbers for types of arrays.
//! - `ObjectEquivalence`: two of what a machine keeps that make the same of the objects of a heap.
//!
//! Proved: `shapes_of` makes shapes that are tied to the program, and says the numbers; an object's cells, and one for a message, are
//! below 2 ^ 32.

mod arrays;
mod fields;
mod laws;
mod lines;
mod paths;
mod shapes;
mod users;

pub use arrays::NumberArrays;
pub use laws::alike_laws;
pub use shapes::{Shaped, shapes_of};
