//! The state of the machine by numbers, as code holds it: the frames of a thread, and what the numbers of the heap stand for. Operands
//! and locals of all frames lie in two lists one on the other (`jstacks`), and what the frames carry lies side by side, so that access
//! control is lent it as it is. The machine by numbers runs on it.
//!
//! - `FrameLists`: the newest frame and those below it, and how they lie in lists.
//! - `ClassNumbers`: the heap's numbers for classes.
//! - `ArrayNumbers`: the heap's numbers for types of arrays; those of arrays of numbers say what their arrays hold.
//! - `HeapMeanings`: the heap as the store of jmachine's definition, by the shapes of classes, arrays and statics.
//! - `HeapMeaningLaws`: what becomes of it where an object is made and a cell or a static is written.
//! - `ObjectCells`: how many cells the class of an object wants, and that each object has them.
//!
//! Proved: frames begin with their arguments as locals, a long in two, go on, are marked and go, each by one equation of jmachine's
//! frames; operands and locals are read, put, replaced and dropped in place. `heap_laws`: what is made is one more object and is paid,
//! and a cell or a static that is written changes what it stands for alone. `cell_laws`: what cells hold. `built_laws`, `piece_laws`:
//! pieces of builders name those before them, also behind what rows do, and what they hold stays. `celled_laws`: objects have the cells
//! that their classes want, also behind what rows do. `number_laws`: a class is that of its number. `array_laws`: the number for the
//! arrays of some numbers says them.

mod arrays;
mod classes;
mod frames;
mod places;
mod shapes;

pub use arrays::{ROWS, array_laws, array_number, array_type, element_of, numbers_at, row_type};
pub use classes::{cells_of, class_numbered, library_number, thrown_number};
pub use frames::Frames;
pub use shapes::{
    Shape, Shapes, built_laws, cell_laws, celled_laws, heap_laws, number_laws, piece_laws,
};
