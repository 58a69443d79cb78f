//! A moved class is a class file: its pool, its methods, and all around them.
//!
//! - `MovedFiles`: what is asked of a class so that what it becomes is a class file, and the laws.
//! - `FrameClasses`: frames whose items name classes that are there.
//!
//! Proved, on four public functions with empty bodies: the front of a moved class, up to the end of its pool, meets what is asked of
//! class files (`pool_law`); each of its methods meets what is asked of methods: its code has a spelling and names entries of the kind
//! that it must name, its handlers lead to instructions and its frames stand at some and name classes that are there, its lengths fit
//! their bytes, its descriptor leaves a slot, and as many of its attributes are code as its flags want (`method_law`); so the moved
//! class is a class file (`file_law`). Frames that name classes of a pool, and that can be written, are frames of a class file with
//! this pool (`frame_laws`). What is asked (`CanBeFile`) is shown of each class of a checked program without a broken limit by
//! `jrewrite`.

mod laws;

pub use laws::{file_law, frame_laws, method_law, pool_law};
