//! The moved program: each class moved (`jmoveclass`), in a program of the passing side that links, and its class files. The type of moved
//! programs (`jmoving`) stands on it.
//!
//! - `RewrittenPrograms`: the moved program, and the first limit that a program breaks.
//! - `LinkageLaws`, `MemberLaws`, `ReferenceLaws`: what moved programs keep of linking.
//! - `RewrittenParts`: what its parts are.
//! - `RewrittenFiles`: what holds of a moved program, and its class files, as they are stored.
//!
//! Proved: `moved_parts` answers exactly the parts of the moved program, for a program of the source side that links and is well typed,
//! where no limit is broken, and else the first: class by class, in each its methods in their order, and its pool last.
//! `standing_laws`: in the moved program of one that links, the first two phases of linking find nothing. `part_laws`: where a program
//! of the source side links, is well typed and breaks no limit, each part of the moved program is a class file. `member_law`: there the
//! third phase finds nothing either: no member stands twice, as moved descriptors are one where the old ones are; no method is one that
//! the library fixes, as none of its methods with code is handed a context; and of the methods above none is new. `code_law`: nor does
//! the fourth phase, as calls that change find the members that they found, by their new descriptors, all other references stand for
//! what they stood for, and the methods of `sps/Rt` and the class of contexts may be named by all, and what full frames name besides
//! was asked for with the frame that a method begins with. `link_law`: so the moved program links. `moved_program` answers the moved
//! program of one of the source side that links and is well typed, as a program that is linked without a second look, where no limit is
//! broken, and else the first limit; `files_of` are the bytes that spell its parts, with the names of their classes and the numbers of
//! their code sources, in its order.

mod error;
mod laws;
mod moved;
mod part;
mod rewritten;

pub use error::RewriteError;
pub use jmoveclass::RewriteKind;
pub use laws::{code_law, link_law, member_law, part_laws, standing_laws};
pub use moved::moved_parts;
pub use part::MovedPart;
pub use rewritten::{OutFile, files_of, moved_program};
