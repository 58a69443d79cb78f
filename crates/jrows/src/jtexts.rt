//! What the library's members do that ask nothing of access control, and what constants push, by numbers: one function a member, from the
//! operands that its call took: String's `length`, `charAt`, `equals` and `concat`, what PrintStream prints, StringBuilder, whose pieces
//! are gathered where its text is asked for, Object's constructor, Throwable's constructors and `getMessage`, and constants, of which a
//! string is made when it is first loaded.
//!
//! - `TextCallOutcomes`: what a call of the library came to.
//! - `HeapTexts`: the texts of the heap, and new ones.
//! - `PrintedValues`, `PrintEvents`: what values are printed as.
//! - `HeapBuilders`: builders of the heap, and the pieces that they hold.
//! - `MadeStrings`: strings that are made, constants and others.
//! - `Messages`: the messages of objects that can be thrown.
//!
//! Proved: each function is the row that jmachine's definition names for its member, for whatever the heap stands for, and keeps what holds
//! of the pieces of builders and of the objects' cells. `cells_laws`: the cells that some of them want, a builder's for its last piece and
//! those for messages, follow from that.

mod builders;
mod cells;
mod constants;
mod making;
mod printing;
mod ran;
mod seen;
mod shown;
mod strings;
mod texts;
mod thrown;

pub use builders::{append, builder_init, builder_of_text, built_text};
pub use cells::cells_laws;
pub use constants::{constant_laws, make_constant, make_text};
pub use printing::{print, print_end};
pub use ran::{Ran, ran_laws};
pub use seen::text_units;
pub use strings::{char_at, concat, equals, length};
pub use texts::is_null;
pub use thrown::{init, init_message, message, object_init, reference};
