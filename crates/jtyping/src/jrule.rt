//! The typing rule of instructions (JVMS 4.10.1.9): the frame behind an instruction, or none. Definitions go by the names of classes,
//! code by numbers. The checker asks it once an instruction.
//!
//! - `InstructionContext`: what the rule has to know of a place.
//! - `StackEffects`, `PoolEffects`: what is wanted of operands and what is given, one table, kept apart from frames so that the machine's step can
//!   read it.
//! - `StackOperands`: taking and giving.
//! - `BasicRule`, `LocalRule`, `StackMoveRule`, `ArrayRule`, `ObjectRule`: the groups.
//! - `TypingRule`: which group says it.
//! - `FormRules`: the same by an instruction's form and the pool.
//! - `NewSites`, `FrameExtension`, `PreciseFrames`: what the rule doesn't depend on.
//! - `InternedFrames`, `FilledLocals`, `OperandSlots`, `TypeSubstitution`: frames by number.
//!
//! Proved: `rule` answers the frame that the rule gives to the frame of names that a frame of numbers stands for, and none where it
//! gives none; so does each group's call. `form_law`: the rule by form is the rule of the instruction by number. `LocalRule` keeps the
//! locals up to the last that was set, and contracts see all of them. `news_law`: of a method's `new`s the rule asks what the one at a
//! place makes. `local_law`: where the rule gives a frame, it gives the same one with further locals and more room on the stack.
//! `precise_law`: behind a frame of more precise types it gives one of more precise types, in programs whose classes stand in order.
//! Two dozen small frames are theorems beside it.

mod arrays;
mod by_form;
mod frame;
mod kept;
mod kinds;
mod laws;
mod locals;
mod moves;
mod objects;
mod operands;
mod place;
mod straight;
mod unready;
mod uses;

pub use arrays::array;
pub use by_form::rule;
pub use frame::{FrameRef, Stack};
pub use kept::Locals;
pub use laws::{form_law, local_law, news_law, precise_law};
pub use locals::local;
pub use moves::shuffle;
pub use objects::{init, make};
pub use place::{News, TypingContext};
pub use straight::{flow, simple};
pub use unready::Unready;
pub use uses::{call, cast, constant, field, make_array};
