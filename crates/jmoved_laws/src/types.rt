//! Laws of the typing rule and of declared frames, for two programs and for instructions that stand elsewhere; and with them that the moved
//! program is well typed.
//!
//! - `RenamedPlaces`: frames whose `new`s stand at other places, and what the rule gives where all instructions of a method go elsewhere.
//! - `RulePremises`: what the rule asks of a program.
//! - `FullFrameLaws`: frames in full, as they are read.
//! - `MovedTypes`: what moved programs keep of types.
//!
//! Proved, each on a function without a body: `place_law`: where all instructions of a method go elsewhere the rule gives the same frames,
//! whose `new`s went with them. `program_law`: of a program the rule asks which class stands below which, and which class declares a field.
//! `written_law`: frames that are written full are read as they were, and frames that can be said in full are read as they say it.
//! `types_law`: the moved program is well typed, where the program links, is well typed and breaks no limit.

mod laws;

pub use laws::{place_law, program_law, types_law, written_law};
