//! Laws of moved code, on eight public functions with empty bodies, over jmove's definitions. The proofs that moved classes are class
//! files (jmoveclass_laws) and that moved programs link (jrewrite) cite them.
//!
//! - `CodeSizes`, `InstructionNumbers`, `PlaceOrder`, `Branches`, `HandlerRanges`, `FramePlaces`, `Distances`, `SpelledCode`: the laws, each
//!   with a name.
//!
//! Proved: sizes don't depend on distances and moved code is laid out without gaps (`size_laws`); which instruction stands at which
//! number (`number_laws`); where expansions begin and end by places, which rise as the old ones do (`place_laws`); a branch to an
//! instruction leads to where its expansion begins (`branch_laws`); a moved handler covers an expansion exactly where the old one
//! covers the instruction (`handler_laws`); a moved frame stands where its instruction's expansion begins, and frames that could be
//! written can be written where they are moved (`frame_laws`); distances fit 16 bits (`distance_laws`); moved code has a spelling
//! (`spelling_laws`).

mod laws;

pub use laws::{
    branch_laws, distance_laws, frame_laws, handler_laws, number_laws, place_laws, size_laws,
    spelling_laws,
};
