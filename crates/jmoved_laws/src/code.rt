//! The code of a program and of its moved program, as a machine knows it; and with what is known of their classes (`jmoved_laws::names`) that
//! they are such a pair as a machine has to know (`jsimulation_laws::relation`). Laws alone; premises are that the program links, is well typed
//! and breaks no limit.
//!
//! - `MovedMeanings`: what the entries of a moved class's pool stand for. `MovedBodies`: each method has in the moved program the code that its
//!   old one was moved to, by what instructions mean, and what is thrown is handled where it was.
//! - `SlotCounts`: how many slots a method has, and that the values of a call that comes to it fill them. `MovedPrograms`: the two programs are
//!   a pair of which all that `Moves` asks holds.
//!
//! Proved: `meaning_law`, `code_law`, `fill_law`, `moves_law`.

mod laws;

pub use laws::{code_law, fill_law, meaning_law, moves_law};
