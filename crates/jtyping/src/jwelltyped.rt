//! Which programs are well typed (JVMS 4.10.1.6), as definitions that the checker and the driver share, and their laws, which proofs
//! above cite.
//!
//! - `MethodPremises`: what typing has to know of a method: its class, the one above, its parameters, what its `new`s make, which handlers
//!   cover a place.
//! - `DeclaredFrames`: the frames that a method declares, in full, by the names of their types, and what is asked of them.
//! - `VerifierTests`: the tests in their order, and the first place with one that fails (`type_fault`).
//! - `WellTypedness`: the same as a demand on a whole list of frames.
//!
//! Proved: `typing_law`: no test fails in a program exactly where each instruction of its methods can be given a frame so that these
//! fit one another. `frames_law`: these frames are no others, each instruction has one, and it is the declared one where one is
//! declared. `leading_law` and `number_law`: the frame behind an instruction fits wherever it leads, by places and by numbers.
//!
//! `ProofNames` are names by which proofs and contracts of inner functions call what the definitions say in place.

mod laws;

pub use laws::{frames_law, leading_law, number_law, typing_law};
