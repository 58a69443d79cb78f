//! Verification types (JVMS 4.10.1.2), which of them fits which (`fits`), and frames. `Ancestry` is the trait of what typing asks of a
//! program's classes.
//!
//! - `ClassTrees`: what typing has to know of a program's classes, and the laws of it.
//! - `Assignability`: what fits what, given what every array fits; arrays one dimension less at a time.
//! - `TypeFrames`: locals, stacks, flags, the places that a value fills, and what fits what of them.
//! - `DescriptorElements`: the types that letters of a descriptor stand for, alone and in brackets.
//!
//! Proved: `fits` answers its definition, over any `Ancestry`; `fits_laws`: each type fits itself and Top, null fits every object and
//! array, objects and arrays fit Object, and fitting is transitive through classes; `frame_laws`: the same of frames by the types';
//! copies are equal.
//!
//! `ProofNames` are names by which proofs and contracts of inner functions call what the definitions say in place.
#![tactic(auto)]

mod ancestry;
mod copying;
mod fitting;
mod laws;
mod vtype;

pub use ancestry::Ancestry;
pub use fitting::fits;
pub use laws::{fits_laws, frame_laws};
pub use vtype::{ArrayType, Element, Name, VType};
