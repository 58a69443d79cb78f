//! What a moved program is to a machine: what instructions become in it, what has to be known of it, and which of its states stand for which of the
//! program as it was written. These are definitions: that a program and its moved program are such a pair, and that the machine runs both alike, is
//! shown above.
//!
//! `InstructionExpansion` has what each instruction becomes, by what it means (`expanded`, `prologue`), and what a call hands on (`way_of`).
//! `ProgramRelation` has all that is asked of a program and of the moved one, with no bytes, pools or descriptors. `StateRelation` says when a state
//! of the second machine between stands for one of the first (`Stands`), and that each step is answered by as many as its instruction tells
//! (`LocallyFollows`). `StepCounts` has how many these are (`steps`): one for each instruction that the step's becomes, and four more for the
//! prologue of a method that it invokes. Proved, on `expanding_law`: an instruction becomes one, two or three; where it invokes no method it is
//! answered by as many steps; and each step is answered by 1 to 7. `proofs/RelationProofs` computes what instructions become and how many steps they
//! take (`ExpansionExamples`, `StepExamples`), and what the references of class files mean on either side (`References`).

mod laws;

pub use laws::expanding_law;
