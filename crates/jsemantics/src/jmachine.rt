//! The machine that runs programs that are well typed: its states, its steps and its runs, for one thread and for many, as definitions
//! alone (JVMS 2.5, 2.6, 2.10, 6.5). The machine's rooms are shown to do what it says. What it keeps for access control is a parameter, so
//! that the inspecting machine and the one that passes contexts differ in their rules (`Rules`) alone.
//!
//! - `HeapObjects`, `Store`, `MachineStates`, `FrameOperations`, `Narrowing`: states.
//! - `World`, `InstructionSites`, `TakenOperands`: what rows ask of a program, and how operands are taken by the table of effects that types are
//!   checked by.
//! - `BasicInstructions`, `ArrayInstructions`, `FieldInstructions`, `ObjectInstructions`, `CallTargets`: rows of instructions.
//! - `LibraryCalls`, `TextCalls`, `Throwables`, `PermissionCalls`, `ThreadOperations`: rows of the library.
//! - `Security`, `AccessCallRows`, `PrivilegeActions`: what asks access control.
//! - `InstructionActions`, `Unwinding`, `ThreadTurns`, `MachineSteps`: one step.
//! - `OpeningState`, `RunTraces`, `Machine`: runs.
//! - `AccessQueries`: what a step asks of access control, and what is answered.
//! - `StateMaps`, `NaturalityLaws`: the same with other things kept.
//!
//! Proved: `run_laws`, `machine_laws`: a run that has ended stays, events only grow. `straight_laws`, `object_laws`, `call_laws`,
//! `library_laws`: a row doesn't depend on what is kept. `step_laws`: where the rules of two machines agree, so do their steps and runs.
//! `asking_laws`: a step asks at most one thing, whatever is kept; where two machines agree on that, or nothing is asked, they take the
//! same step; it speaks of any two kinds of machines (`TwoMachines`). Some thirty steps of small programs are computed beside it.

mod laws;
mod plan;

pub use laws::{
    TwoMachines, asking_laws, call_laws, library_laws, machine_laws, object_laws, run_laws,
    step_laws, straight_laws,
};
pub use plan::Plan;
