//! The local simulation: what a machine does in one step of a program, it does in some steps of the moved program, by the context that each method
//! is handed in place of the frames below it. How many they are is told by the step's instruction, and they are no more than 7.
//!
//! What is shown is mostly stated in `jsimulation_laws::relation` (`LocallyFollows`), for any two programs of which a machine knows that the one
//! moved is the other (`Moves`), so that nothing here speaks of bytes, pools or descriptors. Proved, on `follow_law`: each step that isn't stuck is
//! answered by as many as `steps` counts, which tell nothing before the last, to a state that stands for the new one, or to the same end.
//! `InitialStates` says how runs begin; on `opening_law`: the moved program's first four steps tell nothing, and lead to a state that stands for the
//! other's first.
//!
//! `RelatedStates` has both machines before a step; `Prologues`, `PushedFrames` the steps that tell nothing, and a pushed frame; `RowActs` what each
//! act makes of the frames; `FrameCounts` how many frames are left; `FrameExits`, `ThreadTurns`, `ThreadStarts`, `MainPrologue` returns, exceptions,
//! threads and runs; `RowComparison`, `LocalAndStackSteps`, `ControlTransfers`, `Entries`, `Fields`, `AllocationSteps`, `LibraryRowSteps` the
//! instructions that become themselves; `CallSimulation` one lemma for all calls, `HandedContexts`, `ControllerCalls`, `UnchangedCalls` those that
//! hand on a context, those of AccessController, and all others; `LocalSimulation` joins them.

mod laws;

pub use laws::{follow_law, opening_law};
