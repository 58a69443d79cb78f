//! Small contexts: each context that stands in a state of a moved program's run, by the machine that is handed contexts, has domains of the
//! program's classes alone; so one without limits has no more items than the program has domains.
//!
//! - `StateContexts`: the contexts that stand in a state, of any machine.
//! - `ReducedContexts`: contexts of which that is known. `SmallContexts`: which contexts are small, and the law.
//!
//! Proved, on `small_law`, of each program that links, is well typed and breaks no limit, on any policy and plan, behind any number of steps;
//! whether a run is stuck isn't asked.
//!
//! `DomainCalls` and `DomainPushes` have the moved code: a call of `sps/Rt` that is told a domain stands behind the instruction that pushes the
//! method's own, and nothing else leads to it. `JumplessRows`, `JumpTargets` and `FrameInvariant` have an invariant of each step: where the
//! newest frame is told a domain, that is its newest operand. `NamedMembers`, `LibraryDispatch` and `Asks`: so a step tells no domain but one of
//! the program's classes. `ReducedContexts`: contexts that are kept and have such domains alone, and the plain machine's rules of them; what a
//! row does doesn't depend on what is kept, so that the plain machine's states are those of a machine that has no other contexts.
//! `StateContexts` and `SmallContexts` join them.

mod laws;

pub use laws::small_law;
