//! Two machines between the inspecting one and the plain one: the first runs programs as they were written and keeps contexts, the second runs
//! moved programs and carries what the first one does. So the two forms of a run differ between these two in the program alone.
//!
//! `BetweenMachines` has their rules, `sourced` and `shadowed`, what their frames carry, and the context of that; `MachineAgreement` has the
//! laws. Proved, on `beside_laws`: the inspecting machine answers as the first one, where contexts stand for stacks, and the second one as the
//! plain machine, where frames carry nothing; so they take the same steps of a program, and their runs tell the same events and end alike.

mod laws;

pub use laws::{Shadowed, Sourced, beside_laws};
