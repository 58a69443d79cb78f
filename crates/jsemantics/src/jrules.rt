//! What the two machines do for access control, side by side, as rules of jmachine, and the laws that join their answers: the
//! difference between the inspecting machine and the plain one, besides the side of the library. jinspect runs by the inspecting ones.
//!
//! - `InspectingRules`: what is kept is a stack, and a frame carries its domain and its mark.
//! - `PlainRules`: what is kept is a context.
//! - `RuleCorrespondence`: how the answers correspond.
//!
//! Proved: `answer_laws`: where the context of the running method is that of the thread's stack, both decide each check alike, the
//! denying domain included, and keep what corresponds; and the context is that of the stack again behind a call, at the beginning of a
//! thread, and within a privilege, with limits and without. Some fifteen rows of checks and privileges are computed beside it.

mod laws;

pub use laws::answer_laws;
