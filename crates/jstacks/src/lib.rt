//! Lists one on the other in one vector, for the locals and operands of a thread's frames.
//!
//! - `ListStacks`: the newest list and those below it, each with its newest item first.
//! - `ListStarts`: how they lie in one list of items.
//! - `ListStackLaws`: the laws below.
//!
//! Proved: each call by its equation over the lists; an error leaves all as it was. `pile_laws`: an item that was put is read, no other
//! changes; an item's place counted from the newest and from the oldest; what is opened and closed again is as before.
#![tactic(auto)]

mod laws;
mod pile;
mod spread;

pub use laws::pile_laws;
pub use pile::Pile;
pub use spread::Spread;
