//! Linked programs as the machine's typed states know them, and their runs.
//!
//! - `SoundRuns`: what is said of a run of a program that links, is of class files and is well typed.
//!
//! Proved: such a program is sound (`sound_law`): what its instructions name is as typing takes it. A field holds the type that the
//! instruction says, a method has the types of the call, is static where the call is, and with code stands at or above the class by which it
//! is named, and objects that are made hold no security contexts. So each state of its runs is typed and has a step (`runs_law`), on either
//! side, by any rules of access control that hand contexts over by their side.

mod laws;

pub use laws::{runs_law, sound_law};
