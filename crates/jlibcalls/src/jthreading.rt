//! Calls of Thread: `yield_turn`, `start`, `join`, and its constructor (`named_by`, which says what it is given, and `make`).
//!
//! - `ThreadObjects`: which thread an object of the heap stands for.
//! - `ThreadFrames`: the frames behind a call.
//! - `ThreadMethods`: what a step comes to that calls a method of Thread.
//! - `ThreadConstructors`: what its constructor is given, and the same of it, by what the new thread is said to keep.
//! - `ThreadEffects`: which threads and which frames a call leaves.
//! - `ThreadLaws`: what calls of Thread ask.
//!
//! Proved: each call does what the definition's step does that executes it, whatever the rules are: the thread goes on, or gives up its
//! turn, or an exception is to be raised in its frames, or another thread is there, which isn't started. Each thread with frames was
//! there before, the one that called behind its call or without its operands; and the one that runs is runnable, and none waits for one
//! that has ended, unless the run is over. Behind a constructor no object names a permission or a kept number that none named before.
//! `init_laws`: the constructor asks what its thread inherits, with the context that it is given; with other operands it asks nothing,
//! and there is no step; the other calls ask nothing.

mod finding;
mod laws;
mod making;
mod switching;

pub use laws::init_laws;
pub use making::{Begun, Given, make, named_by};
pub use switching::{Threaded, join, start, yield_turn};
