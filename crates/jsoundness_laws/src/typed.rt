//! Which states of the machine are typed: what is known of values, locals and operands by the frames that typing gives to instructions, for
//! any machine, whatever stands for a security context.
//!
//! - `TypedValues`: which values are of which types (`IsA`). `TypedFrames`: what a frame holds (`Suits`), with the objects that each `new` made last.
//! - `TypedStores`: what objects, statics and string constants hold (`IsStored`). `StoreGrowth`: which stores come behind others (`Grows`).
//! - `TypedUses`: what linking says of the fields and classes that instructions name (`IsField`, `IsNew`).
//! - `TypedCalls`: what linking says of calls (`IsCall`, `IsInit`), what a method may be given (`IsGiven`), and what calls come to (`IsTarget`).
//! - `TypedActions`: what an instruction is to do, by the frame that the typing rule gives behind it (`CanDo`). `ControlFlow`: where that leads
//!   in its method (`LeadsOn`). `FrameStacks`: the frames of a thread (`AreStacked`), of which each older one stands at a call (`Awaits`).
//!   `ProgressLaws`, `RuntimeAssignability`: the laws.
//!
//! Proved, of a typed store and a frame that suits: each instruction that calls no method has a row, and what it does suits the frame behind
//! it, in a typed store behind (`frame_laws`), so that in a method whose instructions have frames it leads on (`leading_law`); each call comes
//! to a method that may be given its values, and a frame that is pushed begins as typing says (`calling_laws`); an older frame goes on with
//! what is returned, and one that handles an exception goes on with it (`stack_laws`). Besides: what fits where a machine runs goes with what
//! fits as programs are checked, and with what casts ask (`fits_laws`); what suits stays so in stores behind (`growing_laws`); one more object
//! leaves a typed store one (`store_law`); and a method of the library that is selected has code (`code_laws`). Of what methods of the library
//! do, of threads and steps, and of the store in which a run begins, nothing is said yet.

mod laws;

pub use laws::{
    calling_laws, code_laws, fits_laws, frame_laws, growing_laws, leading_law, stack_laws,
    store_law,
};
