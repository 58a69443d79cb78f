//! What the rows of the library's calls yield: each call of a member that has code, with values of the types that its descriptor says and on an
//! object of its class, has a row, for any machine, whatever stands for a security context.
//!
//! `LibraryArguments` says what a member is called with (`AreGiven`), `LibraryResults` what a row may do (`LibraryResults`): it gives what the
//! descriptor says, in a typed store behind, and the object of an `<init>` may be used then; or it pushes `run` of an action, raises what can be
//! thrown, or leaves as many threads as there were, or makes one. `YieldLaws` has the law of one call (`CallYields`), and what is asked of the
//! rules of access control (`AreSided`).
//!
//! Proved: the law of every call (`library_law`), and by the groups of rows (`text_laws`, `throwable_laws`, `permission_law`, `thread_law`,
//! `security_laws`); that `run` of an action and of a Runnable is never a member of the library (`run_laws`); and that the rules of both
//! machines hand contexts over by their side (`rules_laws`). Typed states cite them.

mod laws;

pub use laws::{
    coming_laws, library_law, permission_law, rules_laws, run_laws, security_laws, text_laws,
    thread_law, throwable_laws,
};
