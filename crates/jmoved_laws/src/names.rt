//! What a machine has to know of the classes, fields and calls of a moved program, and of how its runs begin. Laws alone; premises are that
//! the program links, is well typed and breaks no limit.
//!
//! - `ShadowedMethods`: along the chain of a class that has a user's method no method of the library stands in its way. `MovedLookUps`,
//!   `SelectionLaws`: by a moved descriptor that very method is found, and nothing else.
//! - `WorldLaws`: classes and fields, as equalities of functions at all names. `ResolvedCalls`: what is known of each call that an instruction names.
//!   `OpeningLaws`: domains, own fields, what `new` finds, `main`; strings, the opening charge and store.
//!
//! Proved: `clear_law`, `found_law`, `world_law`, `resolved_law`, `call_law`, `begin_law`, `opening_law`.

mod laws;

pub use laws::{begin_law, call_law, clear_law, found_law, opening_law, resolved_law, world_law};
