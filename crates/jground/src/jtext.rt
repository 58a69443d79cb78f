//! Texts as UTF-16 units (`Units`).
//!
//! - `Modified`: modified UTF-8 (JVMS 4.4.7).
//! - `Texts`: the units of a Rust text, and texts that differ in ASCII letter case alone.
//!
//! Proved: `units_of` reads exactly the texts that modified UTF-8 spells and names the first bad group; `bytes_of` writes that
//! spelling; no two texts share one (`spelling_law`); `from_text` gives the units of a text; `same_ignoring_case` compares without
//! letter case.

mod compare;
mod modified;
mod units;

pub use compare::same_ignoring_case;
pub use modified::{TextError, bytes_of, spelling_law, units_of};
pub use units::Units;
