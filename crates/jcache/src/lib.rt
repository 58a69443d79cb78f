//! Remembered answers, in 4,096 places by their keys' numbers.
//!
//! - `CacheEntries`: what a place holds, and that all that is remembered are answers of a function.
//!
//! Proved: `get` answers exactly what the key's place holds for it; `put` replaces that place alone; where what is remembered are a
//! function's answers, whatever is got is the function's answer.
#![tactic(auto)]

mod memo;

pub use memo::{Key, Memo};
