//! Two machines, of which the slower one takes several steps for each step of the other: what its run tells, and in how many steps.
//!
//! `StutteringRuns` says when steps lead from one state to another and tell nothing before the last (`Leads`, `LeadsOut`), what the slower machine
//! does for one step of the other (`Answers`, `Follows`), and the laws. Proved, on `count_laws`, for any way in which states stand for one
//! another: after m steps the slower one has told what the other has told after some k of no more than m steps and has ended as that, or
//! m is less than so many times k + 1; and where the other has ended after n steps, it has told the same and ended alike within so many times
//! n. Where the slower one first takes some steps that tell nothing, both hold with so many more. Where it is known how many steps answer each
//! one (`FollowsIn`), both have told the same and ended alike after k and after the sum of these (`counted`). The one premise is that the other
//! machine isn't stuck within the steps spoken of.

mod laws;

pub use laws::{TwoStates, count_laws};
