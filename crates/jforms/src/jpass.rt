//! The run of a moved program, with what it tells of the program as it was written: nobody is handed that one.
//!
//! - `PassRuns`: what a call tells that runs a moved program, of the inspecting run of the program as it was written; and what it is to pass the
//!   checker on the passing side.
//!
//! Proved, on `run_pass`, which is the run of a plain program (jplain): by the pass theorem (`jpass_laws`), the same events and the same end, within
//! stated numbers of steps, whatever is answered. The program passes the checker, and neither run is ever stuck.

mod running;

pub use crate::jplain::{count_plain, run_plain};
pub use running::run_pass;
