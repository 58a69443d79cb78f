//! One step of a thread by numbers: the row of an instruction by number of `jready`, returns, calls and throws, and what is made of
//! what they left; each keeps what has to hold of the frames between steps. Where a call comes to the library nothing has changed, and
//! the step says which method is to run with which operands, that the call comes to it by these operands, and what it asks of access
//! control; no other step asks anything. The rows of loads are those of jconstants, and the rows of instructions with references those
//! of jrefs.
//!
//! - `InstructionRows`: which instructions are here, and what it means that one by number did what it stands for, whatever the program is seen as.
//! - `RowSuccessors`: what a step comes to behind a row of `jacts` or `jobjs`, by the frames below.
//! - `HeapOperands`: whether the operands of a call or a throw serve.
//! - `StepRelation`: what a step by number came to, for whatever rules give the frames' marks, and what stands while a program runs.
//!
//! Proved: `behind_laws`: where a row did what the instruction of the newest frame does, jmachine's step is what is made of what the
//! row left: the thread goes on, an exception is raised for its cells, an object is thrown, the run ends as heap full with nothing
//! changed, or there is no step. `run` does what the instruction stands for by jready's `meant`; `settle` does what a row left to do,
//! `settle_call` what a call left, `settle_thrown` throws an object; `step`, which is all of these, comes to jmachine's `step` for
//! every rules whose marks are the ones kept, where the state's frames and store are those that the frames and the heap stand for, and
//! the instruction stands for the one that the machine finds there. Where the thread goes on, the frames below the newest may go on
//! behind their calls, and the newest is of a class of the program.

mod arrays;
mod calling;
mod computing;
mod jumps;
mod laws;
mod outcomes;
mod raising;
mod returning;
mod rows;
mod run_tables;
mod settling;
mod stepping;
mod throwing;

pub use arrays::array;
pub use computing::{plain, push};
pub use jumps::{flow, jump, lookup, table};
pub use laws::behind_laws;
pub use outcomes::Stepped;
pub use raising::{settle_raised, settle_thrown, thrown_class};
pub use rows::run;
pub use run_tables::RunTables;
pub use settling::{settle, settle_call};
pub use stepping::step;
