//! Typed states of the machine: a well-typed program's run is never stuck, and in each of its states all objects, statics, locals and operands are
//! of the types that typing gives them, for any machine (`OneMachine`), whatever stands for a security context.
//!
//! `SoundPrograms` says what is asked of a program (`IsSound`): it links, its parts are class files, it is well typed, and linking says of each
//! instruction what typing takes it for (`IsSaid`). `TypedStates` says which states are typed (`IsTypedState`), and has the laws: a step, the
//! opening, a run.
//!
//! Proved, of such a program (`states_laws`): a typed state has a step, which comes to a typed state; the state in which a run begins is typed;
//! so is the one behind each number of steps, on any plan, and no run is ever stuck; and its `main` has code. What linking says of methods,
//! their code and statics is shown here; what it says of an instruction's class, field or call is shown in `program`.

mod laws;

pub use laws::{OneMachine, states_laws};
