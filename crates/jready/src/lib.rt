//! A program that links, as a machine executes it: all instructions in one list, one method behind the other, each of 16 bytes and
//! copied, with what the entries of pools stand for looked up. The machine by numbers runs on it.
//!
//! - `ProgramFacts`: what is known of a program before its instructions are looked at.
//! - `ResolvedMembers`: what the members are to which references resolve.
//! - `TableGrowth`: tables, which only grow, so that a number stands for one thing for ever.
//! - `DecodedInstructions`: which instruction one by number stands for, by these.
//! - `InlineOperands`: what it holds beside the index of its entry: where a field stands, what it holds and what is left of an int there; a
//!   call's method by number, and where its parameters' types stand; the class of an object; the type of an array.
//! - `MethodNumbers`: the numbers of methods.
//! - `CodeLayout`, `MethodTables`, `HandlerTables`: how methods lie one behind the other, with their handlers.
//! - `MeaningParts`: the parts of what an entry means.
//! - `ClassShapes`: what the objects of a class hold.
//! - `Statics`: the statics in their order, and what they hold at first.
//! - `PreparedPrograms`: all of it.
//!
//! Proved: at a place of a method stands what the machine's definition fetches there (`Ready::instr`), and nothing where there is no
//! step; what an instruction holds is what its entry stands for; a switch goes on where its cases say (`Tables::table_to`,
//! `lookup_to`); a handler is found exactly where the definition finds one (`Ready::handlers`); methods have numbers, and each with
//! code is found by its own (`Ready::number_of`); shapes and statics are the definition's.
#![tactic(auto)]

mod code;
mod fields;
mod flows;
mod handlers;
mod instr;
mod keyed;
mod methods;
mod plain;
mod pooled;
mod program_info;
mod ready;
mod shapes;
mod statics;
mod tables;

pub use handlers::HandlerRow;
pub use instr::{
    ArrayInstr, FlowInstr, Instr, Lookup, Narrow, ObjectInstr, OperandOp, Push, Table,
};
pub use methods::{MethodRow, Methods};
pub use ready::Ready;
pub use shapes::Shape;
pub use statics::{First, StaticRow};
pub use tables::Tables;
