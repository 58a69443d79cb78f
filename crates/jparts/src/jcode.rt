//! Instructions and code (JVMS 4.7.3, 6.5): `decode` and `encode`, `size_at`, `place_of`, `form_of`, `effect_of`, the branches of a
//! form. An instruction with its place takes 24 bytes. jclass reads code by it, and the checker and the machine read its forms.
//!
//! - `Opcodes`: the number of each opcode, and which opcode a first byte says; which are left out, which unknown.
//! - `OperandFormats`: what stands behind an opcode, switches and `wide` among them.
//! - `Instructions`: an instruction as its opcode and operands; instructions one behind the other with their places; branches that lead
//!   to instructions; code, and its first fault.
//! - `InstructionForms`: what an instruction does, one form for all its spellings; the kinds of operands that forms take and give; the branches of
//!   a form, and whether the next instruction may follow.
//!
//! Proved: `decode` gives exactly the instructions that bytes spell, or the first fault with its place, `BadTarget` at the first branch
//! that leads to no instruction included; `encode` writes what is read back as the same instructions; `size_at` is the size of an
//! instruction at a place; `code_laws`: one reading, one spelling, bytes spell code exactly where reading finds no fault, places rise;
//! `place_of` finds the number of the instruction at a place; `opcode_of`, `form_of`, `effect_of`, `branch_count`, `branch_at`, `goes_on`
//! are their definitions; copies are equal.

mod branches;
mod coding;
mod copying;
mod effect;
mod fault;
mod flow;
mod forming;
mod head;
mod laws;
mod names;
mod op;
mod op_form;
mod opcode;
mod operands;
mod pointer;
mod read;
mod sizing;
mod table;
mod write;

pub use branches::place_of;
pub use coding::{decode, encode};
pub use effect::effect_of;
pub use fault::{CodeError, CodeFault};
pub use flow::{branch_at, branch_count, goes_on};
pub use forming::form_of;
pub use laws::code_laws;
pub use names::{
    Access, ArrayType, CallOp, CastOp, Element, FieldOp, LocalKind, ObjectOp, RefTest, Returned,
    Slot, SmallInt, SmallLong,
};
pub use op::{
    Case, Goto, Handler, IntConst, Ldc, LocalOp, LookupSwitch, NewOp, Op, Placed, Switch,
    TableSwitch, Wide,
};
pub use op_form::{ArrayForm, Flow, LocalForm, OpForm, PoolForm, Simple};
pub use opcode::opcode_of;
pub use pointer::Boxed;
pub use sizing::size_at;
