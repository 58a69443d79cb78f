ghost use Rattle.std.specs.Prelude.{◌≡◌, IfSome};
ghost use Rattle.jparts.specs.jcode.InstructionForms.{form};
ghost use Rattle.jlinking.specs.jlink.CodeReferences;
ghost use Rattle.jlinking.specs.jlink.CodeReferences.{IsReferred};

use crate::members::{ENTERS, named_member};
use jlinking::jlink::LinkedProgram;
use jparts::jcode::{Op, OpForm, PoolForm, form_of};
use jresolution::jprogram::{Member, MethodId};
use jresolution::juses::{CallUse, Use, code_at};
use std::alloc::{AllocError, Global};

/// How many methods the class of a number has.
pub fn method_count(p: &LinkedProgram, class: u32) -> u32 {
    let Some(part) = p.parts().get(class as usize) else {
        return 0;
    };
    u32::try_from(part.class.parts().methods.as_slice().len()).unwrap_or(0)
}

/// How many instructions a method has; None where it has no code.
pub fn op_count(p: &LinkedProgram, m: MethodId) -> Option<usize> {
    let code = code_at(p.named(), m)?;
    Some(code.ops.len())
}

// ---- members

/// The index of the field or the method that an instruction names.
fn index_of(op: &Op) -> Option<u16>
    ensures { result ≡ CodeReferences.reference_of (form op.now) }
{
    match form_of(op) {
        OpForm::Pool(PoolForm::Field(_, i)) => Some(i),
        OpForm::Pool(PoolForm::Call(_, i)) => Some(i),
        OpForm::Pool(PoolForm::CallInterface(i, _)) => Some(i),
        _ => None,
    }
}

/// The index of the field or the method that an instruction of a method names, by the place among its instructions.
#[tactic(auto, using(crate::proofs::CodeReferences::is_referred))]
fn index_at(p: &LinkedProgram, m: MethodId, place: usize) -> Option<u16>
    ensures { IfSome result (IsReferred p.now m.class) }
{
    let code = code_at(p.named(), m)?;
    let one = code.ops.get(place)?;
    index_of(&one.op)
}

/// The field or the method that an instruction of a method names.
fn member_at(p: &LinkedProgram, m: MethodId, place: usize) -> Option<Member> {
    let i = index_at(p, m, place)?;
    Some(p.resolve(m.class, i))
}

/// What the instructions of a method name, in their order.
fn members_of(
    alloc: Global,
    p: &LinkedProgram,
    m: MethodId,
    count: usize,
) -> Result<Vec<Member>, AllocError> {
    let mut members = Vec::new(alloc);
    for place in 0..count {
        if let Some(member) = member_at(p, m, place) {
            members.push(member)?;
        }
    }
    Ok(members)
}

/// Whether members are those that stand in a moved program for others.
fn are_moved(old: &[Member], new: &[Member]) -> bool {
    if new.len() != old.len() {
        return false;
    }
    for (a, b) in old.iter().zip(new) {
        if named_member(*a) != *b {
            return false;
        }
    }
    true
}

/// Whether members are those that stand in a moved method for others, behind what it begins with.
fn are_behind(old: &[Member], new: &[Member]) -> bool {
    match new {
        [first, behind @ ..] => *first == ENTERS && are_moved(old, behind),
        [] => false,
    }
}

/// Whether the instructions of a method name the same in both programs, behind what it begins with in the moved one.
pub fn names_same(
    alloc: Global,
    p: &LinkedProgram,
    q: &LinkedProgram,
    m: MethodId,
) -> Result<bool, AllocError> {
    let (old, new) = match (op_count(p, m), op_count(q, m)) {
        (Some(old), Some(new)) => (old, new),
        (None, None) => return Ok(true),
        _ => return Ok(false),
    };
    let old = members_of(alloc, p, m, old)?;
    let new = members_of(alloc, q, m, new)?;
    Ok(are_behind(old.as_slice(), new.as_slice()))
}

// ---- calls

/// What an instruction of a method calls, with the class by which it is named; None where it calls nothing.
pub fn call_at(p: &LinkedProgram, m: MethodId, place: usize) -> Option<CallUse> {
    let code = code_at(p.named(), m)?;
    let one = code.ops.get(place)?;
    let OpForm::Pool(form) = form_of(&one.op) else {
        return None;
    };
    match p.uses().use_at(m.class, form) {
        Some(Use::Call(_, call)) => Some(call),
        _ => None,
    }
}
