ghost use Rattle.std.specs.Prelude.{◌≡◌};
ghost use Rattle.jlinking.specs.jreferring.ClassEntryUses;
ghost use Rattle.jlinking.specs.jreferring.ReferenceUses;
ghost use Rattle.jlinking.specs.ProofNames;

use crate::jreferring::judged::{ClassUse, MemberFacts, MemberUse};
use jparts::jcode::{CallOp, FieldOp};
use jresolution::jprogram::LinkKind;

// ---- Class entries

/// The test of an operand, and of what a handler catches: the class may be named, and may stand there.
pub fn operand_test(class: ClassUse) -> Option<LinkKind>
    ensures { result ≡ ClassEntryUses.operand_test class }
{
    if let Some(kind) = class.names {
        return Some(kind);
    }
    if class.barred {
        return Some(LinkKind::LeftOut);
    }
    None
}

/// The test of what `new` makes.
pub fn new_test(class: ClassUse) -> Option<LinkKind>
    ensures { result ≡ ClassEntryUses.new_test class }
{
    if let Some(kind) = operand_test(class) {
        return Some(kind);
    }
    if class.unmade {
        return Some(LinkKind::BadUse);
    }
    None
}

// ---- references

fn differs(a: bool, b: bool) -> bool
    ensures { result ≡ ReferenceUses.differs a b }
{
    if a {
        return !b;
    }
    b
}

/// NotAccessible where the class may not use the member, or where it puts a final field of another class.
fn access_test(put: bool, member: MemberFacts) -> Option<LinkKind>
    ensures { result ≡ ReferenceUses.access_test put member }
{
    if !member.allowed {
        return Some(LinkKind::NotAccessible);
    }
    if put && member.fixed {
        return Some(LinkKind::NotAccessible);
    }
    None
}

// ---- fields

fn puts(op: FieldOp) -> bool
    ensures { result ≡ ReferenceUses.puts op }
{
    matches!(op, FieldOp::PutStatic | FieldOp::PutField)
}

fn takes_static(op: FieldOp) -> bool
    ensures { result ≡ ReferenceUses.takes_static op }
{
    matches!(op, FieldOp::GetStatic | FieldOp::PutStatic)
}

fn field_member_test(op: FieldOp, member: Option<MemberFacts>) -> Option<LinkKind>
    ensures { result ≡ ReferenceUses.field_member_test op member }
{
    let Some(member) = member else {
        return Some(LinkKind::NoMember);
    };
    if let Some(kind) = access_test(puts(op), member) {
        return Some(kind);
    }
    if differs(takes_static(op), member.is_static) {
        return Some(LinkKind::BadUse);
    }
    None
}

/// The test of getfield, putfield, getstatic and putstatic.
pub fn field_test(op: FieldOp, field: MemberUse) -> Option<LinkKind>
    ensures { result ≡ ReferenceUses.field_test op field }
{
    if let Some(kind) = field.names {
        return Some(kind);
    }
    if field.barred {
        return Some(LinkKind::LeftOut);
    }
    field_member_test(op, field.member)
}

// ---- methods

fn is_virtual(op: CallOp) -> bool
    ensures { result ≡ ProofNames.is_virtual op }
{
    matches!(op, CallOp::Virtual)
}

fn calls_static(op: CallOp) -> bool
    ensures { result ≡ ProofNames.calls_static op }
{
    matches!(op, CallOp::Static)
}

fn is_miscalled(op: CallOp, method: &MemberUse, member: MemberFacts) -> bool
    ensures { result ≡ ReferenceUses.is_miscalled op method.now member }
{
    match op {
        CallOp::Virtual => method.init || member.is_private,
        CallOp::Special => !(method.init || method.upward),
        CallOp::Static => method.init,
    }
}

fn call_use_test(op: CallOp, method: &MemberUse, member: MemberFacts) -> Option<LinkKind>
    ensures { result ≡ ReferenceUses.call_use_test op method.now member }
{
    if differs(calls_static(op), member.is_static) {
        return Some(LinkKind::BadUse);
    }
    if method.crossed {
        return Some(LinkKind::BadUse);
    }
    if is_miscalled(op, method, member) {
        return Some(LinkKind::BadUse);
    }
    None
}

fn call_member_test(op: CallOp, method: &MemberUse) -> Option<LinkKind>
    ensures { result ≡ ProofNames.call_member_test op method.now }
{
    let Some(member) = method.member else {
        return Some(LinkKind::NoMember);
    };
    if let Some(kind) = access_test(false, member) {
        return Some(kind);
    }
    call_use_test(op, method, member)
}

/// The test of invokevirtual, invokespecial and invokestatic.
pub fn call_test(op: CallOp, method: MemberUse) -> Option<LinkKind>
    ensures { result ≡ ReferenceUses.call_test op method }
{
    if let Some(kind) = method.names {
        return Some(kind);
    }
    if method.barred {
        return Some(LinkKind::LeftOut);
    }
    if !is_virtual(op) && method.of_interface {
        return Some(LinkKind::LeftOut);
    }
    call_member_test(op, &method)
}

fn counts(count: u8, slots: Option<usize>) -> bool
    ensures { result ≡ ReferenceUses.counts count slots }
{
    match slots {
        Some(slots) => slots < usize::from(count) && slots + 1 == usize::from(count),
        None => false,
    }
}

fn is_misused(count: u8, method: &MemberUse, member: MemberFacts) -> bool
    ensures { result ≡ ReferenceUses.is_misused count method.now member }
{
    member.is_static
        || method.crossed
        || method.init
        || member.is_private
        || !counts(count, method.slots)
}

fn interface_member_test(count: u8, method: &MemberUse) -> Option<LinkKind>
    ensures { result ≡ ProofNames.interface_member_test count method.now }
{
    let Some(member) = method.member else {
        return Some(LinkKind::NoMember);
    };
    if let Some(kind) = access_test(false, member) {
        return Some(kind);
    }
    if is_misused(count, method, member) {
        return Some(LinkKind::BadUse);
    }
    None
}

/// The test of invokeinterface, which says how many slots its arguments and its receiver take.
pub fn interface_test(count: u8, method: MemberUse) -> Option<LinkKind>
    ensures { result ≡ ReferenceUses.interface_test count method }
{
    if let Some(kind) = method.names {
        return Some(kind);
    }
    if method.barred {
        return Some(LinkKind::LeftOut);
    }
    interface_member_test(count, &method)
}
