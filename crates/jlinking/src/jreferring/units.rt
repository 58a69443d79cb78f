ghost use Rattle.std.specs.Prelude.{◌≡◌, slice_get};
ghost use Rattle.std.specs.List.{list_any};
ghost use Rattle.jground.specs.jbase.FirstFaults.{first_some};
ghost use Rattle.jlinking.specs.jreferring.CodeUnits;
ghost use Rattle.jlinking.specs.ProofNames;

use crate::jreferring::judged::{ClassUse, Judged, MemberUse};
use crate::jreferring::uses::{call_test, field_test, interface_test, new_test, operand_test};
use jclass::CodeAttribute;
use jparts::jcode::{ArrayForm, CallOp, FieldOp, Handler, OpForm, Placed, PoolForm, form_of};
use jparts::jmaps::{MapType, RawFrame};
use jresolution::jprogram::LinkKind;

// ---- entries by their use

fn entry_at(table: &[Judged], n: u16) -> Option<Judged>
    ensures { result ≡ slice_get table.now n }
{
    table.get(usize::from(n)).copied()
}

fn class_at(table: &[Judged], n: u16) -> Option<ClassUse>
    ensures { result ≡ CodeUnits.class_at table.now n }
{
    match entry_at(table, n) {
        Some(Judged::Class(class)) => Some(class),
        _ => None,
    }
}

fn member_at(table: &[Judged], n: u16) -> Option<MemberUse>
    ensures { result ≡ CodeUnits.member_at table.now n }
{
    match entry_at(table, n) {
        Some(Judged::Member(member)) => Some(member),
        _ => None,
    }
}

/// The test of ldc, which pushes an int or a string.
fn constant_test(one: Option<Judged>) -> Option<LinkKind>
    ensures { result ≡ CodeUnits.constant_test one }
{
    match one {
        Some(Judged::Constant) => None,
        Some(Judged::Class(class)) => {
            if let Some(kind) = class.names {
                return Some(kind);
            }
            Some(LinkKind::LeftOut)
        }
        _ => Some(LinkKind::LeftOut),
    }
}

/// The test of ldc2_w, which pushes a long.
fn long_test(one: Option<Judged>) -> Option<LinkKind>
    ensures { result ≡ CodeUnits.long_test one }
{
    match one {
        Some(Judged::LongConstant) => None,
        _ => Some(LinkKind::LeftOut),
    }
}

// ---- instructions

fn operand_at(table: &[Judged], n: u16) -> Option<LinkKind>
    ensures { result ≡ CodeUnits.operand_at table.now n }
{
    match class_at(table, n) {
        Some(class) => operand_test(class),
        None => None,
    }
}

fn new_at(table: &[Judged], n: u16) -> Option<LinkKind>
    ensures { result ≡ ProofNames.new_at table.now n }
{
    match class_at(table, n) {
        Some(class) => new_test(class),
        None => None,
    }
}

fn field_at(table: &[Judged], op: FieldOp, n: u16) -> Option<LinkKind>
    ensures { result ≡ ProofNames.field_at table.now op n }
{
    match member_at(table, n) {
        Some(field) => field_test(op, field),
        None => Some(LinkKind::NoMember),
    }
}

fn call_at(table: &[Judged], op: CallOp, n: u16) -> Option<LinkKind>
    ensures { result ≡ ProofNames.call_at table.now op n }
{
    match member_at(table, n) {
        Some(method) => call_test(op, method),
        None => Some(LinkKind::NoMember),
    }
}

fn interface_call_at(table: &[Judged], n: u16, count: u8) -> Option<LinkKind>
    ensures { result ≡ ProofNames.interface_call_at table.now n count }
{
    match member_at(table, n) {
        Some(method) => interface_test(count, method),
        None => Some(LinkKind::NoMember),
    }
}

fn pool_test(table: &[Judged], form: PoolForm) -> Option<LinkKind>
    ensures { result ≡ CodeUnits.pool_test table.now form }
{
    match form {
        PoolForm::Constant(n) => constant_test(entry_at(table, n)),
        PoolForm::LongConstant(n) => long_test(entry_at(table, n)),
        PoolForm::Field(op, n) => field_at(table, op, n),
        PoolForm::Call(op, n) => call_at(table, op, n),
        PoolForm::CallInterface(n, count) => interface_call_at(table, n, count),
        PoolForm::New(n) => new_at(table, n),
        PoolForm::Cast(_, n) => operand_at(table, n),
    }
}

/// The test of an instruction.
#[tactic(auto, unfolding(crate::specs::jreferring::CodeUnits::op_test))]
fn op_test(table: &[Judged], one: &Placed) -> Option<LinkKind>
    ensures { result ≡ CodeUnits.op_test table.now one.now }
{
    match form_of(&one.op) {
        OpForm::Pool(form) => pool_test(table, form),
        OpForm::Array(ArrayForm::NewRef(n)) => operand_at(table, n),
        _ => None,
    }
}

/// The first fault of instructions.
#[tactic(auto, unfolding(jground::specs::jbase::FirstFaults::first_some))]
pub fn ops_test(table: &[Judged], ops: &[Placed]) -> Option<LinkKind>
    ensures { result ≡ first_some (CodeUnits.op_test table.now) ops.now }
{
    for one in ops {
        if let Some(kind) = op_test(table, one) {
            return Some(kind);
        }
    }
    None
}

// ---- handlers

#[tactic(auto, unfolding(crate::specs::jreferring::CodeUnits::handler_test))]
fn handler_test(table: &[Judged], handler: Handler) -> Option<LinkKind>
    ensures { result ≡ CodeUnits.handler_test table.now handler }
{
    if handler.class == 0 {
        return None;
    }
    operand_at(table, handler.class)
}

/// The first fault of handlers.
#[tactic(auto, unfolding(jground::specs::jbase::FirstFaults::first_some))]
pub fn handlers_test(table: &[Judged], handlers: &[Handler]) -> Option<LinkKind>
    ensures { result ≡ first_some (CodeUnits.handler_test table.now) handlers.now }
{
    for one in handlers {
        if let Some(kind) = handler_test(table, *one) {
            return Some(kind);
        }
    }
    None
}

// ---- frames

fn item_names(table: &[Judged], item: MapType) -> Option<LinkKind>
    ensures { result ≡ CodeUnits.item_names table.now item }
{
    let MapType::Object(n) = item else {
        return None;
    };
    match class_at(table, n) {
        Some(class) => class.names,
        None => None,
    }
}

#[tactic(auto, unfolding(jground::specs::jbase::FirstFaults::first_some))]
fn items_names(table: &[Judged], items: &[MapType]) -> Option<LinkKind>
    ensures { result ≡ first_some (CodeUnits.item_names table.now) items.now }
{
    for one in items {
        if let Some(kind) = item_names(table, *one) {
            return Some(kind);
        }
    }
    None
}

fn is_barred(table: &[Judged], item: MapType) -> bool
    ensures { result ≡ CodeUnits.is_barred table.now item }
{
    let MapType::Object(n) = item else {
        return false;
    };
    match class_at(table, n) {
        Some(class) => class.barred_item,
        None => false,
    }
}

fn any_barred(table: &[Judged], items: &[MapType]) -> bool
    ensures { result ≡ list_any (CodeUnits.is_barred table.now) items.now }
{
    items.iter().any(|one| is_barred(table, *one))
}

#[tactic(auto, unfolding(crate::specs::jreferring::CodeUnits::frame_test))]
fn frame_test(table: &[Judged], frame: &RawFrame) -> Option<LinkKind>
    ensures { result ≡ CodeUnits.frame_test table.now frame.now }
{
    let locals = frame.locals.as_slice();
    let stack = frame.stack.as_slice();
    if let Some(kind) = items_names(table, locals) {
        return Some(kind);
    }
    if let Some(kind) = items_names(table, stack) {
        return Some(kind);
    }
    if any_barred(table, locals) {
        return Some(LinkKind::LeftOut);
    }
    if any_barred(table, stack) {
        return Some(LinkKind::LeftOut);
    }
    None
}

#[tactic(auto, unfolding(jground::specs::jbase::FirstFaults::first_some))]
fn frames_test(table: &[Judged], frames: &[RawFrame]) -> Option<LinkKind>
    ensures { result ≡ first_some (CodeUnits.frame_test table.now) frames.now }
{
    for one in frames {
        if let Some(kind) = frame_test(table, one) {
            return Some(kind);
        }
    }
    None
}

fn attribute_test(table: &[Judged], attribute: &CodeAttribute) -> Option<LinkKind>
    ensures { result ≡ CodeUnits.attribute_test table.now attribute.now }
{
    match attribute {
        CodeAttribute::Maps { frames, .. } => frames_test(table, frames.as_slice()),
        CodeAttribute::Raw { .. } => None,
    }
}

/// The first fault of the frames among a code's attributes.
#[tactic(auto, unfolding(jground::specs::jbase::FirstFaults::first_some))]
pub fn attributes_test(table: &[Judged], attributes: &[CodeAttribute]) -> Option<LinkKind>
    ensures { result ≡ first_some (CodeUnits.attribute_test table.now) attributes.now }
{
    for one in attributes {
        if let Some(kind) = attribute_test(table, one) {
            return Some(kind);
        }
    }
    None
}
