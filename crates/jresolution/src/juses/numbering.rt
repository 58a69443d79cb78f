ghost use Rattle.std.specs.Prelude.{◌≡◌, pos, ◌+ℤ◌, IfOk, option_and_then, option_map};
ghost use Rattle.jground.specs.jbase.ListMaps.{each_some};
ghost use Rattle.jparts.specs.jcode.InstructionForms;
ghost use Rattle.jresolution.specs.juses.IndexedInstructions;
ghost use Rattle.jresolution.specs.ProofNames;
ghost use Rattle.jresolution.specs.juses.InstructionMeanings.{array_meant, meaning_of, meant};
ghost use Rattle.jresolution.specs.juses.InternedInstructions.{AreCode, flow_named, instruction_named, key_at, keyed_as, keys_of, test_of};
ghost use Rattle.jresolution.specs.juses.PoolTables.{pool_at};
ghost use Rattle.jresolution.specs.juses.EntryUses.{AreUses};

use crate::jprogram::{MethodId, NamedProgram};
use crate::juses::code::code_at;
use crate::juses::meaning::Use;
use crate::juses::numbered::{Condition, FlowRef, InstructionRef, Key, Keys};
use crate::juses::uses::Uses;
use jground::jbase::Seq;
use jparts::jcode::{ArrayForm, Case, Flow, OpForm, Placed, PoolForm, Switch, form_of};
use std::alloc::{AllocError, Global};

// ---- the numbers of targets

/// The place to which a branch from a place leads.
fn place_behind(at: u32, by: i32) -> i64
    ensures { result ≡ pos at +ℤ by }
{
    i64::from(at) + i64::from(by)
}

/// The number of the instruction to which a branch from a place leads.
fn target(ops: &[Placed], at: u32, by: i32) -> Option<u32>
    requires { AreCode ops.now }
    ensures { result ≡ IndexedInstructions.target ops.now at by }
{
    let to = place_behind(at, by);
    match ops.binary_search_by_key(&to, |one| i64::from(one.at)) {
        Ok(number) => Some(number as u32),
        Err(_) => None,
    }
}

/// The numbers to which branches from a place lead, where each leads to one.
#[tactic(auto, using(crate::proofs::JusesProofs::BranchNumbers::some_next, crate::proofs::JusesProofs::BranchNumbers::none_next, jground::proofs::JbaseProofs::Loops::some_ends,),)]
fn targets_of(
    alloc: Global,
    ops: &[Placed],
    at: u32,
    branches: &[i32],
) -> Result<Option<Seq<u32>>, AllocError>
    requires { AreCode ops.now }
    ensures { IfOk result (λ o. o ≡ each_some (IndexedInstructions.target ops.now at) branches.now) }
{
    let mut numbers = Seq::new(alloc);
    for by in branches {
        match target(ops, at, *by) {
            Some(to) => numbers.push(to)?,
            None => return Ok(None),
        }
    }
    Ok(Some(numbers))
}

fn key_of(ops: &[Placed], at: u32, case: &Case) -> Option<Key>
    requires { AreCode ops.now }
    ensures { result ≡ key_at ops.now at case.now }
{
    match target(ops, at, case.branch) {
        Some(to) => Some(Key { key: case.key, to }),
        None => None,
    }
}

/// Keys, each with the number to which its branch leads, where each leads to one.
#[tactic(auto, using(crate::proofs::JusesProofs::BranchNumbers::some_next, crate::proofs::JusesProofs::BranchNumbers::none_next, jground::proofs::JbaseProofs::Loops::some_ends,),)]
fn keys_in(
    alloc: Global,
    ops: &[Placed],
    at: u32,
    cases: &[Case],
) -> Result<Option<Seq<Key>>, AllocError>
    requires { AreCode ops.now }
    ensures { IfOk result (λ o. o ≡ each_some (key_at ops.now at) cases.now) }
{
    let mut keys = Seq::new(alloc);
    for case in cases {
        match key_of(ops, at, case) {
            Some(key) => keys.push(key)?,
            None => return Ok(None),
        }
    }
    Ok(Some(keys))
}

/// The keys of a switch, where each of their branches leads to an instruction.
#[tactic(auto, using(crate::proofs::JusesProofs::BranchNumbers::keyed_is, crate::proofs::JusesProofs::BranchNumbers::cases_are))]
fn cases_of(
    alloc: Global,
    ops: &[Placed],
    at: u32,
    switch: &Switch,
) -> Result<Option<Keys>, AllocError>
    requires { AreCode ops.now }
    ensures { IfOk result (λ o. option_map keys_of o ≡ IndexedInstructions.cases ops.now at switch.now) }
{
    match switch {
        Switch::Table(table) => {
            match targets_of(alloc, ops, at, table.branches.as_slice())? {
                Some(numbers) => Ok(Some(Keys::From(table.low, numbers))),
                None => Ok(None),
            }
        }
        Switch::Lookup(lookup) => match keys_in(alloc, ops, at, lookup.cases.as_slice())? {
            Some(keys) => Ok(Some(Keys::Each(keys))),
            None => Ok(None),
        },
    }
}

fn default_of(switch: &Switch) -> i32
    ensures { result ≡ IndexedInstructions.default switch.now }
{
    match switch {
        Switch::Table(table) => table.default,
        Switch::Lookup(lookup) => lookup.default,
    }
}

// ---- instructions that lead to others

fn jump(ops: &[Placed], at: u32, test: Condition, by: i32) -> Option<FlowRef>
    requires { AreCode ops.now }
    ensures { option_map flow_named result ≡ IndexedInstructions.jump ops.now at (test_of test) by }
{
    match target(ops, at, by) {
        Some(to) => Some(FlowRef::Jump(test, to)),
        None => None,
    }
}

/// A switch, where its keys and the number for all others are known.
fn switch_with(keys: Option<Keys>, other: Option<u32>) -> Option<FlowRef>
    ensures { option_map flow_named result ≡ option_and_then (λ found. option_map (IndexedInstructions.Switch found) other)
        (option_map keys_of keys) }
{
    let keys = keys?;
    let other = other?;
    Some(FlowRef::Switch(keys, other))
}

#[tactic(auto, unfolding(crate::specs::juses::IndexedInstructions::switch))]
fn switch_of(
    alloc: Global,
    ops: &[Placed],
    at: u32,
    switch: &Switch,
) -> Result<Option<FlowRef>, AllocError>
    requires { AreCode ops.now }
    ensures { IfOk result (λ o. option_map flow_named o ≡ IndexedInstructions.switch ops.now at switch.now) }
{
    let other = target(ops, at, default_of(switch));
    let keys = cases_of(alloc, ops, at, switch)?;
    Ok(switch_with(keys, other))
}

/// Where a form that says so goes on, by the numbers of its method's instructions. None where it leads to none. Only a switch takes memory.
pub fn flow_of(
    alloc: Global,
    ops: &[Placed],
    at: u32,
    flow: &Flow<&Switch>,
) -> Result<Option<FlowRef>, AllocError>
    requires { AreCode ops.now }
    ensures { IfOk result (λ o. option_map flow_named o ≡ IndexedInstructions.flow ops.now at (InstructionForms.seen_flow flow.now)) }
{
    match flow {
        Flow::If(test, by) => Ok(jump(ops, at, Condition::If(*test), *by)),
        Flow::IfInt(test, by) => Ok(jump(ops, at, Condition::IfInt(*test), *by)),
        Flow::IfRef(test, by) => Ok(jump(ops, at, Condition::IfRef(*test), *by)),
        Flow::Goto(by) => Ok(jump(ops, at, Condition::Always, *by)),
        Flow::Switch(switch) => switch_of(alloc, ops, at, switch),
        Flow::Return(kind) => Ok(Some(FlowRef::Return(*kind))),
        Flow::Throw => Ok(Some(FlowRef::Throw)),
    }
}

/// One that says where its method goes on, seen as an instruction.
fn by_flow(
    alloc: Global,
    p: &NamedProgram,
    uses: &Uses,
    class: u32,
    ops: &[Placed],
    at: u32,
    flow: &Flow<&Switch>,
) -> Result<Option<InstructionRef>, AllocError>
    requires { AreCode ops.now }
    ensures { IfOk result (λ o. option_map (instruction_named p.now (pool_at p.now class) uses.now.types) o
        ≡ IndexedInstructions.flow ops.now at (InstructionForms.seen_flow flow.now)) }
{
    match flow_of(alloc, ops, at, flow)? {
        Some(flow) => Ok(Some(InstructionRef::Flow(flow))),
        None => Ok(None),
    }
}

// ---- instructions by an entry of the pool

/// What an entry means to an instruction, seen as that instruction.
fn as_used(p: &NamedProgram, uses: &Uses, class: u32, found: Option<Use>) -> Option<InstructionRef>
    ensures { option_map (instruction_named p.now (pool_at p.now class) uses.now.types) result
        ≡ option_map IndexedInstructions.Used (option_map (meaning_of p.now (pool_at p.now class) uses.now.types) found) }
{
    match found {
        Some(found) => Some(InstructionRef::Used(found)),
        None => None,
    }
}

fn by_pool(p: &NamedProgram, uses: &Uses, class: u32, form: PoolForm) -> Option<InstructionRef>
    requires { AreUses p.now uses.now }
    ensures { option_map (instruction_named p.now (pool_at p.now class) uses.now.types) result
        ≡ option_map IndexedInstructions.Used (meant p.now (pool_at p.now class) form) }
{
    let found = uses.use_at(class, form);
    as_used(p, uses, class, found)
}

fn by_index(p: &NamedProgram, uses: &Uses, class: u32, i: u16) -> Option<InstructionRef>
    requires { AreUses p.now uses.now }
    ensures { option_map (instruction_named p.now (pool_at p.now class) uses.now.types) result
        ≡ option_map IndexedInstructions.Used (array_meant p.now (pool_at p.now class) i) }
{
    let found = uses.array_use_at(class, i);
    as_used(p, uses, class, found)
}

fn by_array(p: &NamedProgram, uses: &Uses, class: u32, form: ArrayForm) -> Option<InstructionRef>
    requires { AreUses p.now uses.now }
    ensures { option_map (instruction_named p.now (pool_at p.now class) uses.now.types) result ≡ ProofNames.array p.now (pool_at p.now class) form }
{
    match form {
        ArrayForm::New(kind) => Some(InstructionRef::Array(ArrayForm::New(kind))),
        ArrayForm::NewRef(i) => by_index(p, uses, class, i),
        ArrayForm::Load(items) => Some(InstructionRef::Array(ArrayForm::Load(items))),
        ArrayForm::Store(items) => Some(InstructionRef::Array(ArrayForm::Store(items))),
        ArrayForm::Length => Some(InstructionRef::Array(ArrayForm::Length)),
    }
}

/// What an instruction of a class is among those of its method: its form, with the numbers of those to which it may lead, and with what it
/// means in its class, by the table of its program's entries. None where it leads to none, or where its entry stands for nothing.
///
/// Only a switch takes memory. A branch takes as many steps as the count of the instructions has binary digits.
#[tactic(auto, unfolding(crate::specs::juses::IndexedInstructions::instruction))]
pub fn instruction_of(
    alloc: Global,
    p: &NamedProgram,
    uses: &Uses,
    class: u32,
    ops: &[Placed],
    one: &Placed,
) -> Result<Option<InstructionRef>, AllocError>
    requires uses { AreUses p.now uses.now }
    requires code { AreCode ops.now }
    ensures { IfOk result (λ o. option_map (instruction_named p.now (pool_at p.now class) uses.now.types) o
        ≡ IndexedInstructions.instruction p.now (pool_at p.now class) ops.now one.now) }
{
    match form_of(&one.op) {
        OpForm::Simple(form) => Ok(Some(InstructionRef::Simple(form))),
        OpForm::Local(form) => Ok(Some(InstructionRef::Local(form))),
        OpForm::Stack(form) => Ok(Some(InstructionRef::Stack(form))),
        OpForm::Flow(flow) => by_flow(alloc, p, uses, class, ops, one.at, &flow),
        OpForm::Array(form) => Ok(by_array(p, uses, class, form)),
        OpForm::Pool(form) => Ok(by_pool(p, uses, class, form)),
    }
}

/// The instruction of a number in a method, by the table of its program's entries.
#[tactic(auto, unfolding(crate::specs::juses::IndexedInstructions::instruction_at))]
pub fn instruction_at(
    alloc: Global,
    p: &NamedProgram,
    uses: &Uses,
    m: MethodId,
    i: u32,
) -> Result<Option<InstructionRef>, AllocError>
    requires { AreUses p.now uses.now }
    ensures { IfOk result (λ o. option_map (instruction_named p.now (pool_at p.now m.class) uses.now.types) o
        ≡ IndexedInstructions.instruction_at p.now m i) }
{
    let Some(code) = code_at(p, m) else {
        return Ok(None);
    };
    let Some(one) = code.ops.get(i as usize) else {
        return Ok(None);
    };
    instruction_of(alloc, p, uses, m.class, code.ops, one)
}
