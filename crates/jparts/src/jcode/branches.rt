ghost use Rattle.std.specs.Prelude.{◌≡◌};
ghost use Rattle.std.specs.List.{list_all};
ghost use Rattle.jparts.specs.jcode.Instructions;
ghost use Rattle.jparts.specs.jcode.InstructionForms.{flow_branches, seen_flow, switch_branches};
ghost use Rattle.jparts.specs.jcode.Instructions.{Rises, is_place, lands, leads};

use crate::jcode::forming::form_of;
use crate::jcode::op::{Case, Placed, Switch};
use crate::jcode::op_form::{Flow, OpForm};

/// An instruction stands at this place.
fn is_place(ops: &[Placed], target: i64) -> bool
    requires { Rises ops.now }
    ensures { result ≡ is_place ops.now target }
{
    ops.binary_search_by_key(&target, |one| i64::from(one.at))
        .is_ok()
}

/// The number of the instruction that begins at a place, where one does.
pub fn place_of(ops: &[Placed], at: u32) -> Option<usize>
    requires { Rises ops.now }
    ensures { result ≡ Instructions.place_of ops.now at }
{
    match ops.binary_search_by_key(&i64::from(at), |one| i64::from(one.at)) {
        Ok(number) => Some(number),
        Err(_) => None,
    }
}

/// A branch from a place leads to an instruction.
fn lands(ops: &[Placed], at: u32, by: i32) -> bool
    requires { Rises ops.now }
    ensures { result ≡ lands ops.now at by }
{
    is_place(ops, i64::from(at) + i64::from(by))
}

/// Each branch from a place leads to an instruction.
fn all_land(ops: &[Placed], at: u32, branches: &[i32]) -> bool
    requires { Rises ops.now }
    ensures { result ≡ list_all (lands ops.now at) branches.now }
{
    for by in branches {
        if !lands(ops, at, *by) {
            return false;
        }
    }
    true
}

/// Each case's branch from a place leads to an instruction.
fn cases_land(ops: &[Placed], at: u32, cases: &[Case]) -> bool
    requires { Rises ops.now }
    ensures { result ≡ list_all (λ c. lands ops.now at c.branch) cases.now }
{
    for case in cases {
        if !lands(ops, at, case.branch) {
            return false;
        }
    }
    true
}

/// Each branch of a switch at a place leads to an instruction.
#[tactic(auto, using(crate::proofs::JcodeProofs::Places::cases_all))]
fn switch_leads(ops: &[Placed], at: u32, switch: &Switch) -> bool
    requires { Rises ops.now }
    ensures { result ≡ list_all (lands ops.now at) (switch_branches switch.now) }
{
    match switch {
        Switch::Table(table) => {
            lands(ops, at, table.default) && all_land(ops, at, table.branches.as_slice())
        }
        Switch::Lookup(lookup) => {
            lands(ops, at, lookup.default) && cases_land(ops, at, lookup.cases.as_slice())
        }
    }
}

fn flow_leads(ops: &[Placed], at: u32, flow: &Flow<&Switch>) -> bool
    requires { Rises ops.now }
    ensures { result ≡ list_all (lands ops.now at) (flow_branches (seen_flow flow.now)) }
{
    match flow {
        Flow::If(_, by) => lands(ops, at, *by),
        Flow::IfInt(_, by) => lands(ops, at, *by),
        Flow::IfRef(_, by) => lands(ops, at, *by),
        Flow::Goto(by) => lands(ops, at, *by),
        Flow::Switch(switch) => switch_leads(ops, at, switch),
        Flow::Return(_) | Flow::Throw => true,
    }
}

/// Each branch of an instruction leads to an instruction.
#[tactic(auto, unfolding(crate::specs::jcode::InstructionForms::branches))]
fn leads(ops: &[Placed], one: &Placed) -> bool
    requires { Rises ops.now }
    ensures { result ≡ leads ops.now one.now }
{
    match form_of(&one.op) {
        OpForm::Flow(flow) => flow_leads(ops, one.at, &flow),
        _ => true,
    }
}

/// The place of the first instruction with a branch that leads to none.
#[tactic(auto, unfolding(crate::specs::jcode::Instructions::first_lost, jground::specs::jbase::FirstFaults::first_some))]
pub fn first_lost(ops: &[Placed]) -> Option<u32>
    requires { Rises ops.now }
    ensures { result ≡ Instructions.first_lost ops.now }
{
    for one in ops {
        if !leads(ops, one) {
            return Some(one.at);
        }
    }
    None
}
