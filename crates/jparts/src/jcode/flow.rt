ghost use Rattle.std.specs.Prelude.{◌≡◌, [], ◌∷◌, length, slice_get};
ghost use Rattle.jparts.specs.jcode.InstructionForms;
ghost use Rattle.jparts.specs.jcode.InstructionForms.{branches, flow_branches, flow_goes_on, seen, seen_flow, switch_branches};

use crate::jcode::op::Switch;
use crate::jcode::op_form::{Flow, OpForm};

fn switch_count(switch: &Switch) -> usize
    ensures { result ≡ length (switch_branches switch.now) }
{
    match switch {
        Switch::Table(table) => 1 + table.branches.as_slice().len(),
        Switch::Lookup(lookup) => 1 + lookup.cases.as_slice().len(),
    }
}

fn flow_count(flow: &Flow<&Switch>) -> usize
    ensures { result ≡ length (flow_branches (seen_flow flow.now)) }
{
    match flow {
        Flow::If(_, _) | Flow::IfInt(_, _) | Flow::IfRef(_, _) | Flow::Goto(_) => 1,
        Flow::Switch(switch) => switch_count(switch),
        Flow::Return(_) | Flow::Throw => 0,
    }
}

/// How many branches a form has.
#[tactic(auto, unfolding(crate::specs::jcode::InstructionForms::branches))]
pub fn branch_count(form: &OpForm<&Switch>) -> usize
    ensures { result ≡ length (branches (seen form.now)) }
{
    match form {
        OpForm::Flow(flow) => flow_count(flow),
        _ => 0,
    }
}

fn switch_branch(switch: &Switch, i: usize) -> Option<i32>
    ensures { result ≡ slice_get (switch_branches switch.now) i }
{
    match switch {
        Switch::Table(table) => {
            if i == 0 {
                return Some(table.default);
            }
            table.branches.as_slice().get(i - 1).copied()
        }
        Switch::Lookup(lookup) => {
            if i == 0 {
                return Some(lookup.default);
            }
            let case = lookup.cases.as_slice().get(i - 1)?;
            Some(case.branch)
        }
    }
}

fn only(by: i32, i: usize) -> Option<i32>
    ensures { result ≡ slice_get (by ∷ []) i }
{
    if i == 0 {
        return Some(by);
    }
    None
}

fn flow_branch(flow: &Flow<&Switch>, i: usize) -> Option<i32>
    ensures { result ≡ slice_get (flow_branches (seen_flow flow.now)) i }
{
    match flow {
        Flow::If(_, by) => only(*by, i),
        Flow::IfInt(_, by) => only(*by, i),
        Flow::IfRef(_, by) => only(*by, i),
        Flow::Goto(by) => only(*by, i),
        Flow::Switch(switch) => switch_branch(switch, i),
        Flow::Return(_) | Flow::Throw => None,
    }
}

/// The branch of a form with a number, counted from 0: a distance from its instruction's own place. The default of a switch is
/// the first.
#[tactic(auto, unfolding(crate::specs::jcode::InstructionForms::branches))]
pub fn branch_at(form: &OpForm<&Switch>, i: usize) -> Option<i32>
    ensures { result ≡ slice_get (branches (seen form.now)) i }
{
    match form {
        OpForm::Flow(flow) => flow_branch(flow, i),
        _ => None,
    }
}

fn flow_goes_on<S>(flow: &Flow<S>) -> bool
    ensures { result ≡ flow_goes_on flow.now }
{
    match flow {
        Flow::If(_, _) | Flow::IfInt(_, _) | Flow::IfRef(_, _) => true,
        Flow::Goto(_) | Flow::Switch(_) | Flow::Return(_) | Flow::Throw => false,
    }
}

/// Whether the instruction behind a form's own may follow it.
#[tactic(auto, unfolding(crate::specs::jcode::InstructionForms::goes_on))]
pub fn goes_on<S>(form: &OpForm<S>) -> bool
    ensures { result ≡ InstructionForms.goes_on form.now }
{
    match form {
        OpForm::Flow(flow) => flow_goes_on(flow),
        _ => true,
    }
}
