use jground::jbase::FaultOrMemory;
use jground::jtext::Units;
use jpolicy::{Grant, GrantEntry, Policy, PolicyError, read_policy};
use std::alloc::Global;
use tests_rows::Answer;

/// The policy of a text, if it isn't too long to be asked.
pub fn policy_of(
    alloc: Global,
    bytes: &[u8],
    properties: &[(Units, Units)],
) -> Result<Policy, PolicyError> {
    if 2_147_483_647 < bytes.len() {
        return Err(FaultOrMemory::Memory);
    }
    read_policy(alloc, bytes, properties)
}

/// Tells a text that is there behind a `=`; `-` stands for one that isn't.
fn tell_if(text: Option<&Units>, answer: &mut Answer) {
    match text {
        Some(units) => {
            answer.tell("=");
            answer.units(units.as_slice());
        }
        None => answer.tell("-"),
    }
}

fn tell_entry(entry: &GrantEntry, answer: &mut Answer) {
    answer.tell("|");
    answer.units(entry.class.as_slice());
    answer.tell(" ");
    tell_if(entry.name.as_ref(), answer);
    answer.tell(" ");
    tell_if(entry.actions.as_ref(), answer);
    if entry.signed {
        answer.tell("!");
    }
}

fn tell_grant(grant: &Grant, answer: &mut Answer) {
    tell_if(grant.code_base.as_ref(), answer);
    if grant.asks_more {
        answer.tell("+");
    }
    for entry in grant.entries.as_slice() {
        tell_entry(entry, answer);
    }
    answer.tell(";");
}

/// Tells a policy: each grant with its code base and a `+` where it asks for more, then each entry behind a `|`, with a `!` where it is
/// signed, and a `;`.
fn tell_policy(policy: &Policy, answer: &mut Answer) {
    answer.tell("'");
    for grant in policy.as_slice() {
        tell_grant(grant, answer);
    }
    answer.tell("'");
}

/// The grants of a policy file as a line, or the place and kind of its fault.
pub fn read(properties: &[(Units, Units)], field: &str, answer: &mut Answer) {
    let bytes = answer.spelled(field);
    match policy_of(answer.alloc(), bytes.as_slice(), properties) {
        Ok(policy) => tell_policy(&policy, answer),
        Err(FaultOrMemory::Fault(fault)) => answer.debug_pair(&fault.at, &fault.kind),
        Err(FaultOrMemory::Memory) => answer.lack(),
    }
}
