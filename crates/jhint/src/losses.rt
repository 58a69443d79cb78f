ghost use Rattle.std.specs.Prelude.{◌≡◌, ◌≤◌};

use crate::said::Said;
use crate::unset::say_clauses;
use jground::jtext::Units;
use jjob::{Command, Job, JobSource, Text, read_job, read_words};
use joutput::jio::{Shelf, Sink};
use jperm::{PermClass, PermError, make};
use jpolicy::{Grant, GrantEntry, read_policy};
use std::alloc::Global;

/// The most pairs of a grant and a code source that are looked at.
const MOST_PAIRS: usize = 100_000;

const STAR: u16 = b'*' as u16;

const DOT: u16 = b'.' as u16;

const SLASH: u16 = b'/' as u16;

// ---- entries

/// Says an entry: its class, and its name where it has one.
fn say_entry(entry: &GrantEntry, said: &mut Said) {
    said.words(b": ");
    said.units(entry.class.as_slice());
    if let Some(name) = &entry.name {
        said.words(b" \"");
        said.units(name.as_slice());
        said.words(b"\"");
    }
}

/// Says why the class of an entry makes no permission of it.
fn say_cause(entry: &GrantEntry, fault: PermError, said: &mut Said) {
    say_entry(entry, said);
    match fault {
        PermError::NoName => said.words(b" has no name"),
        PermError::EmptyName => said.words(b" has a name that is empty"),
        PermError::BadActions => match &entry.actions {
            Some(actions) => {
                said.words(b": \"");
                said.units(actions.as_slice());
                said.words(b"\" are no actions of it");
            }
            None => said.words(b" has no actions"),
        },
        PermError::Memory => said.is_lost = true,
    }
    said.words(b", so the entry grants nothing");
}

/// Says of a name in which a `*` stands for itself that it does.
fn say_star(entry: &GrantEntry, mark: u16, said: &mut Said) {
    let Some(name) = &entry.name else {
        return;
    };
    let name = name.as_slice();
    let is_wild = name == [STAR].as_slice() || name.ends_with(&[mark, STAR]);
    if name.contains(&STAR) && !is_wild {
        say_entry(entry, said);
        said.words(
            b": the * is no wildcard there, where it is neither the whole name nor the end behind ",
        );
        if mark == DOT {
            said.words(b"a dot");
        } else {
            said.words(b"a slash");
        }
    }
}

/// Says why an entry grants nothing, or less than it seems to. Of one that asks for a signer it says nothing.
fn say_of_entry(entry: &GrantEntry, cwd: &Units, said: &mut Said) {
    if entry.signed {
        return;
    }
    let Some(class) = PermClass::named(entry.class.as_slice()) else {
        say_entry(entry, said);
        return said.words(
            b" is of no class of permissions that is known here, so the entry grants nothing",
        );
    };
    let made = make(
        said.alloc,
        class,
        entry.name.as_ref(),
        entry.actions.as_ref(),
        cwd,
    );
    if let Some(fault) = made.err() {
        return say_cause(entry, fault, said);
    }
    match class {
        PermClass::All => {}
        PermClass::File => say_star(entry, SLASH, said),
        _ => say_star(entry, DOT, said),
    }
}

// ---- grants

/// Whether a grant is for the code of no source.
fn is_unused(alloc: Global, grant: &Grant, sources: &[JobSource]) -> bool {
    for one in sources {
        let Ok(false) = one.source.matches(alloc, grant) else {
            return false;
        };
    }
    true
}

/// Says of a grant's code base that no code source stands there.
fn say_base(grant: &Grant, sources: &[JobSource], said: &mut Said) {
    let Some(base) = &grant.code_base else {
        return;
    };
    if is_unused(said.alloc, grant, sources) {
        said.words(b": \"");
        said.units(base.as_slice());
        said.words(b"\" stands for no code source of the job, so its grant gives nothing");
    }
}

/// Says what is lost of a grant's entries, a line for each.
fn say_entries<K: Sink>(alloc: Global, path: &str, grant: &Grant, cwd: &Units, out: &mut K) {
    for entry in grant.entries.as_slice() {
        let mut said = Said::of_file(alloc, path);
        say_of_entry(entry, cwd, &mut said);
        said.send(out);
    }
}

/// Says what is lost of grants.
fn say_grants<K: Sink>(alloc: Global, path: &str, grants: &[Grant], job: &Job, out: &mut K) {
    let sources = job.sources.as_slice();
    let is_long = MOST_PAIRS < grants.len().saturating_mul(sources.len());
    for grant in grants {
        if !grant.asks_more {
            let mut said = Said::of_file(alloc, path);
            if !is_long {
                say_base(grant, sources, &mut said);
            }
            said.send(out);
            say_entries(alloc, path, grant, &job.cwd, out);
        }
    }
}

// ---- files

/// The path of the job of a command that asks for a policy.
fn listed_job(alloc: Global, words: &[String]) -> Option<Text> {
    match read_words(alloc, words).ok()? {
        Command::Policy { job } => Some(job),
        _ => None,
    }
}

/// Says what is lost of the policy of a job.
fn say_job_losses<S: Shelf, K: Sink>(alloc: Global, job: &Job, shelf: &mut S, out: &mut K)
    ensures held { S.held shelf.new ≡ S.held shelf.old }
    ensures stored { S.write_faults shelf.new ≡ S.write_faults shelf.old }
    ensures later { S.read_faults shelf.old ≤ S.read_faults shelf.new }
{
    let Some(policy) = &job.policy else {
        return;
    };
    let path = policy.as_str();
    let Ok(bytes) = shelf.read(alloc, path) else {
        return;
    };
    let props = job.props.as_slice();
    say_clauses(alloc, path, &bytes, props, out);
    if let Ok(grants) = read_policy(alloc, &bytes, props) {
        say_grants(alloc, path, grants.as_slice(), job, out);
    }
}

/// Says, where the command of the words lists what a policy grants, a line for each part of the policy that grants nothing, or less than it
/// seems to. What is said is in no clause.
pub fn say_losses<S: Shelf, K: Sink>(alloc: Global, words: &[String], shelf: &mut S, out: &mut K)
    ensures held { S.held shelf.new ≡ S.held shelf.old }
    ensures stored { S.write_faults shelf.new ≡ S.write_faults shelf.old }
    ensures later { S.read_faults shelf.old ≤ S.read_faults shelf.new }
{
    let Some(path) = listed_job(alloc, words) else {
        return;
    };
    let Ok(text) = shelf.read(alloc, path.as_str()) else {
        return;
    };
    if let Ok(job) = read_job(alloc, &text) {
        say_job_losses(alloc, &job, shelf, out);
    }
}
