ghost use Rattle.std.specs.Prelude.{◌≡◌, ◌≤◌, ◌<◌, ◌^◌, IfSome, length};
ghost use Rattle.jlib.specs.declared.side.Side.TheVariants as sides;
ghost use Rattle.jlinking.specs.jlink.LinkedPrograms.{AreParts};

use crate::jstages::policies::policy_path;
use crate::jstages::programs::parts_in;
use jcheck::{CheckedProgram, TypeFault, check};
use jclass::ClassFault;
use jground::jtext::Units;
use jjob::Text;
use jlib::Side;
use jlinking::jlink::{LinkError, LinkedProgram, link, link_or_return};
use jmoving::{RewriteError, rewrite};
use joutput::jio::Shelf;
use jpolicy::PolicyFault;
use jresolution::jprogram::{CodePart, NamedProgram};
use jshow::Refusal;
use std::alloc::Global;

/// A refusal with what there is to look at, for who says more of it.
#[derive(Drop)]
pub enum Seen {
    /// A line of a job, and the job's text.
    Job {
        path: Text,
        text: Vec<u8>,
        line: u32,
    },
    /// A byte of a policy, and all of its bytes.
    Policy {
        path: Text,
        bytes: Vec<u8>,
        at: u32,
        kind: PolicyFault,
    },
    /// A byte of a class file, and all of its bytes.
    Class {
        path: Text,
        bytes: Vec<u8>,
        at: u32,
        kind: ClassFault,
    },
    /// Classes by their names, and why they make no program.
    Unlinked {
        program: NamedProgram,
        error: LinkError,
    },
    /// Classes by their names, of which none of this name has a `main`.
    NoMain {
        program: NamedProgram,
        name: Units,
    },
    /// A program that links, and why it isn't accepted.
    Untyped {
        program: LinkedProgram,
        fault: TypeFault,
    },
    /// A program that is accepted, and why it isn't moved.
    Unmoved {
        program: CheckedProgram,
        error: RewriteError,
    },
}

// ---- files

fn policy_seen<S: Shelf>(
    alloc: Global,
    text: &[u8],
    at: u32,
    kind: PolicyFault,
    shelf: &mut S,
) -> Option<Seen>
    requires { length text.now < 2 ^ 31 }
    ensures held { S.held shelf.new ≡ S.held shelf.old }
    ensures stored { S.write_faults shelf.new ≡ S.write_faults shelf.old }
    ensures later { S.read_faults shelf.old ≤ S.read_faults shelf.new }
{
    let path = policy_path(alloc, text)?;
    match shelf.read(alloc, path.as_str()) {
        Ok(bytes) => Some(Seen::Policy {
            path,
            bytes,
            at,
            kind,
        }),
        Err(_) => None,
    }
}

fn class_seen<S: Shelf>(
    alloc: Global,
    path: &str,
    at: u32,
    kind: ClassFault,
    shelf: &mut S,
) -> Option<Seen>
    ensures held { S.held shelf.new ≡ S.held shelf.old }
    ensures stored { S.write_faults shelf.new ≡ S.write_faults shelf.old }
    ensures later { S.read_faults shelf.old ≤ S.read_faults shelf.new }
{
    let Ok(bytes) = shelf.read(alloc, path) else {
        return None;
    };
    match Text::from_str(alloc, path) {
        Ok(path) => Some(Seen::Class {
            path,
            bytes,
            at,
            kind,
        }),
        Err(_) => None,
    }
}

// ---- programs

fn unlinked(alloc: Global, parts: Vec<CodePart>, side: Side) -> Option<Seen>
    requires { AreParts parts.items }
{
    let (parts, error) = link_or_return(alloc, parts, side).err()?;
    let program = NamedProgram::of(alloc, parts, side).ok()?;
    Some(Seen::Unlinked { program, error })
}

fn no_main(alloc: Global, parts: Vec<CodePart>, side: Side, name: &Units) -> Option<Seen>
    requires { AreParts parts.items }
{
    let program = NamedProgram::of(alloc, parts, side).ok()?;
    match name.copy(alloc) {
        Ok(name) => Some(Seen::NoMain { program, name }),
        Err(_) => None,
    }
}

fn untyped(alloc: Global, parts: Vec<CodePart>, side: Side) -> Option<Seen>
    requires { AreParts parts.items }
{
    let program = link(alloc, parts, side).ok()?;
    let (program, fault) = check(alloc, program).err()?;
    Some(Seen::Untyped { program, fault })
}

/// A program of the source side, where it is accepted.
fn accepted(alloc: Global, parts: Vec<CodePart>) -> Option<CheckedProgram>
    requires { AreParts parts.items }
    ensures { IfSome result (λ p. p.side ≡ sides.Source) }
{
    let program = link(alloc, parts, Side::Source).ok()?;
    check(alloc, program).ok()
}

fn unmoved(alloc: Global, parts: Vec<CodePart>) -> Option<Seen>
    requires { AreParts parts.items }
{
    let program = accepted(alloc, parts)?;
    match rewrite(alloc, &program).err() {
        Some(error) => Some(Seen::Unmoved { program, error }),
        None => None,
    }
}

/// The program that parts make, and why it is refused.
fn program_seen(alloc: Global, parts: Vec<CodePart>, side: Side, refusal: &Refusal) -> Option<Seen>
    requires { AreParts parts.items }
{
    match refusal {
        Refusal::BadLink { .. } => unlinked(alloc, parts, side),
        Refusal::BadCheck { .. } => untyped(alloc, parts, side),
        Refusal::BadRewrite { .. } => unmoved(alloc, parts),
        Refusal::NoMain(name) => no_main(alloc, parts, side, name),
        _ => None,
    }
}

// ---- jobs

fn parts_seen<S: Shelf>(
    alloc: Global,
    text: &[u8],
    side: Side,
    refusal: &Refusal,
    shelf: &mut S,
) -> Option<Seen>
    requires { length text.now < 2 ^ 31 }
    ensures held { S.held shelf.new ≡ S.held shelf.old }
    ensures stored { S.write_faults shelf.new ≡ S.write_faults shelf.old }
    ensures later { S.read_faults shelf.old ≤ S.read_faults shelf.new }
{
    match parts_in(alloc, text, shelf) {
        Some(parts) => program_seen(alloc, parts.into_vec(), side, refusal),
        None => None,
    }
}

/// The refusal of a job of this text.
fn seen_in<S: Shelf>(
    alloc: Global,
    text: &[u8],
    side: Side,
    refusal: &Refusal,
    shelf: &mut S,
) -> Option<Seen>
    requires { length text.now < 2 ^ 31 }
    ensures held { S.held shelf.new ≡ S.held shelf.old }
    ensures stored { S.write_faults shelf.new ≡ S.write_faults shelf.old }
    ensures later { S.read_faults shelf.old ≤ S.read_faults shelf.new }
{
    match refusal {
        Refusal::BadPolicy { at, kind } => policy_seen(alloc, text, *at, *kind, shelf),
        Refusal::BadClass { path, at, kind } => class_seen(alloc, path.as_str(), *at, *kind, shelf),
        _ => parts_seen(alloc, text, side, refusal, shelf),
    }
}

fn job_seen(alloc: Global, path: &str, text: Vec<u8>, line: u32) -> Option<Seen> {
    match Text::from_str(alloc, path) {
        Ok(path) => Some(Seen::Job { path, text, line }),
        Err(_) => None,
    }
}

/// A refusal by the job at a path, with the files at which it is to be looked once more. None where one of them can't be read, or where no
/// memory was left.
pub fn look_again<S: Shelf>(
    alloc: Global,
    path: &str,
    side: Side,
    refusal: &Refusal,
    shelf: &mut S,
) -> Option<Seen>
    ensures held { S.held shelf.new ≡ S.held shelf.old }
    ensures stored { S.write_faults shelf.new ≡ S.write_faults shelf.old }
    ensures later { S.read_faults shelf.old ≤ S.read_faults shelf.new }
{
    let Ok(text) = shelf.read(alloc, path) else {
        return None;
    };
    if let Refusal::BadJob { line } = refusal {
        return job_seen(alloc, path, text, *line);
    }
    seen_in(alloc, &text, side, refusal, shelf)
}

/// Is done with what was seen. Who had it lets go of it here, so that what it holds is gone through in this crate alone.
pub fn done_with(seen: Seen) {
    drop(seen);
}
