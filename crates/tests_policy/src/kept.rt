ghost use Rattle.std.specs.Prelude.{◌<◌, IsTrue, length};
ghost use Rattle.jsnapshots.specs.SnapshotEntries.{AllBelow, Below};

use crate::permissions::reads;
use jdomain::{Domains, Verdict};
use jground::jtext::Units;
use jperm::Permission;
use jsnapshots::{InspectMark, Kept};
use std::alloc::Global;
use tests_rows::Unread;

/// Whether a number, where there is one, is one of the first so many.
fn is_given(len: u64, number: Option<u64>) -> bool
    ensures { IsTrue result → Below len number }
{
    match number {
        Some(n) => n < len,
        None => true,
    }
}

/// Whether a table gave the numbers of all privileges.
fn are_given(kept: &Kept, marks: &[InspectMark]) -> bool
    ensures { IsTrue result → AllBelow (length kept.now) marks.now }
{
    let len = kept.len();
    marks.iter().all(|mark| is_given(len, mark.privileged))
}

/// The number of a stack.
pub fn keep(
    alloc: Global,
    kept: &mut Kept,
    marks: &[InspectMark],
    inherited: Option<u64>,
) -> Result<u64, Unread> {
    if !are_given(kept, marks) {
        return Err(Unread::Line);
    }
    if !is_given(kept.len(), inherited) {
        return Err(Unread::Line);
    }
    Ok(kept.snapshot(alloc, marks, inherited)?)
}

/// The number of a privilege.
pub fn grant(
    alloc: Global,
    kept: &mut Kept,
    given: Option<u64>,
    limits: Option<&[Permission]>,
) -> Result<u64, Unread> {
    if !is_given(kept.len(), given) {
        return Err(Unread::Line);
    }
    Ok(kept.privilege(alloc, given, limits)?)
}

/// The permission to read the property x.
fn reads_x(alloc: Global) -> Result<Permission, Unread> {
    let root = Units::from_text(alloc, "/")?;
    reads(alloc, &root, "x")
}

/// What a walk decides on reading the property x.
pub fn walk(
    alloc: Global,
    kept: &Kept,
    domains: &Domains,
    marks: &[InspectMark],
    inherited: Option<u64>,
) -> Result<Verdict, Unread> {
    if !are_given(kept, marks) {
        return Err(Unread::Line);
    }
    if !is_given(kept.len(), inherited) {
        return Err(Unread::Line);
    }
    let x = reads_x(alloc)?;
    Ok(kept.walk(alloc, domains, marks, inherited, &x)?)
}
