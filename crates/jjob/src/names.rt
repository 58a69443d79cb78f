ghost use Rattle.std.specs.Prelude.{◌≡◌, ◌<◌, ◌++◌, IfOk, OnOk, length, map, true};
ghost use Rattle.jjob.specs.JobLines.{is_kept};
ghost use Rattle.jjob.specs.Jobs.{lines_of};
ghost use Rattle.jjob.specs.JobNames.{AgainTo, digests_of, first_again, is_again, least_again, least_with, lesser, note_of, notes, plain, with_next};

use crate::digests::{are_apart, digest};
use crate::line::{is_kept, prop_of};
use crate::reading::first_line;
use std::alloc::{AllocError, Global};

/// The name of a property behind its digest, so that comparisons seldom read names, and the number of its line.
type Note<'a> = (u64, &'a str, u32);

/// The number of the first line that says a property whose name a line before it says; the digests are those of the names of all lines.
/// Where no two are equal the lines aren't gone over again.
pub fn first_again_by(
    alloc: Global,
    text: &str,
    digests: Vec<u64>,
) -> Result<Option<u32>, AllocError>
    requires { length text.now < 0xffff_ffff }
    ensures { digests.items ≡ digests_of (lines_of text.now) → IfOk result (λ number. number ≡ first_again (lines_of text.now)) }
{
    if are_apart(digests) {
        return Ok(None);
    }
    first_again(alloc, text)
}

/// The number of the first line that says a property's name again, up to a line of a text that has the number, else this number; the digests
/// are those of the names of the lines up to it.
pub fn first_again_to(
    alloc: Global,
    text: &str,
    digests: Vec<u64>,
    number: u32,
) -> Result<u32, AllocError>
    requires { length text.now < 0xffff_ffff }
    ensures { AgainTo (lines_of text.now) number digests.items result }
{
    if are_apart(digests) {
        return Ok(number);
    }
    let again = first_again(alloc, text)?;
    Ok(lesser(again, number))
}

/// The lesser of a number that there may be, and another one.
fn lesser(other: Option<u32>, number: u32) -> u32
    ensures { result ≡ lesser other number }
{
    let Some(other) = other else {
        return number;
    };
    if other <= number {
        return other;
    }
    number
}

/// The number of the first line that says a property whose name a line before it says.
fn first_again(alloc: Global, text: &str) -> Result<Option<u32>, AllocError>
    requires { length text.now < 0xffff_ffff }
    ensures { IfOk result (λ number. number ≡ first_again (lines_of text.now)) }
{
    let mut names = notes(alloc, text)?;
    names.sort_unstable();
    Ok(least_again(names.as_slice()))
}

/// The names of the properties that a text's lines say, in the order of the lines.
fn notes<'a>(alloc: Global, text: &'a str) -> Result<Vec<Note<'a>>, AllocError>
    requires { length text.now < 0xffff_ffff }
    ensures { IfOk result (λ names. map plain names.items ≡ notes 1 (lines_of text.now)) }
{
    let mut names = Vec::new(alloc);
    let mut number = 1;
    let mut rest = text;
    while let Some((line, more)) = first_line(rest) {
        note(&mut names, number, line)?;
        number += 1;
        rest = more;
    }
    note(&mut names, number, rest)?;
    Ok(names)
}

/// Notes the name of the property that a line says, where it says one.
#[inline(always)]
fn note<'a>(names: &mut Vec<Note<'a>>, number: u32, line: &'a str) -> Result<(), AllocError>
    ensures { OnOk result (map plain names.new.items ≡ map plain names.old.items ++ note_of number line.now) }
{
    if !is_kept(line) {
        return Ok(());
    }
    note_kept(names, number, line)
}

/// Notes the name of the property that a line says, where it says one; the line isn't skipped.
#[inline(never)]
fn note_kept<'a>(names: &mut Vec<Note<'a>>, number: u32, line: &'a str) -> Result<(), AllocError>
    requires { is_kept line.now ≡ true }
    ensures { OnOk result (map plain names.new.items ≡ map plain names.old.items ++ note_of number line.now) }
{
    let Some((name, _)) = prop_of(line) else {
        return Ok(());
    };
    let digest = digest(name.as_bytes());
    names.push((digest, name, number))?;
    Ok(())
}

/// The least number of a name that stands behind an equal one with a lesser number; equal names are neighbours.
#[tactic(auto, using(crate::proofs::JobNames::least_none, crate::proofs::JobNames::least_begins), unfolding(crate::specs::JobNames::again_from))]
fn least_again(names: &[Note]) -> Option<u32>
    ensures { result ≡ least_again (map plain names.now) }
{
    let Some((first, more)) = names.split_first() else {
        return None;
    };
    let mut last = first;
    let mut least = None;
    for next in more {
        least = with_next(least, last, next);
        last = next;
    }
    least
}

/// The least number so far, with a name and the one behind it.
#[inline(always)]
fn with_next(least: Option<u32>, last: &Note, next: &Note) -> Option<u32>
    ensures { result ≡ with_next least (plain last.now) (plain next.now) }
{
    if !is_again(last, next) {
        return least;
    }
    least_with(least, next.2)
}

/// Whether a name stands again on a later line.
#[inline(always)]
fn is_again(last: &Note, next: &Note) -> bool
    ensures { result ≡ is_again (plain last.now) (plain next.now) }
{
    last.0 == next.0 && last.1 == next.1 && last.2 < next.2
}

/// The least number so far, with one more.
fn least_with(least: Option<u32>, number: u32) -> Option<u32>
    ensures { result ≡ least_with least number }
{
    let Some(so_far) = least else {
        return Some(number);
    };
    if so_far <= number {
        return least;
    }
    Some(number)
}
