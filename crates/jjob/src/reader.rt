ghost use Rattle.std.specs.Prelude.{◌≡◌, [], ◌∷◌, ◌++◌, ℕ, List, OnOk, true};
ghost use Rattle.jjob.specs.JobLines.{SaysNoProp, is_kept, said_of};
ghost use Rattle.jjob.specs.Jobs.{said_by};
ghost use Rattle.jjob.specs.JobLineAnswers.{TakesLine};
ghost use Rattle.jjob.specs.JobReaderState.{IsTold};
ghost use Rattle.jjob.specs.JobNames.{digests_of};

use crate::digests::add_digest;
use crate::line::{is_kept, prop_of, said_of};
use crate::told::Told;
use std::alloc::{AllocError, Global};

/// Takes a line, if it isn't bad behind those before it, and says whether it was taken. Of the name of a property the digest is kept;
/// whether the name stands before isn't asked.
#[inline(always)]
pub fn take(
    alloc: Global,
    told: &mut Told,
    digests: &mut Vec<u64>,
    line: &str,
) -> Result<bool, AllocError>
    ensures taken { (lines : List (List ℕ)) → IsTold (said_by lines) told.old → TakesLine lines line.now told.new result }
    ensures noted { OnOk result (digests.new.items ≡ digests.old.items ++ digests_of (line.now ∷ [])) }
{
    if !is_kept(line) {
        return Ok(true);
    }
    take_kept(alloc, told, digests, line)
}

/// Takes a line that says something or is bad.
#[inline(never)]
fn take_kept(
    alloc: Global,
    told: &mut Told,
    digests: &mut Vec<u64>,
    line: &str,
) -> Result<bool, AllocError>
    requires { is_kept line.now ≡ true }
    ensures taken { (lines : List (List ℕ)) → IsTold (said_by lines) told.old → TakesLine lines line.now told.new result }
    ensures noted { OnOk result (digests.new.items ≡ digests.old.items ++ digests_of (line.now ∷ [])) }
{
    let Some((name, value)) = prop_of(line) else {
        return take_other(alloc, told, line);
    };
    told.add_prop(alloc, name, value)?;
    add_digest(digests, name)?;
    Ok(true)
}

/// Takes a line that says no property.
#[inline(never)]
fn take_other(alloc: Global, told: &mut Told, line: &str) -> Result<bool, AllocError>
    requires kept { is_kept line.now ≡ true }
    requires other { SaysNoProp line.now }
    ensures { (lines : List (List ℕ)) → IsTold (said_by lines) told.old → TakesLine lines line.now told.new result }
{
    let Some(said) = said_of(alloc, line)? else {
        return Ok(false);
    };
    if told.is_too_much(&said) {
        return Ok(false);
    }
    told.add(alloc, said)?;
    Ok(true)
}
