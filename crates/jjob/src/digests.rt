ghost use Rattle.std.specs.Prelude.{◌≡◌, [], ◌∷◌, ◌++◌, OnOk, true};
ghost use Rattle.jjob.specs.JobNames.{NoneTwice, digest, neighbours_differ};

use std::alloc::AllocError;

/// Adds the digest of a name to the others.
#[inline(always)]
pub fn add_digest(digests: &mut Vec<u64>, name: &str) -> Result<(), AllocError>
    ensures { OnOk result (digests.new.items ≡ digests.old.items ++ digest name.now ∷ []) }
{
    digests.push(digest(name.as_bytes()))?;
    Ok(())
}

/// A number by which most names are told apart.
#[tactic(auto, unfolding(crate::specs::JobNames::digest_from))]
pub fn digest(name: &[u8]) -> u64
    ensures { result ≡ digest name.now }
{
    let mut sum: u64 = 0;
    for b in name {
        sum = sum.wrapping_mul(257).wrapping_add(u64::from(*b));
    }
    sum
}

/// Whether no two of the numbers are equal: in order, equal ones would be neighbours.
pub fn are_apart(mut numbers: Vec<u64>) -> bool
    ensures { result ≡ true → NoneTwice numbers.items }
{
    numbers.sort_unstable();
    neighbours_differ(numbers.as_slice())
}

/// Whether no number is equal to the one behind it.
#[tactic(auto, using(crate::proofs::JobDigests::differ_none, crate::proofs::JobDigests::differ_begins), unfolding(crate::specs::JobNames::differ_from),)]
fn neighbours_differ(numbers: &[u64]) -> bool
    ensures { result ≡ neighbours_differ numbers.now }
{
    let Some((first, more)) = numbers.split_first() else {
        return true;
    };
    let mut last = first;
    for next in more {
        if *last == *next {
            return false;
        }
        last = next;
    }
    true
}
