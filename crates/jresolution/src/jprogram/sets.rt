ghost use Rattle.std.specs.Prelude.{◌≡◌, ◌≤◌, ℕ, OnOk, length};
ghost use Rattle.jresolution.specs.jprogram.BitSets;

use jground::jbase::Seq;
use std::alloc::AllocError;

/// Whether a number is in a set.
#[tactic(auto, using(crate::proofs::JprogramProofs::BitLaws::has_some, crate::proofs::JprogramProofs::BitLaws::has_none))]
pub fn has(words: &[u64], number: usize) -> bool
    ensures { result ≡ BitSets.has words.now number }
{
    match words.get(number / 64) {
        Some(word) => (*word >> (number % 64)) & 1 == 1,
        None => false,
    }
}

/// Gives a set so many words at least.
fn grow(words: &mut Seq<u64>, count: usize) -> Result<(), AllocError>
    ensures long { OnOk result (count ≤ length words.new) }
    ensures same { OnOk result ((i : ℕ) → BitSets.word_at words.new i ≡ BitSets.word_at words.old i) }
{
    while words.as_slice().len() < count {
        words.push(0)?;
    }
    Ok(())
}

/// Puts a number into a set.
pub fn put(words: &mut Seq<u64>, number: usize) -> Result<(), AllocError>
    ensures { OnOk result (BitSets.Puts number words.old words.new) }
{
    let place = number / 64;
    grow(words, place + 1)?;
    let word = words.as_slice()[place] | (1u64 << (number % 64));
    words.set(place, word);
    Ok(())
}

/// Puts all numbers of another set into a set.
pub fn join(words: &mut Seq<u64>, other: &[u64]) -> Result<(), AllocError>
    ensures { OnOk result (BitSets.Joins other.now words.old words.new) }
{
    grow(words, other.len())?;
    for (i, more) in other.iter().enumerate() {
        let word = words.as_slice()[i] | *more;
        words.set(i, word);
    }
    Ok(())
}
