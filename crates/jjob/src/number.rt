ghost use Rattle.std.specs.Prelude.{◌≡◌, [], ◌∷◌, length, ◌<◌, ◌≤◌, ◌==◌, IfNone, IfOk, IfSome, Some, None};
ghost use Rattle.std.specs.List.{slice_split};
ghost use Rattle.jground.specs.jbase.ListMaps.{each_some};
ghost use Rattle.jjob.specs.JobNumbers.{number_up_to};

use jground::jbase::Seq;
use std::alloc::{AllocError, Global};

/// The number that 1 to 20 decimal digits write, if it is at most `most`.
pub fn number_up_to(most: u64, digits: &str) -> Option<u64>
    ensures small { IfSome result (λ n. n ≤ most) }
    ensures value { result ≡ number_up_to most digits.now }
{
    if 20 < digits.len() {
        return None;
    }
    if digits.starts_with('+') {
        return None;
    }
    match digits.parse::<u64>() {
        Ok(number) => up_to(most, number),
        Err(_) => None,
    }
}

/// A number, if it is at most `most`.
fn up_to(most: u64, number: u64) -> Option<u64>
    ensures value { number ≤ most → result ≡ Some number }
    ensures none { most < number → result ≡ None }
    ensures small { IfSome result (λ n. n ≤ most) }
{
    if most < number {
        return None;
    }
    Some(number)
}

/// The same, where the number is a `u32`.
pub fn small_up_to(most: u32, digits: &str) -> Option<u32>
    ensures { result ≡ number_up_to most digits.now }
{
    match number_up_to(u64::from(most), digits) {
        Some(number) => Some(number as u32),
        None => None,
    }
}

/// The first part of a text, and what stands behind the space that ends it.
fn first_part(text: &str) -> Option<(&str, &str)>
    ensures none { IfNone result (slice_split (λ b. b == 32) text.now ≡ text.now ∷ []) }
    ensures some { IfSome result (λ x. slice_split (λ b. b == 32) text.now ≡ x.0.now ∷ slice_split (λ b. b == 32) x.1.now) }
    ensures shorter { IfSome result (λ x. length x.1.now < length text.now) }
{
    match text.split_once(' ') {
        Some((first, more)) => Some((first, more)),
        None => None,
    }
}

/// Numbers that one space parts, where each is at most `most`.
pub fn numbers_up_to(alloc: Global, most: u32, text: &str) -> Result<Option<Seq<u32>>, AllocError>
    ensures { IfOk result (λ ns. ns ≡ each_some (number_up_to most) (slice_split (λ b. b == 32) text.now)) }
{
    let mut numbers = Seq::new(alloc);
    let mut rest = text;
    while let Some((first, more)) = first_part(rest) {
        let Some(number) = small_up_to(most, first) else {
            return Ok(None);
        };
        numbers.push(number)?;
        rest = more;
    }
    let Some(number) = small_up_to(most, rest) else {
        return Ok(None);
    };
    numbers.push(number)?;
    Ok(Some(numbers))
}
