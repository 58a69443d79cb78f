ghost use Rattle.std.specs.Prelude.{◌≡◌, ◌++◌};
ghost use Rattle.std.specs.Char.Escape.{encode_utf16};
ghost use Rattle.jground.specs.jbase.MemoryFailures.{Gives};
ghost use Rattle.jpolicy.specs.Strings.{at_quote, behind_quote, character_at, escape_at, meant, one_more, string_at};

use crate::character::{ends_line, is_octal};
use crate::walk::{Walk, walk_of};
use jground::jbase::{FaultOrMemory, Seq};
use jground::jtext::Units;
use std::alloc::Global;

fn meant(c: char) -> char
    ensures { result ≡ meant c }
{
    match c {
        'n' => '\n',
        'r' => '\r',
        't' => '\t',
        other => other,
    }
}

fn escape_of(text: &[char]) -> Result<(char, &[char]), FaultOrMemory<()>>
    ensures { Gives (λ x. (x.0, x.1.now)) result (escape_at text.now) }
{
    match text {
        [] => Err(FaultOrMemory::Fault(())),
        [c, rest @ ..] => {
            if ends_line(*c) || is_octal(*c) {
                return Err(FaultOrMemory::Fault(()));
            }
            Ok((meant(*c), rest))
        }
    }
}

/// The character that stands at the front of a string's text, and what is behind it.
#[tactic(auto, unfolding(crate::specs::Strings::character_at))]
fn character_of(text: &[char]) -> Result<(char, &[char]), FaultOrMemory<()>>
    ensures { Gives (λ x. (x.0, x.1.now)) result (character_at text.now) }
{
    match text {
        [] => Err(FaultOrMemory::Fault(())),
        [c, rest @ ..] => {
            if ends_line(*c) {
                return Err(FaultOrMemory::Fault(()));
            }
            if *c == '\\' {
                return escape_of(rest);
            }
            Ok((*c, rest))
        }
    }
}

struct StringWalk;

impl Walk for StringWalk {
    type Item = char;

    type State = Seq<u16>;

    type Fault = ();

    ghost ends = { λ _. at_quote };

    ghost goes = { λ _. one_more };

    fn is_over(&self, text: &[char]) -> bool {
        at_quote(text)
    }

    fn step<'a>(
        &self,
        _alloc: Global,
        units: Seq<u16>,
        text: &'a [char],
    ) -> Result<(Seq<u16>, &'a [char]), FaultOrMemory<()>> {
        one_more(units, text)
    }
}

fn at_quote(text: &[char]) -> bool
    ensures { result ≡ at_quote text.now }
{
    match text {
        [] => false,
        [c, ..] => *c == '"',
    }
}

fn one_more(units: Seq<u16>, text: &[char]) -> Result<(Seq<u16>, &[char]), FaultOrMemory<()>>
    ensures { Gives (λ x. (x.0, x.1.now)) result (one_more units text.now) }
{
    let mut units = units;
    let (c, rest) = character_of(text)?;
    let mut pair = [0, 0];
    units.extend(c.encode_utf16(&mut pair))?;
    Ok((units, rest))
}

fn behind_quote(text: &[char]) -> Result<&[char], FaultOrMemory<()>>
    ensures { Gives (λ x. (tt, x.now)) result (behind_quote text.now) }
{
    match text {
        [] => Err(FaultOrMemory::Fault(())),
        [c, rest @ ..] => {
            if *c == '"' {
                return Ok(rest);
            }
            Err(FaultOrMemory::Fault(()))
        }
    }
}

/// The text of a string up to the quote that ends it, in UTF-16 units, and the characters behind that quote. A fault says that the line or
/// the text ends before, or that there is an octal escape.
#[tactic(auto, unfolding(crate::specs::Strings::string_at))]
pub fn string_of(alloc: Global, text: &[char]) -> Result<(Units, &[char]), FaultOrMemory<()>>
    ensures { Gives (λ x. (x.0, x.1.now)) result (string_at text.now) }
{
    let (units, rest) = walk_of(alloc, &StringWalk, Seq::new(alloc), text)?;
    let rest = behind_quote(rest)?;
    Ok((Units::from_vec(units.into_vec()), rest))
}
