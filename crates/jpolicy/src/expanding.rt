ghost use Rattle.std.specs.Prelude.{◌≡◌, ◌<◌, IfOk, IfSome, MatchOption, None, Some, length, position};
ghost use Rattle.jground.specs.jbase.MemoryFailures.{Gives};
ghost use Rattle.jpolicy.specs.Expansion.{expanded, expands_itself, look_up, named_up_to, one_piece, piece_at, value_of};
ghost use Rattle.jpolicy.specs.ProofNames.{closes};
ghost use Rattle.jpolicy.specs.ListWalks.{none_left};

use crate::walk::{Walk, walk_of};
use jground::jbase::{FaultOrMemory, Seq};
use jground::jtext::Units;
use std::alloc::{AllocError, Global};

/// The value of the first property of a name.
#[tactic(auto, unfolding(crate::specs::Expansion::look_up))]
fn look_up<'a>(properties: &'a [(Units, Units)], name: &[u16]) -> Option<&'a [u16]>
    ensures { MatchOption result (look_up properties.now name.now ≡ None) (λ value. look_up properties.now name.now ≡ Some value.now) }
{
    for property in properties {
        if property.0.as_slice() == name {
            return Some(property.1.as_slice());
        }
    }
    None
}

const SLASH: [u16; 1] = [b'/' as u16];

fn value_of<'a>(properties: &'a [(Units, Units)], name: &'a [u16]) -> Option<&'a [u16]>
    ensures { MatchOption result (value_of properties.now name.now ≡ None) (λ value. value_of properties.now name.now ≡ Some value.now) }
{
    if name == SLASH.as_slice() {
        return Some(name);
    }
    if name.is_empty() {
        return None;
    }
    look_up(properties, name)
}

/// The place of the first unit that closes a name.
fn closing(text: &[u16]) -> Option<usize>
    ensures place { result ≡ position closes text.now }
    ensures within { IfSome result (λ end. end < length text.now) }
{
    text.iter().position(|u| *u == b'}' as u16)
}

fn named_of<'p, 'a: 'p>(
    properties: &'p [(Units, Units)],
    written: &'a [u16],
    text: &'a [u16],
) -> Result<(&'p [u16], &'a [u16]), FaultOrMemory<()>>
    ensures { Gives (λ x. (x.0.now, x.1.now)) result (named_up_to properties.now written.now text.now (position closes text.now)) }
{
    match closing(text) {
        None => Ok((written, &[])),
        Some(end) => {
            let (name, _) = text.split_at(end);
            let (_, behind) = text.split_at(end + 1);
            match value_of(properties, name) {
                Some(value) => Ok((value, behind)),
                None => Err(FaultOrMemory::Fault(())),
            }
        }
    }
}

/// What is put for the front of a text, and the rest of it.
#[tactic(auto, unfolding(crate::specs::Expansion::piece_at))]
fn piece_of<'p, 'a: 'p>(
    properties: &'p [(Units, Units)],
    text: &'a [u16],
) -> Result<(&'p [u16], &'a [u16]), FaultOrMemory<()>>
    ensures { Gives (λ x. (x.0.now, x.1.now)) result (piece_at properties.now text.now) }
{
    match text {
        [u, v, rest @ ..] => {
            if *u == b'$' as u16 && *v == b'{' as u16 {
                return named_of(properties, text, rest);
            }
            Ok(text.split_at(1))
        }
        _ => Ok((text, &[])),
    }
}

#[derive(Drop)]
struct Expander<'p> {
    properties: &'p [(Units, Units)],
}

impl<'p> Walk for Expander<'p> {
    type Item = u16;

    type State = Seq<u16>;

    type Fault = ();

    ghost ends = { λ _. none_left };

    ghost goes = { λ e. one_piece e.properties.now };

    fn is_over(&self, text: &[u16]) -> bool {
        text.is_empty()
    }

    fn step<'a>(
        &self,
        _alloc: Global,
        done: Seq<u16>,
        text: &'a [u16],
    ) -> Result<(Seq<u16>, &'a [u16]), FaultOrMemory<()>> {
        one_piece(self.properties, done, text)
    }
}

fn one_piece<'a>(
    properties: &[(Units, Units)],
    done: Seq<u16>,
    text: &'a [u16],
) -> Result<(Seq<u16>, &'a [u16]), FaultOrMemory<()>>
    ensures { Gives (λ x. (x.0, x.1.now)) result (one_piece properties.now done text.now) }
{
    let mut done = done;
    let (piece, rest) = piece_of(properties, text)?;
    done.extend(piece)?;
    Ok((done, rest))
}

/// The text with each `${name}` replaced by the value of the property of that name, and each `${/}` by `/`, or none where a property is
/// missing. Values are not expanded again; `${` without a later `}` stands as written.
#[tactic(auto, unfolding(crate::specs::Expansion::expanded))]
pub fn expanded(
    alloc: Global,
    properties: &[(Units, Units)],
    text: &[u16],
) -> Result<Option<Units>, AllocError>
    ensures { IfOk result (λ u. u ≡ expanded properties.now text.now) }
{
    match walk_of(alloc, &Expander { properties }, Seq::new(alloc), text) {
        Ok((units, _)) => Ok(Some(Units::from_vec(units.into_vec()))),
        Err(FaultOrMemory::Memory) => Err(AllocError),
        Err(FaultOrMemory::Fault(())) => Ok(None),
    }
}

const SELF: [u16; 3] = [b'$' as u16, b'{' as u16, b'{' as u16];

/// Whether `${{` stands in a text.
#[tactic(auto, unfolding(crate::specs::Expansion::expands_itself))]
pub fn expands_itself(text: &[u16]) -> bool
    ensures { result ≡ expands_itself text.now }
{
    let mut rest = text;
    while let [_, after @ ..] = rest {
        if rest.starts_with(SELF.as_slice()) {
            return true;
        }
        rest = after;
    }
    false
}
