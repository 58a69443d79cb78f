ghost use Rattle.std.specs.Prelude.{◌≡◌, ◌++◌, codes, reverse};
ghost use Rattle.std.specs.Option.{option_map};
ghost use Rattle.std.specs.Char.{is_ascii_whitespace};
ghost use Rattle.jperm.specs.Actions.{bit, word, has_all, trimmed, behind_blanks, named, actions_of};

use crate::pieces::first_piece;
use crate::set::Actions;
use crate::words;
use bitflags::Flags;
use jground::jtext::same_ignoring_case;

const COMMA: u16 = b',' as u16;

/// An action on a property or a file.
#[rattlefmt::skip]
#[derive(Clone, Copy, Debug, PartialEq, Eq)]
pub enum Action { Read, Write, Execute, Delete, Readlink }

/// The actions on a property, in canonical order.
pub const PROPERTY_ACTIONS: [Action; 2] = [Action::Read, Action::Write];

/// The actions on a file, in canonical order.
pub const FILE_ACTIONS: [Action; 5] = [
    Action::Read,
    Action::Write,
    Action::Execute,
    Action::Delete,
    Action::Readlink,
];

impl Action {
    /// The set of the action alone: the bit that stands for it.
    pub fn bit(self) -> Actions
        ensures { result.0 ≡ bit self }
    {
        match self {
            Action::Read => Actions::READ,
            Action::Write => Actions::WRITE,
            Action::Execute => Actions::EXECUTE,
            Action::Delete => Actions::DELETE,
            Action::Readlink => Actions::READLINK,
        }
    }

    /// The word that names the action, as bytes.
    fn name(self) -> &'static [u8]
        ensures { result.now ≡ word self }
    {
        match self {
            Action::Read => b"read",
            Action::Write => b"write",
            Action::Execute => b"execute",
            Action::Delete => b"delete",
            Action::Readlink => b"readlink",
        }
    }

    /// The word that names the action.
    pub fn word(self) -> &'static [u16]
        ensures { result.now ≡ word self }
    {
        &self.word_behind_comma()[1..]
    }

    /// The word that names the action, behind a comma.
    pub fn word_behind_comma(self) -> &'static [u16]
        ensures { result.now ≡ codes "," ++ word self }
    {
        match self {
            Action::Read => &words::COMMA_READ,
            Action::Write => &words::COMMA_WRITE,
            Action::Execute => &words::COMMA_EXECUTE,
            Action::Delete => &words::COMMA_DELETE,
            Action::Readlink => &words::COMMA_READLINK,
        }
    }
}

/// Whether a set of actions has all of another one.
pub fn has_all(actions: Actions, asked: Actions) -> bool
    ensures { result ≡ has_all actions.0 asked.0 }
{
    actions.contains(asked)
}

/// The set of the actions that a text names, split at commas, where each piece names an action of the kind.
pub fn actions_of(kind: &[Action], text: &[u16]) -> Option<Actions>
    ensures { option_map (λ set. set.0) result ≡ actions_of kind.now text.now }
{
    let mut actions = Actions::empty();
    let mut left = Some(text);
    while let Some(rest) = left {
        let (piece, behind) = first_piece(rest, COMMA);
        actions.insert(named(kind, trimmed(piece))?.bit());
        left = behind;
    }
    Some(actions)
}

/// The action of a kind that a word names, where ASCII letter case doesn't count.
fn named(kind: &[Action], text: &[u16]) -> Option<Action>
    ensures { result ≡ named kind.now text.now }
{
    kind.iter()
        .copied()
        .find(|action| same_ignoring_case(text, action.name()))
}

/// A text without the blanks round it.
fn trimmed(text: &[u16]) -> &[u16]
    ensures { result.now ≡ trimmed text.now }
{
    before_blanks(behind_blanks(text))
}

/// What a text has behind its blanks at the front.
#[tactic(auto, using(crate::proofs::Blanks::front))]
fn behind_blanks(mut text: &[u16]) -> &[u16]
    ensures { result.now ≡ behind_blanks text.entry.now }
{
    while let Some((first, rest)) = text.split_first() {
        if !is_blank(*first) {
            return text;
        }
        text = rest;
    }
    text
}

/// What a text has before its blanks at the end.
#[tactic(auto, using(crate::proofs::Blanks::end))]
fn before_blanks(mut text: &[u16]) -> &[u16]
    ensures { result.now ≡ reverse (behind_blanks (reverse text.entry.now)) }
{
    while let Some((last, rest)) = text.split_last() {
        if !is_blank(*last) {
            return text;
        }
        text = rest;
    }
    text
}

/// Whether a unit is a space, a tab, a line feed, a form feed or a carriage return.
fn is_blank(unit: u16) -> bool
    ensures { result ≡ is_ascii_whitespace unit }
{
    matches!(unit, 9 | 10 | 12 | 13 | 32)
}
