ghost use Rattle.std.specs.Prelude.{◌≡◌, [], ◌++◌, ◌==◌, not, false, if◌then◌else◌, codes, length, IfOk, slice_index_or};
ghost use Rattle.std.specs.List.{list_any};
ghost use Rattle.std.specs.Option.{option_copied, is_some};
ghost use Rattle.jperm.specs.Actions.{bit, word, has_all, file_actions};
ghost use Rattle.jperm.specs.PermissionTexts.{class_name, name_of, actions_text, text_of, action_parts, word_parts, between, parts};

use crate::action::{Action, FILE_ACTIONS, has_all};
use crate::making::PermClass;
use crate::permission::{BasicClass, Permission};
use crate::set::Actions;
use crate::words;
use jground::jtext::Units;
use std::alloc::{AllocError, Global};

/// The number of parts of a permission's text.
pub const PARTS: usize = 11;

impl Permission {
    /// The name of the permission's class.
    pub fn class_name(&self) -> &[u16]
        ensures { result.now ≡ class_name self.now }
    {
        match self {
            Permission::All => PermClass::All.name(),
            Permission::Basic {
                class: BasicClass::Runtime,
                ..
            } => PermClass::Runtime.name(),
            Permission::Basic {
                class: BasicClass::Security,
                ..
            } => PermClass::Security.name(),
            Permission::Property { .. } => PermClass::Property.name(),
            Permission::File { .. } => PermClass::File.name(),
            Permission::Unresolved { class } => class.as_slice(),
        }
    }

    /// The permission's name, as it was written. An unresolved permission has none.
    pub fn name(&self) -> Option<&[u16]>
        ensures { option_copied result ≡ name_of self.now }
    {
        match self {
            Permission::All => Some(&words::ALL_PERMISSIONS),
            Permission::Basic { name, .. } => Some(name.as_slice()),
            Permission::Property { name, .. } => Some(name.as_slice()),
            Permission::File { name, .. } => Some(name.as_slice()),
            Permission::Unresolved { .. } => None,
        }
    }

    /// Whether the permission has a name.
    fn has_name(&self) -> bool
        ensures { result ≡ is_some (name_of self.now) }
    {
        match self {
            Permission::Unresolved { .. } => false,
            _ => true,
        }
    }

    /// Whether the permission has actions to write.
    #[tactic(auto, using(crate::proofs::TextParts::words))]
    fn has_actions(&self) -> bool
        ensures { result ≡ not (length (actions_text self.now) == 0) }
    {
        match self {
            Permission::All => true,
            Permission::Property { actions, .. } => has_any(actions.set()),
            Permission::File { actions, .. } => has_any(actions.set()),
            _ => false,
        }
    }

    /// The part at a place of the permission's actions.
    fn action_part(&self, at: usize) -> &[u16]
        ensures { result.now ≡ slice_index_or (action_parts self.now) at [] }
    {
        match self {
            Permission::All => if at == 0 { &words::ALL_ACTIONS } else { &[] },
            Permission::Property { actions, .. } => set_part(actions.set(), at),
            Permission::File { actions, .. } => set_part(actions.set(), at),
            _ => &[],
        }
    }

    /// The part at a place of the permission's text in `PARTS` parts, and nothing behind them. The parts one behind the other
    /// are the text, so that it can be written without memory.
    pub fn part(&self, at: usize) -> &[u16]
        ensures { result.now ≡ slice_index_or (parts self.now) at [] }
    {
        match at {
            0 => &words::OPEN,
            1 => self.class_name(),
            2 => between(self.has_name()),
            3 => self.name().unwrap_or(&[]),
            4 => between(self.has_actions()),
            5 => self.action_part(0),
            6 => self.action_part(1),
            7 => self.action_part(2),
            8 => self.action_part(3),
            9 => self.action_part(4),
            10 => &words::CLOSE,
            _ => &[],
        }
    }

    /// The permission's text: its class, its name and its actions, each where it has one, in quotes.
    #[tactic(auto, using(crate::proofs::TextParts::going))]
    pub fn text(&self, alloc: Global) -> Result<Units, AllocError>
        ensures { IfOk result (λ t. t ≡ text_of self.now) }
    {
        let mut text = Vec::new(alloc);
        for at in 0..PARTS {
            text.extend_from_slice(self.part(at))?;
        }
        Ok(Units::from_vec(text))
    }
}

/// The part at a place of the words of a set of actions.
fn set_part(actions: Actions, at: usize) -> &'static [u16]
    ensures { result.now ≡ slice_index_or (word_parts (λ action. has_all actions.0 (bit action)) false file_actions) at [] }
{
    let read = has_all(actions, Action::Read.bit());
    let write = has_all(actions, Action::Write.bit());
    let execute = has_all(actions, Action::Execute.bit());
    let delete = has_all(actions, Action::Delete.bit());
    match at {
        0 => word_part(Action::Read, actions, false),
        1 => word_part(Action::Write, actions, read),
        2 => word_part(Action::Execute, actions, read | write),
        3 => word_part(Action::Delete, actions, read | write | execute),
        4 => word_part(Action::Readlink, actions, read | write | execute | delete),
        _ => &[],
    }
}

/// The word of an action where the action is in a set, behind a comma where an earlier one is; else nothing.
fn word_part(action: Action, actions: Actions, behind: bool) -> &'static [u16]
    ensures { result.now ≡ (if has_all actions.0 (bit action) then (if behind then codes "," ++ word action else word action) else []) }
{
    if !has_all(actions, action.bit()) {
        &[]
    } else if behind {
        action.word_behind_comma()
    } else {
        action.word()
    }
}

/// Whether an action is in a set.
fn has_any(actions: Actions) -> bool
    ensures { result ≡ list_any (λ action. has_all actions.0 (bit action)) file_actions }
{
    FILE_ACTIONS
        .iter()
        .any(|action| has_all(actions, action.bit()))
}

/// What ends one quoted text and begins the next, where there is a next.
fn between(more: bool) -> &'static [u16]
    ensures { result.now ≡ between more }
{
    if more { &words::BETWEEN } else { &[] }
}
