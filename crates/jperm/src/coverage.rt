ghost use Rattle.std.specs.Prelude.{◌≡◌, ◌&&◌, ◌||◌, false};
ghost use Rattle.jperm.specs.PermissionChains.{enough, noted, noted_at, suffices};
ghost use Rattle.jperm.specs.Permissions.{implies, stands_alone};

use crate::action::has_all;
use crate::permission::Permission;
use crate::set::Actions;
use bitflags::Flags;
use std::marker::Model;

/// What entries of a list say of an asked permission. Contracts see whether one that has no actions implies it, and the actions that
/// they give on it together.
#[derive(Drop)]
pub struct Coverage {
    alone: bool,
    actions: Actions,
}

impl Model for Coverage {
    ghost use Rattle.std.specs.Prelude.{ℕ, Bool};

    ghost Value = { Bool × ℕ };

    ghost view = { λ f. (f.alone, f.actions.0) };
}

impl Coverage {
    /// What no entry says.
    pub fn none() -> Coverage
        ensures { result ≡ (false, 0) }
    {
        Coverage {
            alone: false,
            actions: Actions::empty(),
        }
    }

    /// Takes in what one more entry says.
    fn note(&mut self, member: &Permission, asked: &Permission)
        ensures { self.new ≡ noted asked.now self.old member.now }
    {
        self.alone = is_implied(self.alone, member, asked);
        self.actions.insert(member.gives(asked));
    }

    /// Takes in what the entry at a place of a list says, if there is one.
    pub fn note_at(&mut self, list: &[Permission], place: usize, asked: &Permission)
        ensures { self.new ≡ noted_at asked.now list.now self.old place }
    {
        match list.get(place) {
            Some(member) => self.note(member, asked),
            None => {}
        }
    }

    /// Whether what was found covers the asked permission.
    pub fn suffices(&self, asked: &Permission) -> bool
        ensures { result ≡ suffices self.now asked.now }
    {
        self.alone || enough(self.actions, asked)
    }
}

/// Whether it was implied before, or an entry that has no actions implies it.
fn is_implied(before: bool, member: &Permission, asked: &Permission) -> bool
    ensures { result ≡ (before || (stands_alone member.now && implies member.now asked.now)) }
{
    before || (member.stands_alone() && member.implies(asked))
}

/// Whether actions are all that are asked for.
fn enough(actions: Actions, asked: &Permission) -> bool
    ensures { result ≡ enough actions.0 asked.now }
{
    match asked {
        Permission::Property { actions: all, .. } => has_all(actions, all.set()),
        Permission::File { actions: all, .. } => has_all(actions, all.set()),
        _ => false,
    }
}
