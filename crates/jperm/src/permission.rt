ghost use Rattle.std.specs.Prelude.{◌≡◌, ◌↔◌, IfOk, IsTrue};
ghost use Rattle.jperm.specs.Permissions.{implies, covers, equal, united, gives, stands_alone, one_implies, together, same_class};

use crate::action::has_all;
use crate::name::name_covers;
use crate::path::{FilePath, same_text};
use crate::set::{Actions, FileActions, PropertyActions};
use bitflags::Flags;
use jground::jtext::Units;
use std::alloc::{AllocError, Global};

/// The class of a permission that has a name and no actions.
#[derive(Clone, Copy, Debug, PartialEq, Eq)]
pub enum BasicClass {
    /// `java.lang.RuntimePermission`.
    Runtime,
    /// `java.security.SecurityPermission`.
    Security,
}

/// A permission.
#[rattlefmt::skip]
#[derive(Debug, Drop)]
pub enum Permission {
    /// `java.security.AllPermission`.
    All,
    /// A permission that has a name and no actions.
    Basic { class: BasicClass, name: Units },
    /// `java.util.PropertyPermission`.
    Property { name: Units, actions: PropertyActions },
    /// `java.io.FilePermission`. The name is as it was written, and the path is what it names.
    File { path: FilePath, name: Units, actions: FileActions },
    /// A permission of a policy that no class or constructor makes.
    Unresolved { class: Units },
}

impl Permission {
    /// Whether this permission by itself implies the asked one.
    pub fn implies(&self, asked: &Permission) -> bool
        ensures { result ≡ implies self.now asked.now }
    {
        match (self, asked) {
            (Permission::All, _) => true,
            (
                Permission::Basic { class, name },
                Permission::Basic {
                    class: other,
                    name: wanted,
                },
            ) => { same_class(*class, *other) && name_covers(name.as_slice(), wanted.as_slice()) }
            (
                Permission::Property { name, actions },
                Permission::Property {
                    name: wanted,
                    actions: all,
                },
            ) => {
                name_covers(name.as_slice(), wanted.as_slice()) && has_all(actions.set(), all.set())
            }
            (
                Permission::File { path, actions, .. },
                Permission::File {
                    path: wanted,
                    actions: all,
                    ..
                },
            ) => { path.covers(wanted) && has_all(actions.set(), all.set()) }
            _ => false,
        }
    }

    /// Whether the two permissions are equal.
    pub fn equal(&self, other: &Permission) -> bool
        ensures value { result ≡ equal self.now other.now }
        ensures same { IsTrue result ↔ (self.now ≡ other.now) }
    {
        match (self, other) {
            (Permission::All, Permission::All) => true,
            (
                Permission::Basic { class, name },
                Permission::Basic {
                    class: other,
                    name: wanted,
                },
            ) => { same_class(*class, *other) && same_text(name, wanted) }
            (
                Permission::Property { name, actions },
                Permission::Property {
                    name: wanted,
                    actions: all,
                },
            ) => { same_text(name, wanted) && actions.set() == all.set() }
            (
                Permission::File {
                    path,
                    name,
                    actions,
                },
                Permission::File {
                    path: wanted,
                    name: other,
                    actions: all,
                },
            ) => { path.equal(wanted) && same_text(name, other) && actions.set() == all.set() }
            (Permission::Unresolved { class }, Permission::Unresolved { class: other }) => {
                same_text(class, other)
            }
            _ => false,
        }
    }

    /// The same permission again.
    pub fn copy(&self, alloc: Global) -> Result<Permission, AllocError>
        ensures { IfOk result (λ p. p ≡ self.now) }
    {
        match self {
            Permission::All => Ok(Permission::All),
            Permission::Basic { class, name } => Ok(Permission::Basic {
                class: *class,
                name: name.copy(alloc)?,
            }),
            Permission::Property { name, actions } => Ok(Permission::Property {
                name: name.copy(alloc)?,
                actions: actions.copy(),
            }),
            Permission::File {
                path,
                name,
                actions,
            } => Ok(Permission::File {
                path: path.copy()?,
                name: name.copy(alloc)?,
                actions: actions.copy(),
            }),
            Permission::Unresolved { class } => Ok(Permission::Unresolved {
                class: class.copy(alloc)?,
            }),
        }
    }

    /// The actions that this permission gives on the asked one.
    pub(crate) fn gives(&self, asked: &Permission) -> Actions
        ensures { result.0 ≡ gives self.now asked.now }
    {
        match (self, asked) {
            (Permission::Property { name, actions }, Permission::Property { name: wanted, .. }) => {
                if name_covers(name.as_slice(), wanted.as_slice()) {
                    actions.set()
                } else {
                    Actions::empty()
                }
            }
            (Permission::File { path, actions, .. }, Permission::File { path: wanted, .. }) => {
                if path.covers(wanted) {
                    actions.set()
                } else {
                    Actions::empty()
                }
            }
            _ => Actions::empty(),
        }
    }

    /// Whether the permission is of a kind that has no actions.
    pub(crate) fn stands_alone(&self) -> bool
        ensures { result ≡ stands_alone self.now }
    {
        match self {
            Permission::Property { .. } | Permission::File { .. } => false,
            _ => true,
        }
    }
}

/// Whether the two classes are the same.
fn same_class(class: BasicClass, other: BasicClass) -> bool
    ensures { result ≡ same_class class other }
{
    match (class, other) {
        (BasicClass::Runtime, BasicClass::Runtime) => true,
        (BasicClass::Security, BasicClass::Security) => true,
        _ => false,
    }
}

/// The actions that the members of a list give together on the asked permission.
fn united(list: &[Permission], asked: &Permission) -> Actions
    ensures { result.0 ≡ united list.now asked.now }
{
    let mut all = Actions::empty();
    for member in list {
        all.insert(member.gives(asked));
    }
    all
}

/// Whether a member of a kind that has no actions implies the asked permission.
fn one_implies(list: &[Permission], asked: &Permission) -> bool
    ensures { result ≡ one_implies list.now asked.now }
{
    list.iter()
        .any(|member| member.stands_alone() && member.implies(asked))
}

/// Whether the members of a list together have the actions of the asked permission.
fn together(list: &[Permission], asked: &Permission) -> bool
    ensures { result ≡ together list.now asked.now }
{
    match asked {
        Permission::Property { actions, .. } => has_all(united(list, asked), actions.set()),
        Permission::File { actions, .. } => has_all(united(list, asked), actions.set()),
        _ => false,
    }
}

/// Whether a list of permissions covers the asked one: a member that has no actions implies it, or the members of its kind
/// whose names cover it have its actions together.
pub fn covers(list: &[Permission], asked: &Permission) -> bool
    ensures { result ≡ covers list.now asked.now }
{
    one_implies(list, asked) || together(list, asked)
}
