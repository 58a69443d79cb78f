ghost use Rattle.std.specs.Prelude.{◌≡◌, MatchResult};
ghost use Rattle.std.specs.Option.{option_copied};
ghost use Rattle.jperm.specs.declared.making.PermError.TheVariants.{Memory};
ghost use Rattle.jperm.specs.PermissionConstructors.{made, made_property, made_file, filled, wanted, IsMade};
ghost use Rattle.jperm.specs.ProofNames.{made_basic};
ghost use Rattle.jperm.specs.PermissionTexts.{text_of_class, class_named};

use crate::action::{Action, FILE_ACTIONS, PROPERTY_ACTIONS, actions_of};
use crate::permission::{BasicClass, Permission};
use crate::set::{Actions, FileActions, PropertyActions};
use crate::words;
use crate::written::path_of;
use jground::jtext::Units;
use std::alloc::{AllocError, Global};

/// A class whose constructor makes a permission.
#[derive(Clone, Copy, Debug, PartialEq, Eq)]
pub enum PermClass {
    /// `java.security.AllPermission`.
    All,
    /// `java.lang.RuntimePermission`.
    Runtime,
    /// `java.security.SecurityPermission`.
    Security,
    /// `java.util.PropertyPermission`.
    Property,
    /// `java.io.FilePermission`.
    File,
}

impl PermClass {
    /// The name of the class.
    pub fn name(self) -> &'static [u16]
        ensures { result.now ≡ text_of_class self }
    {
        match self {
            PermClass::All => &words::ALL_PERMISSION,
            PermClass::Runtime => &words::RUNTIME_PERMISSION,
            PermClass::Security => &words::SECURITY_PERMISSION,
            PermClass::Property => &words::PROPERTY_PERMISSION,
            PermClass::File => &words::FILE_PERMISSION,
        }
    }

    /// The class that has a name, if one has it.
    pub fn named(name: &[u16]) -> Option<PermClass>
        ensures { result ≡ class_named name.now }
    {
        CLASSES.iter().copied().find(|class| name == class.name())
    }
}

/// Why a name and actions make no permission.
#[derive(Clone, Copy, Debug, PartialEq, Eq)]
pub enum PermError {
    /// There is no name.
    NoName,
    /// The name is empty.
    EmptyName,
    /// There are no actions, or they don't name actions of the class.
    BadActions,
    /// No memory was left. It may come at any time.
    Memory,
}

impl From<AllocError> for PermError {
    ghost from_gives = { λ _ e. e ≡ Memory };

    fn from(_: AllocError) -> PermError {
        PermError::Memory
    }
}

const CLASSES: [PermClass; 5] = [
    PermClass::All,
    PermClass::Runtime,
    PermClass::Security,
    PermClass::Property,
    PermClass::File,
];

/// The permission that a class makes of a name and actions, where a file's name is read in the directory `cwd`. The name is
/// looked at before the actions. `All` looks at neither, and `Runtime` and `Security` at the name alone. An empty name is
/// good for `File` alone.
pub fn make(
    alloc: Global,
    class: PermClass,
    name: Option<&Units>,
    actions: Option<&Units>,
    cwd: &Units,
) -> Result<Permission, PermError>
    ensures { IsMade result (made class (option_copied name.entry) (option_copied actions.entry) cwd.now) }
{
    match class {
        PermClass::All => Ok(Permission::All),
        PermClass::Runtime => basic(alloc, BasicClass::Runtime, name),
        PermClass::Security => basic(alloc, BasicClass::Security, name),
        PermClass::Property => property(alloc, name, actions),
        PermClass::File => file(alloc, name, actions, cwd),
    }
}

/// A permission that has a name and no actions.
fn basic(alloc: Global, class: BasicClass, name: Option<&Units>) -> Result<Permission, PermError>
    ensures { IsMade result (made_basic class (option_copied name.entry)) }
{
    let name = filled(name)?;
    Ok(Permission::Basic {
        class,
        name: name.copy(alloc)?,
    })
}

/// A permission on a property.
fn property(
    alloc: Global,
    name: Option<&Units>,
    actions: Option<&Units>,
) -> Result<Permission, PermError>
    ensures { IsMade result (made_property (option_copied name.entry) (option_copied actions.entry)) }
{
    let name = filled(name)?;
    let actions = wanted(&PROPERTY_ACTIONS, actions)?;
    Ok(Permission::Property {
        name: name.copy(alloc)?,
        actions: PropertyActions::new(actions),
    })
}

/// A permission on a file.
fn file(
    alloc: Global,
    name: Option<&Units>,
    actions: Option<&Units>,
    cwd: &Units,
) -> Result<Permission, PermError>
    ensures { IsMade result (made_file (option_copied name.entry) (option_copied actions.entry) cwd.now) }
{
    let Some(name) = name else {
        return Err(PermError::NoName);
    };
    let actions = wanted(&FILE_ACTIONS, actions)?;
    Ok(Permission::File {
        path: path_of(alloc, cwd.as_slice(), name.as_slice())?,
        name: name.copy(alloc)?,
        actions: FileActions::new(actions),
    })
}

/// A name that is there and isn't empty.
fn filled(name: Option<&Units>) -> Result<&Units, PermError>
    ensures { MatchResult result (λ n. filled (option_copied name.entry) ≡ Ok n.now) (λ e. filled (option_copied name.entry) ≡ Err e) }
{
    let Some(name) = name else {
        return Err(PermError::NoName);
    };
    if name.as_slice().is_empty() {
        return Err(PermError::EmptyName);
    }
    Ok(name)
}

/// The set of actions of a kind that a text gives, where there is a text.
fn wanted(kind: &[Action], actions: Option<&Units>) -> Result<Actions, PermError>
    ensures { MatchResult result (λ set. wanted kind.now (option_copied actions.entry) ≡ Ok set.0)
        (λ e. wanted kind.now (option_copied actions.entry) ≡ Err e) }
{
    match actions {
        Some(text) => actions_of(kind, text.as_slice()).ok_or(PermError::BadActions),
        None => Err(PermError::BadActions),
    }
}
