ghost use Rattle.std.specs.Prelude.{◌≡◌, IfOk, map};
ghost use Rattle.jperm.specs.declared.permission.Permission.TheVariants.{Unresolved};
ghost use Rattle.jdomain.specs.Domains.{made_by, permission_of};

use jground::jbase::Seq;
use jground::jtext::Units;
use jperm::{PermClass, PermError, Permission, make};
use jpolicy::GrantEntry;
use std::alloc::{AllocError, Global};

/// The permissions of entries, in order, with names of files read in a directory.
pub fn permissions_of(
    alloc: Global,
    entries: &[GrantEntry],
    directory: &Units,
) -> Result<Seq<Permission>, AllocError>
    ensures { IfOk result (λ ps. ps ≡ map (permission_of directory.now) entries.now) }
{
    let mut permissions = Seq::new(alloc);
    for entry in entries {
        permissions.push(permission_of(alloc, entry, directory)?)?;
    }
    Ok(permissions)
}

/// The permission of an entry, with names of files read in a directory. It is unresolved where the entry asks for a signer, its
/// class is unknown, or its name or actions make none.
#[tactic(auto, unfolding(crate::specs::Domains::permission_of))]
fn permission_of(
    alloc: Global,
    entry: &GrantEntry,
    directory: &Units,
) -> Result<Permission, AllocError>
    ensures { IfOk result (λ p. p ≡ permission_of directory.now entry.now) }
{
    if entry.signed {
        return unresolved(alloc, &entry.class);
    }
    match PermClass::named(entry.class.as_slice()) {
        Some(class) => made_by(alloc, class, entry, directory),
        None => unresolved(alloc, &entry.class),
    }
}

/// The permission that a class makes of an entry, or what stands for it where it makes none.
fn made_by(
    alloc: Global,
    class: PermClass,
    entry: &GrantEntry,
    directory: &Units,
) -> Result<Permission, AllocError>
    ensures { IfOk result (λ p. p ≡ made_by directory.now (Some class) entry.now) }
{
    let name = entry.name.as_ref();
    let actions = entry.actions.as_ref();
    match make(alloc, class, name, actions, directory) {
        Ok(permission) => Ok(permission),
        Err(PermError::Memory) => Err(AllocError),
        Err(_) => unresolved(alloc, &entry.class),
    }
}

/// What stands for a class that makes no permission.
fn unresolved(alloc: Global, class: &Units) -> Result<Permission, AllocError>
    ensures { IfOk result (λ p. p ≡ Unresolved class.now) }
{
    Ok(Permission::Unresolved {
        class: class.copy(alloc)?,
    })
}
