ghost use Rattle.std.specs.Prelude.{◌≡◌, ◌++◌, IfOk, OnOk, map};
ghost use Rattle.jdomain.specs.GrantShares.{marks, share_of, taken};

use crate::code::Code;
use crate::entry::permissions_of;
use crate::source::CodeSource;
use jground::jbase::Seq;
use jground::jtext::Units;
use jperm::Permission;
use jpolicy::Grant;
use std::alloc::{AllocError, Global};

/// What a grant gives: its permissions, and the code that gets them.
#[derive(Drop)]
pub struct Share {
    pub code: Code,
    pub permissions: Seq<Permission>,
}

/// What each grant gives, in order.
pub fn shares_of(alloc: Global, policy: &[Grant], cwd: &Units) -> Result<Seq<Share>, AllocError>
    ensures { IfOk result (λ shares. shares ≡ map (share_of cwd.now) policy.now) }
{
    let mut shares = Seq::new(alloc);
    for grant in policy {
        shares.push(share_of(alloc, grant, cwd)?)?;
    }
    Ok(shares)
}

/// What a grant gives.
fn share_of(alloc: Global, grant: &Grant, cwd: &Units) -> Result<Share, AllocError>
    ensures { IfOk result (λ share. share ≡ share_of cwd.now grant.now) }
{
    Ok(Share {
        code: Code::of(alloc, grant)?,
        permissions: permissions_of(alloc, grant.entries.as_slice(), cwd)?,
    })
}

/// Which shares a source takes of, in order: 1 where it does.
pub fn marks(alloc: Global, shares: &[Share], source: &CodeSource) -> Result<Vec<u8>, AllocError>
    ensures { IfOk result (λ v. v.items ≡ marks shares.now source.now) }
{
    let mut marks = Vec::new(alloc);
    for share in shares {
        marks.push(u8::from(source.is_in(&share.code)))?;
    }
    Ok(marks)
}

/// The permissions that a source takes of what grants give, in order.
#[tactic(auto, unfolding(crate::specs::GrantShares::taken))]
pub fn taken(
    alloc: Global,
    shares: &[Share],
    source: &CodeSource,
) -> Result<Seq<Permission>, AllocError>
    ensures { IfOk result (λ ps. ps ≡ taken shares.now source.now) }
{
    let mut permissions = Seq::new(alloc);
    for share in shares {
        if source.is_in(&share.code) {
            add_copies(alloc, share.permissions.as_slice(), &mut permissions)?;
        }
    }
    Ok(permissions)
}

/// Puts copies of permissions behind others.
fn add_copies(
    alloc: Global,
    more: &[Permission],
    permissions: &mut Seq<Permission>,
) -> Result<(), AllocError>
    ensures { OnOk result (permissions.new ≡ permissions.old ++ more.now) }
{
    for permission in more {
        permissions.push(permission.copy(alloc)?)?;
    }
    Ok(())
}
