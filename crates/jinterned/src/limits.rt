ghost use Rattle.std.specs.Prelude.{◌≡◌, IfOk, OnOk};
ghost use Rattle.std.specs.List.{list_any};
ghost use Rattle.jperm.specs.Permissions.{equal};
ghost use Rattle.jdomain.specs.DomainStacks.{some_implies};
ghost use Rattle.jctx.specs.PrivilegeLimits.{add_limits, is_within};

use jground::jbase::Seq;
use jperm::Permission;
use std::alloc::{AllocError, Global};

/// Whether one of the limits by itself implies a permission.
#[tactic(auto, unfolding(jdomain::specs::DomainStacks::some_implies))]
pub fn imply(limits: &[Permission], asked: &Permission) -> bool
    ensures { result ≡ some_implies limits.now asked.now }
{
    limits.iter().any(|q| q.implies(asked))
}

/// Whether one of the limits equals a permission.
fn contain(limits: &[Permission], p: &Permission) -> bool
    ensures { result ≡ list_any (equal p.now) limits.now }
{
    limits.iter().any(|q| p.equal(q))
}

/// Whether each of the limits is one of the others.
pub fn are_within(limits: &[Permission], others: &[Permission]) -> bool
    ensures { result ≡ is_within limits.now others.now }
{
    limits.iter().all(|p| contain(others, p))
}

/// The same limits again, with room for so many more.
fn copied(alloc: Global, limits: &[Permission], more: usize) -> Result<Seq<Permission>, AllocError>
    ensures { IfOk result (λ l. l ≡ limits.now) }
{
    let mut made = Vec::with_capacity(alloc, limits.len().saturating_add(more))?;
    for p in limits {
        made.push(p.copy(alloc)?)?;
    }
    Ok(Seq::from_vec(made))
}

/// Adds each of the new permissions that doesn't equal one already there.
fn add_new(alloc: Global, made: &mut Seq<Permission>, new: &[Permission]) -> Result<(), AllocError>
    ensures { OnOk result (made.new ≡ add_limits made.old new.now) }
{
    for p in new {
        if !contain(made.as_slice(), p) {
            made.push(p.copy(alloc)?)?;
        }
    }
    Ok(())
}

/// The limits with new ones added. No more room is taken than for all of both.
pub fn with_new(
    alloc: Global,
    limits: &Seq<Permission>,
    new: &[Permission],
) -> Result<Seq<Permission>, AllocError>
    ensures { IfOk result (λ l. l ≡ add_limits limits.now new.now) }
{
    let mut made = copied(alloc, limits.as_slice(), new.len())?;
    add_new(alloc, &mut made, new)?;
    Ok(made)
}
