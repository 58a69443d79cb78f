ghost use Rattle.std.specs.Prelude.{◌≡◌, [], IfOk, OnOk, map};
ghost use Rattle.std.specs.Option.{option_copied};
ghost use Rattle.jctx.specs.Contexts.{enter, limited, privileged};
ghost use Rattle.jctx.specs.ProofNames.{given_items};
ghost use Rattle.jctx.specs.ContextGrowth.{joined};
ghost use Rattle.jctx.specs.ContextItems.{with_limits};
ghost use Rattle.jctx.specs.ContextLaws.{IsKept};

use crate::context::Context;
use jperm::{Permission, permission_laws};
use std::alloc::{AllocError, Global};

/// Adds a copy of each item that none before it covers.
fn take_over(alloc: Global, made: &mut Context, c: &Context) -> Result<(), AllocError>
    ensures { OnOk result (made.new ≡ joined made.old c.now) }
{
    for item in c.as_slice() {
        if !made.hides(item) {
            made.push(item.copy(alloc)?)?;
        }
    }
    Ok(())
}

/// Adds each item with the limits, where none before it covers it.
fn take_limited(
    alloc: Global,
    made: &mut Context,
    limits: &[Permission],
    c: &Context,
) -> Result<(), AllocError>
    ensures { OnOk result (made.new ≡ joined made.old (map (with_limits limits.now) c.now)) }
{
    for item in c.as_slice() {
        let limited = item.with_limits(alloc, limits)?;
        if !made.hides(&limited) {
            made.push(limited)?;
        }
    }
    Ok(())
}

/// Adds what isn't covered of a given context.
fn take_given(alloc: Global, made: &mut Context, given: Option<&Context>) -> Result<(), AllocError>
    ensures { OnOk result (made.new ≡ joined made.old (given_items (option_copied given.entry))) }
{
    match given {
        Some(c) => take_over(alloc, made, c),
        None => Ok(()),
    }
}

/// Adds what a privilege takes over of the context behind it.
fn take_behind(
    alloc: Global,
    made: &mut Context,
    limits: Option<&[Permission]>,
    c: &Context,
) -> Result<(), AllocError>
    ensures { OnOk result (made.new ≡ joined made.old (limited (option_copied limits.entry) c.now)) }
{
    match limits {
        Some(limits) => take_limited(alloc, made, limits, c),
        None => Ok(()),
    }
}

/// The context of the newest frame of all, which restricts nothing.
pub fn top(alloc: Global) -> Result<Context, AllocError>
    ensures value { IfOk result (λ c. c ≡ []) }
    ensures kept { IfOk result (λ c. IsKept c) }
{
    Ok(Context::new(alloc))
}

/// The context of a method of the domain `d` that is called in a context: the domain, and each item of the context that none
/// before it covers.
#[tactic(auto, using(crate::proofs::Growth::enter_joined, crate::proofs::Growth::enter_kept))]
pub fn enter(alloc: Global, c: &Context, d: u32) -> Result<Context, AllocError>
    ensures value { IfOk result (λ made. made ≡ enter c.now d) }
    ensures kept { IfOk result (λ made. IsKept made) }
{
    permission_laws();
    let mut made = Context::single(alloc, d)?;
    take_over(alloc, &mut made, c)?;
    Ok(made)
}

/// The context of a privilege that a method of the domain `d` takes in the context `c`: the domain, the given context, and where
/// there are limits the items of `c` with these added. Without limits nothing of `c` is asked; an empty list of limits takes
/// over the items of `c` as they are.
#[tactic(auto, using(crate::proofs::Growth::privileged_joined, crate::proofs::Growth::privileged_kept))]
pub fn privileged(
    alloc: Global,
    d: u32,
    given: Option<&Context>,
    limits: Option<&[Permission]>,
    c: &Context,
) -> Result<Context, AllocError>
    ensures value { IfOk result (λ made. made ≡ privileged d (option_copied given.entry) (option_copied limits.entry) c.now) }
    ensures kept { IfOk result (λ made. IsKept made) }
{
    permission_laws();
    let mut made = Context::single(alloc, d)?;
    take_given(alloc, &mut made, given)?;
    take_behind(alloc, &mut made, limits, c)?;
    Ok(made)
}
