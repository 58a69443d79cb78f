ghost use Rattle.std.specs.Prelude.{◌≡◌, [], ◌∷◌, ◌++◌, IfOk, OnOk};
ghost use Rattle.jdomain.specs.Domains.{has};
ghost use Rattle.jdomain.specs.DomainStacks.{Stack, walk};
ghost use Rattle.jctx.specs.Contexts.{along, verdict};
ghost use Rattle.jctx.specs.ContextGrowth.{hidden};
ghost use Rattle.jctx.specs.ContextItems.{plain};

use crate::item::Item;
use jdomain::{Domains, Verdict};
use jperm::{Permission, permission_laws};
use std::alloc::{AllocError, Global};
use std::marker::Model;

/// A security context: the domains that are asked for a permission, of which the first that fails denies it. Contracts see the
/// list of its items.
#[derive(Drop)]
pub struct Context {
    items: Vec<Item>,
}

impl Model for Context {
    ghost use Rattle.std.specs.Prelude.{List};
    ghost use Rattle.jctx.specs.declared.item.Item.{Item};

    ghost Value = { List Item };

    ghost view = { λ c. c.items.items };
}

impl Context {
    /// The context without items. It takes no memory.
    pub(crate) fn new(alloc: Global) -> Context
        ensures { result ≡ [] }
    {
        Context {
            items: Vec::new(alloc),
        }
    }

    /// The context of a domain alone.
    pub(crate) fn single(alloc: Global, d: u32) -> Result<Context, AllocError>
        ensures { IfOk result (λ c. c ≡ plain d ∷ []) }
    {
        let mut items = Vec::new(alloc);
        items.push(Item::plain(alloc, d))?;
        Ok(Context { items })
    }

    /// The items, lent.
    pub fn as_slice(&self) -> &[Item]
        ensures { result.now ≡ self.now }
    {
        self.items.as_slice()
    }

    /// Whether an item of the context covers an item.
    pub(crate) fn hides(&self, item: &Item) -> bool
        ensures { result ≡ hidden self.now item.now }
    {
        self.items.iter().any(|earlier| earlier.covers(item))
    }

    /// Puts an item behind the others.
    pub(crate) fn push(&mut self, item: Item) -> Result<(), AllocError>
        ensures { OnOk result (self.new ≡ self.old ++ item ∷ []) }
    {
        self.items.push(item)?;
        Ok(())
    }

    /// The same context again.
    pub fn copy(&self, alloc: Global) -> Result<Context, AllocError>
        ensures { IfOk result (λ c. c ≡ self.now) }
    {
        let mut made = Context::new(alloc);
        for item in &self.items {
            made.items.push(item.copy(alloc)?)?;
        }
        Ok(made)
    }

    /// The denial of the first item that fails.
    fn first_failing(&self, domains: &Domains, asked: &Permission) -> Verdict
        ensures { result ≡ verdict (has domains.now) asked.now self.now }
    {
        for item in &self.items {
            if item.fails(domains, asked) {
                return Verdict::Denied(item.domain);
            }
        }
        Verdict::Granted
    }

    /// What the context decides for a permission: denied by the domain of the first item whose domain lacks it and whose limits
    /// don't imply it, else granted. It takes no memory.
    #[tactic(auto, using(crate::proofs::StackVerdicts::verdict_follows))]
    pub fn verdict(&self, domains: &Domains, asked: &Permission) -> Verdict
        ensures value { result ≡ verdict (has domains.now) asked.now self.now }
        // The context of a stack decides as the walk of the stack does.
        ensures along { (s : Stack) → self.now ≡ along s → result ≡ walk (has domains.now) asked.now s }
    {
        permission_laws();
        self.first_failing(domains, asked)
    }
}
