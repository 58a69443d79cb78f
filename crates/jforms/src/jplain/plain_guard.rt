ghost use Rattle.std.specs.Prelude.{◌≡◌, ◌<◌, [], IfOk, IfSome, Some, length};
ghost use Rattle.std.specs.Option.{option_copied};
ghost use Rattle.jdomain.specs.Domains.{has};
ghost use Rattle.jforms.specs.jplain.PlainGuards.{GrowsByOne, IsContext, IsDecided, IsHanded, context_at, number_or_first};

use jdomain::{Domains, Verdict};
use jguard::{Answer, Ask, Guard, OnPassing};
use jinterned::Table;
use jperm::Permission;
use std::alloc::{AllocError, Global};
use std::marker::Model;

/// The guard of the plain machine, over a table of contexts and a job's domains. Contracts see the contexts by number, and the permissions
/// of each domain.
#[derive(Drop)]
pub struct PlainGuard<'d> {
    contexts: Table,
    domains: &'d Domains,
}

impl<'d> Model for PlainGuard<'d> {
    ghost use Rattle.jforms.specs.jplain.PlainGuards.{Plains};

    ghost Value = { Plains };

    ghost view = { λ p. record { contexts = p.contexts; domains = p.domains.now } };
}

/// The number that was given, and where none was, that of the context that restricts nothing.
fn number_or_first(contexts: &Table, n: Option<u64>) -> u64
    ensures value { result ≡ number_or_first n }
    ensures first { context_at contexts.now 0 ≡ Some [] }
{
    contexts.distinct();
    n.unwrap_or(0)
}

impl<'d> PlainGuard<'d> {
    /// A guard that gave no number yet but that of the context that restricts nothing.
    pub fn open(alloc: Global, domains: &'d Domains) -> Result<PlainGuard<'d>, AllocError>
        ensures { IfOk result (λ p. p.domains ≡ domains.now) }
    {
        let contexts = Table::open(alloc)?;
        Ok(PlainGuard { contexts, domains })
    }

    /// The verdict of a permission by the context of a number.
    fn check(&self, asked: &Permission, n: u64) -> Verdict
        requires { n < length self.now.contexts }
        ensures { IsDecided (has self.now.domains) asked.now self.now.contexts n result }
    {
        self.contexts.verdict(n, self.domains, asked)
    }

    /// The context of a method of a domain that is called in the context of a number.
    fn enter(&mut self, alloc: Global, n: u64, domain: u32) -> Result<Answer<()>, AllocError>
        requires { n < length self.old.contexts }
        ensures context { IfOk result (IsContext self.old.contexts self.new.contexts n domain) }
        ensures grown { GrowsByOne self.old.contexts self.new.contexts }
        ensures domains { self.new.domains ≡ self.old.domains }
    {
        let made = self.contexts.enter(alloc, n, domain)?;
        Ok(Answer::Ctx(made))
    }

    /// The context of a privilege that a method of a domain takes in the context of a number.
    fn privilege(
        &mut self,
        alloc: Global,
        domain: u32,
        given: Option<u64>,
        limits: Option<&[Permission]>,
        n: u64,
    ) -> Result<Answer<()>, AllocError>
        requires there { n < length self.old.contexts }
        requires given { IfSome given (λ g. g < length self.old.contexts) }
        ensures handed { IfOk result (IsHanded self.old.contexts self.new.contexts domain given (option_copied limits.entry) n) }
        ensures grown { GrowsByOne self.old.contexts self.new.contexts }
        ensures domains { self.new.domains ≡ self.old.domains }
    {
        let made = self.contexts.privileged(alloc, domain, given, limits, n)?;
        Ok(Answer::Marked {
            caller: (),
            ctx: Some(made),
        })
    }
}

impl<'d> Guard for PlainGuard<'d> {
    ghost use Rattle.std.specs.Prelude.{List, Some};
    ghost use Rattle.jdomain.specs.Domains.{has};
    ghost use Rattle.jctx.specs.declared.item.Item.{Item};
    ghost use Rattle.jsemantics.specs.jrules.PlainRules.{rules as plain};
    ghost use Rattle.jforms.specs.jplain.PlainGuards.{Becomes, context_at};

    type On = OnPassing;

    type Mark = ();

    ghost Kept = { List Item };

    ghost Entry = { Unit {0} };

    ghost kept = { λ p. context_at p.contexts };

    ghost entry = { λ p m. Some tt };

    ghost rules = { λ p. plain (has p.domains) };

    ghost mark = { λ d. tt };

    ghost asked = { Becomes };

    #[tactic(auto, unfolding(jsemantics::specs::jrules::PlainRules::rules))]
    fn mark_of(&self, domain: u32) -> () {
        ()
    }

    #[tactic(auto, unfolding(jsemantics::specs::jrules::PlainRules::rules))]
    fn first(&mut self, alloc: Global) -> Result<Option<u64>, AllocError> {
        Ok(Some(number_or_first(&self.contexts, None)))
    }

    fn secure(
        &mut self,
        alloc: Global,
        ask: Ask,
        marks: &[()],
        inherited: Option<u64>,
    ) -> Result<Answer<()>, AllocError> {
        match ask {
            Ask::Enter { ctx, domain } => self.enter(alloc, ctx, domain),
            Ask::Check { asked, ctx } => {
                let n = number_or_first(&self.contexts, ctx);
                Ok(Answer::Verdict(self.check(asked, n)))
            }
            Ask::CheckKept { asked, kept } => Ok(Answer::Verdict(self.check(asked, kept))),
            Ask::Snapshot { ctx } => Ok(Answer::Kept(number_or_first(&self.contexts, ctx))),
            Ask::Inherit { ctx } => Ok(Answer::Kept(number_or_first(&self.contexts, ctx))),
            Ask::Privileged {
                domain,
                ctx,
                given,
                limits,
            } => {
                let n = number_or_first(&self.contexts, ctx);
                self.privilege(alloc, domain.unwrap_or(0), given, limits, n)
            }
        }
    }
}
