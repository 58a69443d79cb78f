ghost use Rattle.std.specs.Prelude.{◌≡◌, ◌-◌, ◌<◌, [], IfOk, Some, length, slice_get};
ghost use Rattle.std.specs.Option.{option_copied};
ghost use Rattle.jdomain.specs.Domains.{has};
ghost use Rattle.jdomain.specs.DomainStacks.{Privileged, walk};
ghost use Rattle.jsnapshots.specs.SnapshotEntries.{AllBelow, Below};
ghost use Rattle.jsnapshots.specs.SnapshotMeanings.{Keeps as Stays, given_at, stack_at, stack_of, things};
ghost use Rattle.jforms.specs.jinspect.InspectingGuards.{IsMarked, IsStack, newest_domain};

use jdomain::Domains;
use jguard::{Answer, Ask, Guard, OnSource};
use jperm::Permission;
use jsnapshots::{InspectMark, Kept};
use std::alloc::{AllocError, Global};
use std::marker::Model;

/// The guard of the inspecting machine, over a table of kept stacks and a job's domains. Contracts see the table's entries and the
/// permissions of each domain.
#[derive(Drop)]
pub struct Inspector<'d> {
    kept: Kept,
    domains: &'d Domains,
}

impl<'d> Model for Inspector<'d> {
    ghost use Rattle.jforms.specs.jinspect.InspectingGuards.{Inspects};

    ghost Value = { Inspects };

    ghost view = { λ i. record { entries = i.kept; domains = i.domains.now } };
}

/// The domain of the newest frame, whose mark stands last.
fn newest_domain(marks: &[InspectMark]) -> u32
    ensures { result ≡ newest_domain (slice_get marks.now (length marks.now - 1)) }
{
    let n = marks.len();
    if n == 0 {
        return 0;
    }
    marks[n - 1].domain
}

impl<'d> Inspector<'d> {
    /// A guard that gave no number yet.
    pub fn open(alloc: Global, domains: &'d Domains) -> Result<Inspector<'d>, AllocError>
        ensures { IfOk result (λ i. i ≡ record { entries = []; domains = domains.now }) }
    {
        let kept = Kept::open(alloc)?;
        Ok(Inspector { kept, domains })
    }

    /// The verdict of a permission on the stack of the frames of these marks on the inherited one.
    fn check(
        &self,
        alloc: Global,
        asked: &Permission,
        marks: &[InspectMark],
        inherited: Option<u64>,
    ) -> Result<Answer<InspectMark>, AllocError>
        requires marks { AllBelow (length self.now.entries) marks.now }
        requires inherited { Below (length self.now.entries) inherited }
        ensures { IfOk result
            (λ a. a ≡ Answer.Verdict (walk (has self.now.domains) asked.now (stack_of (things self.now.entries) marks.now inherited))) }
    {
        let verdict = self
            .kept
            .walk(alloc, self.domains, marks, inherited, asked)?;
        Ok(Answer::Verdict(verdict))
    }

    /// The verdict of a permission on a kept stack.
    fn check_kept(
        &self,
        alloc: Global,
        asked: &Permission,
        kept: u64,
    ) -> Result<Answer<InspectMark>, AllocError>
        requires { kept < length self.now.entries }
        ensures { IfOk result (λ a. a ≡ Answer.Verdict (walk (has self.now.domains) asked.now (stack_at (things self.now.entries) (Some kept)))) }
    {
        let verdict = self.kept.walk(alloc, self.domains, &[], Some(kept), asked)?;
        Ok(Answer::Verdict(verdict))
    }

    /// Keeps the stack of the frames of these marks on the inherited one.
    fn snapshot(
        &mut self,
        alloc: Global,
        marks: &[InspectMark],
        inherited: Option<u64>,
    ) -> Result<Answer<InspectMark>, AllocError>
        requires marks { AllBelow (length self.old.entries) marks.now }
        requires inherited { Below (length self.old.entries) inherited }
        ensures kept { IfOk result (IsStack self.new.entries (stack_of (things self.old.entries) marks.now inherited)) }
        ensures earlier { Stays self.old.entries self.new.entries }
        ensures domains { self.new.domains ≡ self.old.domains }
    {
        let number = self.kept.snapshot(alloc, marks, inherited)?;
        Ok(Answer::Kept(number))
    }

    /// Marks the newest frame with a privilege.
    fn privilege(
        &mut self,
        alloc: Global,
        given: Option<u64>,
        limits: Option<&[Permission]>,
        marks: &[InspectMark],
    ) -> Result<Answer<InspectMark>, AllocError>
        requires { Below (length self.old.entries) given }
        ensures marked { IfOk result (IsMarked self.new.entries (newest_domain (slice_get marks.now (length marks.now - 1)))
            (Privileged (given_at (things self.old.entries) given) (option_copied limits.entry))) }
        ensures earlier { Stays self.old.entries self.new.entries }
        ensures domains { self.new.domains ≡ self.old.domains }
    {
        let domain = newest_domain(marks);
        let number = self.kept.privilege(alloc, given, limits)?;
        let caller = InspectMark {
            domain,
            privileged: Some(number),
        };
        Ok(Answer::Marked { caller, ctx: None })
    }
}

impl<'d> Guard for Inspector<'d> {
    ghost use Rattle.jdomain.specs.Domains.{has};
    ghost use Rattle.jdomain.specs.DomainStacks.{Stack};
    ghost use Rattle.jsemantics.specs.jrules.InspectingRules.{Carried, rules as inspecting};
    ghost use Rattle.jforms.specs.jinspect.InspectingGuards.{Becomes, entry_at, kept_at, unprivileged};

    type On = OnSource;

    type Mark = InspectMark;

    ghost Kept = { Stack };

    ghost Entry = { Carried };

    ghost kept = { λ i. kept_at i.entries };

    ghost entry = { λ i. entry_at i.entries };

    ghost rules = { λ i. inspecting (has i.domains) };

    ghost mark = { unprivileged };

    ghost asked = { Becomes };

    #[tactic(auto, unfolding(jsemantics::specs::jrules::InspectingRules::rules))]
    fn mark_of(&self, domain: u32) -> InspectMark {
        InspectMark {
            domain,
            privileged: None,
        }
    }

    #[tactic(auto, unfolding(jsemantics::specs::jrules::InspectingRules::rules))]
    fn first(&mut self, alloc: Global) -> Result<Option<u64>, AllocError> {
        Ok(None)
    }

    fn secure(
        &mut self,
        alloc: Global,
        ask: Ask,
        marks: &[InspectMark],
        inherited: Option<u64>,
    ) -> Result<Answer<InspectMark>, AllocError> {
        match ask {
            Ask::Enter { ctx, .. } => Ok(Answer::Ctx(ctx)),
            Ask::Check { asked, .. } => self.check(alloc, asked, marks, inherited),
            Ask::CheckKept { asked, kept } => self.check_kept(alloc, asked, kept),
            Ask::Snapshot { .. } => self.snapshot(alloc, marks, inherited),
            Ask::Inherit { .. } => self.snapshot(alloc, marks, inherited),
            Ask::Privileged { given, limits, .. } => self.privilege(alloc, given, limits, marks),
        }
    }
}
