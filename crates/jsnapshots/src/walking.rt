ghost use Rattle.std.specs.Prelude.{◌≡◌, ℕ, Bool, ◌<◌, ◌≤◌, IfOk, IfSome, OnOk, Some, None, length, slice_get, true};
ghost use Rattle.jperm.specs.declared.permission.Permission.{Permission};
ghost use Rattle.jdomain.specs.Domains.{has};
ghost use Rattle.jdomain.specs.DomainStacks.{some_implies, walk, walk_given};
ghost use Rattle.jsnapshots.specs.SnapshotEntries.{AllBelow, Below};
ghost use Rattle.jsnapshots.specs.WalkEnds.{Grants, Knows, given_in, given_of, is_last, known, settled, settled_frame, settled_mark, stack_from};
ghost use Rattle.jsnapshots.specs.SnapshotMeanings.{mark_at, stack_at, stack_of, things};

use crate::entry::{KeptEntry, KeptFrame};
use crate::mark::InspectMark;
use crate::table::Table;
use jdomain::{Domains, Verdict};
use jground::jbase::Seq;
use jperm::Permission;
use std::alloc::{AllocError, Global};

// ---- what a privilege settles

/// Whether one of the limits by itself implies a permission.
#[tactic(auto, unfolding(jdomain::specs::DomainStacks::some_implies))]
fn some_implies(limits: &Seq<Permission>, asked: &Permission) -> bool
    ensures { result ≡ some_implies limits.now asked.now }
{
    limits.as_slice().iter().any(|q| q.implies(asked))
}

/// What a privilege settles whose given stack grants: without limits all is granted, and with limits what one of them implies.
fn granted_end(limits: &Option<Seq<Permission>>, asked: &Permission) -> Option<Verdict>
    ensures { result ≡ settled Verdict.Granted limits.now asked.now }
{
    let Some(limits) = limits else {
        return Some(Verdict::Granted);
    };
    if some_implies(limits, asked) {
        return Some(Verdict::Granted);
    }
    None
}

/// What a privilege settles whose given stack has that verdict.
fn privilege_end(
    given: Verdict,
    limits: &Option<Seq<Permission>>,
    asked: &Permission,
) -> Option<Verdict>
    ensures { result ≡ settled given limits.now asked.now }
{
    match given {
        Verdict::Denied(domain) => Some(Verdict::Denied(domain)),
        Verdict::Granted => granted_end(limits, asked),
    }
}

/// The verdict of a number's stack, which is decided. Without a number nothing is denied.
fn known(decided: &[Verdict], number: Option<u64>) -> Verdict
    requires { Below (length decided.now) number }
    ensures { result ≡ known decided.now number }
{
    match number {
        Some(n) => decided[n as usize],
        None => Verdict::Granted,
    }
}

/// Whether a domain has a permission, where one that has it may be known: that one isn't asked again.
fn implies_too(domains: &Domains, asked: &Permission, granted: Option<u32>, domain: u32) -> bool
    requires { Grants (has domains.now) asked.now granted }
    ensures { result ≡ has domains.now domain asked.now }
{
    if let Some(known) = granted {
        if known == domain {
            return true;
        }
    }
    domains.implies(domain, asked)
}

// ---- what a frame settles

impl Table {
    /// The frame of a number, if it stands for a stack that has one.
    fn frame(&self, n: u64) -> Option<KeptFrame>
        requires { n < length self.now }
        ensures back { IfSome result (λ f. Below n f.mark.privileged × Below n f.older) }
        ensures stands { stack_at (things self.now) (Some n) ≡ stack_from (things self.now) result }
    {
        match self.get(n) {
            KeptEntry::Frame(frame) => Some(*frame),
            KeptEntry::Empty => None,
            KeptEntry::Privilege { .. } => None,
        }
    }

    /// The number of the stack that a privilege was given, if any.
    fn given(&self, k: u64) -> Option<u64>
        requires { k < length self.now }
        ensures value { result ≡ given_of (slice_get self.now k) }
        ensures back { Below k result }
    {
        match self.get(k) {
            KeptEntry::Privilege { given, .. } => *given,
            _ => None,
        }
    }

    /// What the mark of a privilege's number settles, where the stack that it was given has that verdict.
    fn mark_end(&self, given: Verdict, asked: &Permission, k: u64) -> Option<Verdict>
        requires { k < length self.now }
        ensures { (h : ℕ → Permission → Bool) → given ≡ walk_given h asked.now (given_in self.now k)
            → result ≡ settled_mark h asked.now (mark_at (things self.now) (Some k)) }
    {
        match self.get(k) {
            KeptEntry::Privilege { limits, .. } => privilege_end(given, limits, asked),
            KeptEntry::Empty => None,
            KeptEntry::Frame(_) => None,
        }
    }

    /// The domain of the newest frame of a number's stack, where the stack is granted: it has the permission.
    fn granted_at(&self, decided: &[Verdict], number: Option<u64>) -> Option<u32>
        requires within { length decided.now ≤ length self.now }
        requires back { Below (length decided.now) number }
        ensures { (h : ℕ → Permission → Bool) (p : Permission) → Knows h p (things self.now) decided.now → Grants h p result }
    {
        let Some(n) = number else {
            return None;
        };
        let Verdict::Granted = decided[n as usize] else {
            return None;
        };
        let Some(frame) = self.frame(n) else {
            return None;
        };
        Some(frame.mark.domain)
    }

    /// What a frame settles, where the stacks of earlier numbers than the privilege's are decided. A domain that has the permission
    /// may be known.
    fn frame_end(
        &self,
        decided: &[Verdict],
        domains: &Domains,
        asked: &Permission,
        granted: Option<u32>,
        mark: InspectMark,
    ) -> Option<Verdict>
        requires knows { Knows (has domains.now) asked.now (things self.now) decided.now }
        requires granted { Grants (has domains.now) asked.now granted }
        requires within { length decided.now ≤ length self.now }
        requires back { Below (length decided.now) mark.privileged }
        ensures { result ≡ settled_frame (has domains.now) asked.now mark.domain (mark_at (things self.now) mark.privileged) }
    {
        if !implies_too(domains, asked, granted, mark.domain) {
            return Some(Verdict::Denied(mark.domain));
        }
        let Some(k) = mark.privileged else {
            return None;
        };
        let given = known(decided, self.given(k));
        self.mark_end(given, asked, k)
    }

    // ---- a kept stack by itself

    /// Whether a frame has no privilege that was given a stack.
    fn is_plain(&self, mark: InspectMark) -> bool
        requires { Below (length self.now) mark.privileged }
        ensures { result ≡ true → IfSome mark.privileged (λ k. given_of (slice_get self.now k) ≡ None) }
    {
        match mark.privileged {
            None => true,
            Some(k) => self.given(k).is_none(),
        }
    }

    /// What a frame settles without a privilege that was given a stack. A domain that has the permission may be known.
    fn plain_end(
        &self,
        domains: &Domains,
        asked: &Permission,
        granted: Option<u32>,
        mark: InspectMark,
    ) -> Option<Verdict>
        requires granted { Grants (has domains.now) asked.now granted }
        requires back { Below (length self.now) mark.privileged }
        requires plain { IfSome mark.privileged (λ k. given_of (slice_get self.now k) ≡ None) }
        ensures { result ≡ settled_frame (has domains.now) asked.now mark.domain (mark_at (things self.now) mark.privileged) }
    {
        if !implies_too(domains, asked, granted, mark.domain) {
            return Some(Verdict::Denied(mark.domain));
        }
        let Some(k) = mark.privileged else {
            return None;
        };
        self.mark_end(Verdict::Granted, asked, k)
    }

    /// The verdict of the stack of a number, where no frame that the walk comes to has a privilege that was given a stack.
    fn walk_plain(
        &self,
        domains: &Domains,
        asked: &Permission,
        number: Option<u64>,
    ) -> Option<Verdict>
        requires { Below (length self.now) number }
        ensures { IfSome result (λ v. v ≡ walk (has domains.now) asked.now (stack_at (things self.now) number)) }
    {
        let mut granted = None;
        let mut older = number;
        while let Some(n) = older {
            let Some(frame) = self.frame(n) else {
                return Some(Verdict::Granted);
            };
            if !self.is_plain(frame.mark) {
                return None;
            }
            if let Some(verdict) = self.plain_end(domains, asked, granted, frame.mark) {
                return Some(verdict);
            }
            granted = Some(frame.mark.domain);
            older = frame.older;
        }
        Some(Verdict::Granted)
    }

    /// Whether a privilege has no limits, so that the walk ends with it.
    fn is_last(&self, k: u64) -> bool
        requires { k < length self.now }
        ensures { result ≡ is_last (slice_get self.now k) }
    {
        match self.get(k) {
            KeptEntry::Privilege { limits, .. } => limits.is_none(),
            _ => false,
        }
    }

    // ---- kept stacks, each decided once

    /// The verdict of the next number's stack, where those of earlier numbers are decided.
    fn decide(&self, decided: &[Verdict], domains: &Domains, asked: &Permission) -> Verdict
        requires knows { Knows (has domains.now) asked.now (things self.now) decided.now }
        requires there { length decided.now < length self.now }
        ensures { result ≡ walk (has domains.now) asked.now (stack_at (things self.now) (Some (length decided.now))) }
    {
        let Some(frame) = self.frame(decided.len() as u64) else {
            return Verdict::Granted;
        };
        let granted = self.granted_at(decided, frame.older);
        match self.frame_end(decided, domains, asked, granted, frame.mark) {
            Some(verdict) => verdict,
            None => known(decided, frame.older),
        }
    }

    /// Decides the stacks of all numbers up to one, as far as they aren't decided.
    fn decide_to(
        &self,
        decided: &mut Vec<Verdict>,
        domains: &Domains,
        asked: &Permission,
        n: u64,
    ) -> Result<(), AllocError>
        requires knows { Knows (has domains.now) asked.now (things self.now) decided.old.items }
        requires within { length decided.old.items ≤ length self.now }
        requires there { n < length self.now }
        ensures knows { OnOk result (Knows (has domains.now) asked.now (things self.now) decided.new.items) }
        ensures within { OnOk result (length decided.new.items ≤ length self.now) }
        ensures there { OnOk result (n < length decided.new.items) }
    {
        while decided.len() as u64 <= n {
            let verdict = self.decide(decided, domains, asked);
            decided.push(verdict)?;
        }
        Ok(())
    }

    /// The verdict of the stack that a privilege was given. Where the walk ends with the privilege that stack is walked by itself, if that
    /// comes to no other given stack; else it is decided with all of earlier numbers, where it isn't yet.
    fn decide_given(
        &self,
        decided: &mut Vec<Verdict>,
        domains: &Domains,
        asked: &Permission,
        k: u64,
    ) -> Result<Verdict, AllocError>
        requires knows { Knows (has domains.now) asked.now (things self.now) decided.old.items }
        requires within { length decided.old.items ≤ length self.now }
        requires there { k < length self.now }
        ensures verdict { IfOk result (λ v. v ≡ walk_given (has domains.now) asked.now (given_in self.now k)) }
        ensures knows { OnOk result (Knows (has domains.now) asked.now (things self.now) decided.new.items) }
        ensures within { OnOk result (length decided.new.items ≤ length self.now) }
    {
        let Some(n) = self.given(k) else {
            return Ok(Verdict::Granted);
        };
        if self.is_last(k) {
            if let Some(verdict) = self.walk_plain(domains, asked, Some(n)) {
                return Ok(verdict);
            }
        }
        self.decide_to(decided, domains, asked, n)?;
        Ok(known(decided, Some(n)))
    }

    // ---- the walk

    /// What a frame settles, where a domain that has the permission may be known. The stack that its privilege was given is decided,
    /// where it isn't yet.
    fn settle(
        &self,
        decided: &mut Vec<Verdict>,
        domains: &Domains,
        asked: &Permission,
        granted: Option<u32>,
        mark: InspectMark,
    ) -> Result<Option<Verdict>, AllocError>
        requires granted { Grants (has domains.now) asked.now granted }
        requires knows { Knows (has domains.now) asked.now (things self.now) decided.old.items }
        requires within { length decided.old.items ≤ length self.now }
        requires back { Below (length self.now) mark.privileged }
        ensures end { IfOk result (λ end. end ≡ settled_frame (has domains.now) asked.now mark.domain (mark_at (things self.now) mark.privileged)) }
        ensures knows { OnOk result (Knows (has domains.now) asked.now (things self.now) decided.new.items) }
        ensures within { OnOk result (length decided.new.items ≤ length self.now) }
    {
        if !implies_too(domains, asked, granted, mark.domain) {
            return Ok(Some(Verdict::Denied(mark.domain)));
        }
        let Some(k) = mark.privileged else {
            return Ok(None);
        };
        let given = self.decide_given(decided, domains, asked, k)?;
        Ok(self.mark_end(given, asked, k))
    }

    /// The walk of the stack of a number, along older frames down to what is decided. The domain of the frame before, if there is
    /// one, has the permission.
    fn walk_older(
        &self,
        decided: &mut Vec<Verdict>,
        domains: &Domains,
        asked: &Permission,
        before: Option<u32>,
        number: Option<u64>,
    ) -> Result<Verdict, AllocError>
        requires before { Grants (has domains.now) asked.now before }
        requires knows { Knows (has domains.now) asked.now (things self.now) decided.old.items }
        requires within { length decided.old.items ≤ length self.now }
        requires back { Below (length self.now) number }
        ensures { IfOk result (λ v. v ≡ walk (has domains.now) asked.now (stack_at (things self.now) number)) }
    {
        let mut granted = before;
        let mut older = number;
        while let Some(n) = older {
            if n < decided.len() as u64 {
                return Ok(known(decided, older));
            }
            let Some(frame) = self.frame(n) else {
                return Ok(Verdict::Granted);
            };
            if let Some(verdict) = self.settle(decided, domains, asked, granted, frame.mark)? {
                return Ok(verdict);
            }
            granted = Some(frame.mark.domain);
            older = frame.older;
        }
        Ok(Verdict::Granted)
    }

    /// The walk of the stack of marks, the oldest first, on the inherited one. A domain that was just asked isn't asked again for the
    /// next frame.
    pub fn walk(
        &self,
        alloc: Global,
        domains: &Domains,
        marks: &[InspectMark],
        inherited: Option<u64>,
        asked: &Permission,
    ) -> Result<Verdict, AllocError>
        requires marks { AllBelow (length self.now) marks.now }
        requires inherited { Below (length self.now) inherited }
        ensures { IfOk result (λ v. v ≡ walk (has domains.now) asked.now (stack_of (things self.now) marks.now inherited)) }
    {
        let mut decided = Vec::new(alloc);
        let mut granted = None;
        let mut i = marks.len();
        while i > 0 {
            i -= 1;
            let mark = marks[i];
            if let Some(verdict) = self.settle(&mut decided, domains, asked, granted, mark)? {
                return Ok(verdict);
            }
            granted = Some(mark.domain);
        }
        self.walk_older(&mut decided, domains, asked, granted, inherited)
    }
}
