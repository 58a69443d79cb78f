ghost use Rattle.std.specs.Prelude.{◌≡◌, Some, IfOk, OnOk, reverse};
ghost use Rattle.std.specs.Option.{option_copied};
ghost use Rattle.jsemantics.specs.jmachine.AccessQueries.{Allowed, Checks, ChecksKept, Decided, Entered, Enters, Inherits, Kept, Privileges, Snapshots};
ghost use Rattle.jguard.specs.GuardQueries.{answer_kind, given_by};
ghost use Rattle.jguard.specs.NumberMeanings.{AnswersFor, AreKnown, IsAskKnown, IsKnown, Keeps};

use crate::ask::{Answer, Ask};
use crate::guard::Guard;
use jdomain::Verdict;
use jperm::Permission;
use std::alloc::{AllocError, Global};

/// The verdict of an answer to a check. Condition: it is one.
fn verdict_in<M: Copy>(answer: Answer<M>) -> Verdict
    requires { answer_kind (given_by answer) ≡ 0 }
    ensures { given_by answer ≡ Decided result }
{
    match answer {
        Answer::Verdict(verdict) => verdict,
        _ => unreachable!(),
    }
}

/// The number of an answer that keeps something. Condition: it does.
fn kept_in<M: Copy>(answer: Answer<M>) -> u64
    requires { answer_kind (given_by answer) ≡ 1 }
    ensures { given_by answer ≡ Kept result }
{
    match answer {
        Answer::Kept(number) => number,
        _ => unreachable!(),
    }
}

/// The number of an answer that enters a context. Condition: it does.
fn entered_in<M: Copy>(answer: Answer<M>) -> u64
    requires { answer_kind (given_by answer) ≡ 2 }
    ensures { given_by answer ≡ Entered result }
{
    match answer {
        Answer::Ctx(number) => number,
        _ => unreachable!(),
    }
}

/// What becomes of a privilege: what the frame that calls carries from now on, and the number of the context that the action is given,
/// if it is given one.
#[derive(Clone, Copy)]
pub struct Marked<M> {
    pub caller: M,
    pub ctx: Option<u64>,
}

/// What an answer makes of a privilege. Condition: it is one to a privilege.
fn marked_in<M: Copy>(answer: Answer<M>) -> Marked<M>
    requires { answer_kind (given_by answer) ≡ 3 }
    ensures { given_by answer ≡ Allowed (record { caller = result.caller; context = result.ctx }) }
{
    match answer {
        Answer::Marked { caller, ctx } => Marked { caller, ctx },
        _ => unreachable!(),
    }
}

/// Whether a permission is granted to a thread, by the marks of its frames, the oldest frame's first, and by what it inherited.
pub fn ask_check<G: Guard>(
    alloc: Global,
    guard: &mut G,
    asked: &Permission,
    ctx: Option<u64>,
    marks: &[G::Mark],
    inherited: Option<u64>,
) -> Result<Verdict, AllocError>
    requires ask { IsAskKnown (G.kept guard.old) (Checks asked.now ctx) }
    requires marks { AreKnown (G.entry guard.old) (reverse marks.now) }
    requires inherited { IsKnown (G.kept guard.old) inherited }
    ensures answer { IfOk result (λ v. AnswersFor (G.kept guard.old) (G.kept guard.new) (G.entry guard.old) (G.entry guard.new) (G.rules guard.old)
        (Checks asked.now ctx) (reverse marks.now) inherited (Decided v)) }
    ensures once { OnOk result (G.asked guard.old (Checks asked.now ctx) guard.new) }
    ensures rules { G.rules guard.new ≡ G.rules guard.old }
    ensures keeps { Keeps (G.kept guard.old) (G.kept guard.new) }
    ensures marks { Keeps (G.entry guard.old) (G.entry guard.new) }
{
    let answer = guard.secure(alloc, Ask::Check { asked, ctx }, marks, inherited)?;
    Ok(verdict_in(answer))
}

/// The number of what getContext keeps.
pub fn ask_snapshot<G: Guard>(
    alloc: Global,
    guard: &mut G,
    ctx: Option<u64>,
    marks: &[G::Mark],
    inherited: Option<u64>,
) -> Result<u64, AllocError>
    requires ask { IsAskKnown (G.kept guard.old) (Snapshots ctx) }
    requires marks { AreKnown (G.entry guard.old) (reverse marks.now) }
    requires inherited { IsKnown (G.kept guard.old) inherited }
    ensures answer { IfOk result
        (λ n. AnswersFor (G.kept guard.old) (G.kept guard.new) (G.entry guard.old) (G.entry guard.new) (G.rules guard.old) (Snapshots ctx)
        (reverse marks.now) inherited (Kept n)) }
    ensures once { OnOk result (G.asked guard.old (Snapshots ctx) guard.new) }
    ensures rules { G.rules guard.new ≡ G.rules guard.old }
    ensures keeps { Keeps (G.kept guard.old) (G.kept guard.new) }
    ensures marks { Keeps (G.entry guard.old) (G.entry guard.new) }
{
    let answer = guard.secure(alloc, Ask::Snapshot { ctx }, marks, inherited)?;
    Ok(kept_in(answer))
}

/// Whether what is kept grants a permission.
pub fn ask_kept_check<G: Guard>(
    alloc: Global,
    guard: &mut G,
    asked: &Permission,
    kept: u64,
    marks: &[G::Mark],
    inherited: Option<u64>,
) -> Result<Verdict, AllocError>
    requires ask { IsAskKnown (G.kept guard.old) (ChecksKept asked.now kept) }
    requires marks { AreKnown (G.entry guard.old) (reverse marks.now) }
    requires inherited { IsKnown (G.kept guard.old) inherited }
    ensures answer { IfOk result (λ v. AnswersFor (G.kept guard.old) (G.kept guard.new) (G.entry guard.old) (G.entry guard.new) (G.rules guard.old)
        (ChecksKept asked.now kept) (reverse marks.now) inherited (Decided v)) }
    ensures once { OnOk result (G.asked guard.old (ChecksKept asked.now kept) guard.new) }
    ensures rules { G.rules guard.new ≡ G.rules guard.old }
    ensures keeps { Keeps (G.kept guard.old) (G.kept guard.new) }
    ensures marks { Keeps (G.entry guard.old) (G.entry guard.new) }
{
    let answer = guard.secure(alloc, Ask::CheckKept { asked, kept }, marks, inherited)?;
    Ok(verdict_in(answer))
}

/// The number of what a thread keeps that is made.
pub fn ask_inherit<G: Guard>(
    alloc: Global,
    guard: &mut G,
    ctx: Option<u64>,
    marks: &[G::Mark],
    inherited: Option<u64>,
) -> Result<u64, AllocError>
    requires ask { IsAskKnown (G.kept guard.old) (Inherits ctx) }
    requires marks { AreKnown (G.entry guard.old) (reverse marks.now) }
    requires inherited { IsKnown (G.kept guard.old) inherited }
    ensures answer { IfOk result
        (λ n. AnswersFor (G.kept guard.old) (G.kept guard.new) (G.entry guard.old) (G.entry guard.new) (G.rules guard.old) (Inherits ctx)
        (reverse marks.now) inherited (Kept n)) }
    ensures once { OnOk result (G.asked guard.old (Inherits ctx) guard.new) }
    ensures rules { G.rules guard.new ≡ G.rules guard.old }
    ensures keeps { Keeps (G.kept guard.old) (G.kept guard.new) }
    ensures marks { Keeps (G.entry guard.old) (G.entry guard.new) }
{
    let answer = guard.secure(alloc, Ask::Inherit { ctx }, marks, inherited)?;
    Ok(kept_in(answer))
}

/// The number of the context of a method of a domain that was called with a context.
pub fn ask_enter<G: Guard>(
    alloc: Global,
    guard: &mut G,
    ctx: u64,
    domain: u32,
    marks: &[G::Mark],
    inherited: Option<u64>,
) -> Result<u64, AllocError>
    requires ask { IsAskKnown (G.kept guard.old) (Enters ctx domain) }
    requires marks { AreKnown (G.entry guard.old) (reverse marks.now) }
    requires inherited { IsKnown (G.kept guard.old) inherited }
    ensures answer { IfOk result (λ n. AnswersFor (G.kept guard.old) (G.kept guard.new) (G.entry guard.old) (G.entry guard.new) (G.rules guard.old)
        (Enters ctx domain) (reverse marks.now) inherited (Entered n)) }
    ensures once { OnOk result (G.asked guard.old (Enters ctx domain) guard.new) }
    ensures rules { G.rules guard.new ≡ G.rules guard.old }
    ensures keeps { Keeps (G.kept guard.old) (G.kept guard.new) }
    ensures marks { Keeps (G.entry guard.old) (G.entry guard.new) }
{
    let answer = guard.secure(alloc, Ask::Enter { ctx, domain }, marks, inherited)?;
    Ok(entered_in(answer))
}

/// What becomes of a privilege of the frame that calls: its domain, where that is told, the context that is given with the action, and limits.
pub fn ask_privilege<G: Guard>(
    alloc: Global,
    guard: &mut G,
    domain: Option<u32>,
    ctx: Option<u64>,
    given: Option<u64>,
    limits: Option<&[Permission]>,
    marks: &[G::Mark],
    inherited: Option<u64>,
) -> Result<Marked<G::Mark>, AllocError>
    requires ask { IsAskKnown (G.kept guard.old) (Privileges domain ctx given (option_copied limits)) }
    requires marks { AreKnown (G.entry guard.old) (reverse marks.now) }
    requires inherited { IsKnown (G.kept guard.old) inherited }
    ensures answer { IfOk result (λ m. AnswersFor (G.kept guard.old) (G.kept guard.new) (G.entry guard.old) (G.entry guard.new) (G.rules guard.old)
        (Privileges domain ctx given (option_copied limits.entry)) (reverse marks.now) inherited (Allowed (record { caller = m.caller; context = m.ctx }))) }
    ensures once { OnOk result (G.asked guard.old (Privileges domain ctx given (option_copied limits.entry)) guard.new) }
    ensures rules { G.rules guard.new ≡ G.rules guard.old }
    ensures keeps { Keeps (G.kept guard.old) (G.kept guard.new) }
    ensures marks { Keeps (G.entry guard.old) (G.entry guard.new) }
{
    let answer = guard.secure(
        alloc,
        Ask::Privileged {
            domain,
            ctx,
            given,
            limits,
        },
        marks,
        inherited,
    )?;
    Ok(marked_in(answer))
}
