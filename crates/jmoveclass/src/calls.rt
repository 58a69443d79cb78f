ghost use Rattle.std.specs.Prelude.{◌≡◌, IfOk, Some, slice_get};
ghost use Rattle.jresolution.specs.jprogram.MemberResolution.{part_of, referred};
ghost use Rattle.jresolution.specs.juses.EntryUses.{AreUses};
ghost use Rattle.jmoveclass.specs.CallExpansion;
ghost use Rattle.jlib.specs.declared.calls.LibCall.TheVariants as calls;
ghost use Rattle.jresolution.specs.declared.jprogram.member.Member.TheVariants as members;

use crate::moving::Moving;
use jground::jbase::Seq;
use jlib::{ControllerCall, LibCall, ThreadCall};
use jmove::Expand;
use jparts::jcode::{Op, Placed};
use jresolution::jprogram::Member;
use std::alloc::{AllocError, Global};

/// What a call of AccessController becomes.
fn asking(n: u16, call: ControllerCall) -> Expand
    ensures { result ≡ CallExpansion.calling n (Some (members.LibMethod (calls.Controller call))) }
{
    match call {
        ControllerCall::Check => Expand::Check(n),
        ControllerCall::Snapshot => Expand::Snapshot(n),
        ControllerCall::Privileged => Expand::Privileged(n),
        ControllerCall::PrivilegedWith => Expand::PrivilegedWith(n),
        ControllerCall::PrivilegedLimited => Expand::PrivilegedLimited(n),
    }
}

fn calling_library(n: u16, call: LibCall) -> Expand
    ensures { result ≡ CallExpansion.calling n (Some (members.LibMethod call)) }
{
    match call {
        LibCall::Run(_) => Expand::Call(n),
        LibCall::RunAction(_) => Expand::Call(n),
        LibCall::Thread(ThreadCall::Init(_)) => Expand::Call(n),
        LibCall::Controller(one) => asking(n, one),
        _ => Expand::Same,
    }
}

/// What a call by the reference at an index becomes, by the member that it stands for.
fn calling(n: u16, member: Option<Member>) -> Expand
    ensures { result ≡ CallExpansion.calling n member }
{
    match member {
        Some(Member::Method(_)) => Expand::Call(n),
        Some(Member::LibMethod(call)) => calling_library(n, call),
        _ => Expand::Same,
    }
}

/// The member that the reference at an index of the class's pool stands for.
fn stands_for(c: &Moving<'_>, n: u16) -> Option<Member>
    requires uses { AreUses c.now.program.now c.now.uses.now }
    requires part { part_of c.now.program.now c.now.place ≡ Some c.now.class.now }
    ensures { result ≡ referred c.now.program.now c.now.class.now.pool (slice_get c.now.class.now.pool n) }
{
    c.uses.member_at(c.place, n)
}

fn expand_by(c: &Moving<'_>, op: &Op) -> Expand
    requires uses { AreUses c.now.program.now c.now.uses.now }
    requires part { part_of c.now.program.now c.now.place ≡ Some c.now.class.now }
    ensures { result ≡ CallExpansion.expand_by (λ n. referred c.now.program.now c.now.class.now.pool (slice_get c.now.class.now.pool n)) op.now }
{
    match op {
        Op::Call(_, n) => calling(*n, stands_for(c, *n)),
        Op::CallInterface(n, _) => calling(*n, stands_for(c, *n)),
        _ => Expand::Same,
    }
}

/// What instructions of the class become.
#[tactic(auto, unfolding(crate::specs::CallExpansion::expands))]
pub fn expands(alloc: Global, c: &Moving<'_>, ops: &[Placed]) -> Result<Seq<Expand>, AllocError>
    requires uses { AreUses c.now.program.now c.now.uses.now }
    requires part { part_of c.now.program.now c.now.place ≡ Some c.now.class.now }
    ensures { IfOk result (λ all. all ≡ CallExpansion.expands c.now.program.now c.now.class.now.pool ops.now) }
{
    let mut all = Seq::new(alloc);
    for one in ops {
        all.push(expand_by(c, &one.op))?;
    }
    Ok(all)
}
