ghost use Rattle.std.specs.Prelude.{◌≡◌, IfOk, OnOk};
ghost use Rattle.jsemantics.specs.jmachine.AccessQueries.{Decided, carried};
ghost use Rattle.jguard.specs.NumberMeanings.{AnswersFor, IsKnownIn, Keeps};
ghost use Rattle.jstepping.specs.jcore.MachineInvariants.{state_of};
ghost use Rattle.jcalling.specs.jcallcheck.CheckRequests.{ask_by};

use crate::jcallcheck::finding::CheckSubject;
use jdomain::Verdict;
use jguard::{Guard, ask_check, ask_kept_check};
use jperm::Permission;
use jstepping::jcore::Machine;
use std::alloc::{AllocError, Global};

/// Asks whether a permission is granted.
pub(crate) fn ask<G: Guard>(
    alloc: Global,
    m: &Machine<'_, '_, G::Mark>,
    guard: &mut G,
    whom: CheckSubject,
    asked: &Permission,
) -> Result<Verdict, AllocError>
    requires { IsKnownIn (G.kept guard.old) (G.entry guard.old) (state_of m.now) (ask_by whom asked.now) }
    ensures answer { IfOk result (λ v. AnswersFor (G.kept guard.old) (G.kept guard.new) (G.entry guard.old) (G.entry guard.new) (G.rules guard.old)
        (ask_by whom asked.now) (carried (state_of m.now)) m.now.guests.running.inherited (Decided v)) }
    ensures once { OnOk result (G.asked guard.old (ask_by whom asked.now) guard.new) }
    ensures rules { G.rules guard.new ≡ G.rules guard.old }
    ensures keeps { Keeps (G.kept guard.old) (G.kept guard.new) }
    ensures marks { Keeps (G.entry guard.old) (G.entry guard.new) }
{
    let marks = m.marks();
    let inherited = m.guests.running.inherited;
    match whom {
        CheckSubject::Thread(ctx) => ask_check(alloc, guard, asked, ctx, marks, inherited),
        CheckSubject::Kept(number) => ask_kept_check(alloc, guard, asked, number, marks, inherited),
    }
}
