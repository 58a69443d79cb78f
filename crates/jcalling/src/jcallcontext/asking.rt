ghost use Rattle.std.specs.Prelude.{◌≡◌, IfOk, OnOk};
ghost use Rattle.std.specs.Option.{option_copied};
ghost use Rattle.jsemantics.specs.jmachine.AccessQueries.{Allowed, Entered, Enters, Kept, Snapshots, carried};
ghost use Rattle.jguard.specs.NumberMeanings.{AnswersFor, IsKnownIn, Keeps};
ghost use Rattle.jstepping.specs.jcore.MachineInvariants.{state_of};
ghost use Rattle.jcalling.specs.jcallcontext.ContextRequests.{privilege_of};

use jground::jbase::Seq;
use jguard::{Guard, Marked, ask_enter, ask_privilege, ask_snapshot};
use jlibcalls::jcontexts::{Entering, Wanted};
use jperm::Permission;
use jstepping::jcore::Machine;
use std::alloc::{AllocError, Global};

/// The number of what getContext keeps in the running thread.
pub(crate) fn ask_kept<G: Guard>(
    alloc: Global,
    m: &Machine<'_, '_, G::Mark>,
    guard: &mut G,
    ctx: Option<u64>,
) -> Result<u64, AllocError>
    requires known { IsKnownIn (G.kept guard.old) (G.entry guard.old) (state_of m.now) (Snapshots ctx) }
    ensures answer { IfOk result (λ n. AnswersFor (G.kept guard.old) (G.kept guard.new) (G.entry guard.old) (G.entry guard.new) (G.rules guard.old)
        (Snapshots ctx) (carried (state_of m.now)) m.now.guests.running.inherited (Kept n)) }
    ensures once { OnOk result (G.asked guard.old (Snapshots ctx) guard.new) }
    ensures rules { G.rules guard.new ≡ G.rules guard.old }
    ensures keeps { Keeps (G.kept guard.old) (G.kept guard.new) }
    ensures marks { Keeps (G.entry guard.old) (G.entry guard.new) }
{
    let marks = m.marks();
    let inherited = m.guests.running.inherited;
    ask_snapshot(alloc, guard, ctx, marks, inherited)
}

/// The number of the context of a method of a domain that the running thread enters.
pub(crate) fn ask_entered<G: Guard>(
    alloc: Global,
    m: &Machine<'_, '_, G::Mark>,
    guard: &mut G,
    one: Entering,
) -> Result<u64, AllocError>
    requires known { IsKnownIn (G.kept guard.old) (G.entry guard.old) (state_of m.now) (Enters one.ctx one.domain) }
    ensures answer { IfOk result (λ n. AnswersFor (G.kept guard.old) (G.kept guard.new) (G.entry guard.old) (G.entry guard.new) (G.rules guard.old)
        (Enters one.ctx one.domain) (carried (state_of m.now)) m.now.guests.running.inherited (Entered n)) }
    ensures once { OnOk result (G.asked guard.old (Enters one.ctx one.domain) guard.new) }
    ensures rules { G.rules guard.new ≡ G.rules guard.old }
    ensures keeps { Keeps (G.kept guard.old) (G.kept guard.new) }
    ensures marks { Keeps (G.entry guard.old) (G.entry guard.new) }
{
    let marks = m.marks();
    let inherited = m.guests.running.inherited;
    ask_enter(alloc, guard, one.ctx, one.domain, marks, inherited)
}

/// Limits as a slice, where there are any.
fn limits_of(limits: &Option<Seq<Permission>>) -> Option<&[Permission]>
    ensures { option_copied result ≡ limits.now }
{
    match limits {
        None => None,
        Some(limits) => Some(limits.as_slice()),
    }
}

/// What becomes of a privilege of the running thread's newest frame.
pub(crate) fn ask_allowed<G: Guard>(
    alloc: Global,
    m: &Machine<'_, '_, G::Mark>,
    guard: &mut G,
    wanted: &Wanted,
) -> Result<Marked<G::Mark>, AllocError>
    requires known { IsKnownIn (G.kept guard.old) (G.entry guard.old) (state_of m.now) (privilege_of wanted.now) }
    ensures answer { IfOk result (λ x. AnswersFor (G.kept guard.old) (G.kept guard.new) (G.entry guard.old) (G.entry guard.new) (G.rules guard.old)
        (privilege_of wanted.now) (carried (state_of m.now)) m.now.guests.running.inherited (Allowed (record { caller = x.caller; context = x.ctx }))) }
    ensures once { OnOk result (G.asked guard.old (privilege_of wanted.now) guard.new) }
    ensures rules { G.rules guard.new ≡ G.rules guard.old }
    ensures keeps { Keeps (G.kept guard.old) (G.kept guard.new) }
    ensures marks { Keeps (G.entry guard.old) (G.entry guard.new) }
{
    let marks = m.marks();
    let inherited = m.guests.running.inherited;
    let limits = limits_of(&wanted.limits);
    ask_privilege(
        alloc,
        guard,
        wanted.domain,
        wanted.ctx,
        wanted.given,
        limits,
        marks,
        inherited,
    )
}
