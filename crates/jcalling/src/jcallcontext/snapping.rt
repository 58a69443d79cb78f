ghost use Rattle.std.specs.Prelude.{◌≡◌, IfOk, OnOk, Some};
ghost use Rattle.jsemantics.specs.jmachine.AccessCallRows.{context_made};
ghost use Rattle.jguard.specs.NumberMeanings.{Keeps};
ghost use Rattle.jstepping.specs.jcore.AnsweredCalls.{Calling};
ghost use Rattle.jstepping.specs.jcore.MachineOutcomes.{GoesOn, any};
ghost use Rattle.jstepping.specs.jcore.MachineInvariants.{StaysFixed, store_of};
ghost use Rattle.jcalling.specs.jcallcontext.ContextRequests.{IsSnapshot};
ghost use Rattle.jcalling.specs.jcallcontext.ContextCallRows.{CallAnswered, CallKnown, CallOnce, CallQuiet, ComesBy};

use crate::jcallcontext::asking::ask_kept;
use crate::jcallcontext::finding::snapshot_found;
use jground::jbase::Seq;
use jguard::Guard;
use jlib::LibCall;
use jlibcalls::jchecks::check_laws;
use jlibcalls::jcontexts::snapshot;
use jruntime::jrun::Came;
use jstepping::jcore::{Machine, full, machine_laws};
use std::alloc::{AllocError, Global};

/// The running thread goes on with an AccessControlContext that keeps a number, in the place of so many operands, where there is room for it.
fn give_snapshot<M: Copy>(
    alloc: Global,
    m: &mut Machine<'_, '_, M>,
    number: u64,
    count: usize,
) -> Result<Came, AllocError>
    requires { Calling m.old count }
    ensures comes { IfOk result (λ came. ComesBy m.old count any (Some (context_made (store_of m.old) number)) came m.new) }
    ensures ready { IfOk result (GoesOn m.new) }
    ensures fixed { OnOk result (StaysFixed m.old m.new) }
{
    machine_laws::<M>();
    match &mut m.guests.running.frames {
        Some(frames) => {
            let room = snapshot(alloc, frames, &mut m.heap, &mut m.kept, number, count)?;
            if !room {
                return Ok(full(alloc));
            }
            Ok(Came::Went {
                events: Seq::new(alloc),
            })
        }
        None => unreachable!(),
    }
}

/// A call of getContext with so many operands: what it keeps is asked for, and an AccessControlContext is made that keeps it.
pub fn call_snapshot<G: Guard>(
    alloc: Global,
    m: &mut Machine<'_, '_, G::Mark>,
    guard: &mut G,
    call: LibCall,
    count: usize,
) -> Result<Came, AllocError>
    requires call { IsSnapshot call }
    requires calling { Calling m.old count }
    requires known { CallKnown (G.kept guard.old) (G.entry guard.old) m.old call count }
    ensures answered { IfOk result
        (λ done. CallAnswered (G.kept guard.old) (G.kept guard.new) (G.entry guard.old) (G.entry guard.new) (G.rules guard.old)
        m.old call count done m.new) }
    ensures ready { IfOk result (GoesOn m.new) }
    ensures fixed { OnOk result (StaysFixed m.old m.new) }
    ensures rules { G.rules guard.new ≡ G.rules guard.old }
    ensures keeps { Keeps (G.kept guard.old) (G.kept guard.new) }
    ensures marks { Keeps (G.entry guard.old) (G.entry guard.new) }
    ensures quiet { CallQuiet m.old call count guard.old guard.new }
    ensures once { OnOk result (CallOnce m.old call count G.asked guard.old guard.new) }
{
    check_laws::<G::Mark>();
    match snapshot_found(m, call, count) {
        None => Ok(Came::Stuck),
        Some(ctx) => {
            let number = ask_kept(alloc, m, guard, ctx)?;
            let came = give_snapshot(alloc, m, number, count)?;
            Ok(came)
        }
    }
}
