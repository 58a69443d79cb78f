ghost use Rattle.std.specs.Prelude.{◌≡◌, ◌∷◌, [], IfOk, OnOk, Some};
ghost use Rattle.jlib.specs.declared.calls.LibCall.TheVariants as calls;
ghost use Rattle.jlib.specs.declared.calls.RtCall.TheVariants as rt;
ghost use Rattle.jvalues.specs.declared.jops.value.Value.TheVariants.{Ctx};
ghost use Rattle.jsemantics.specs.jmachine.MachineStates.{gives};
ghost use Rattle.jguard.specs.NumberMeanings.{Keeps};
ghost use Rattle.jstepping.specs.jcore.AnsweredCalls.{Calling};
ghost use Rattle.jstepping.specs.jcore.MachineOutcomes.{GoesOn, any};
ghost use Rattle.jstepping.specs.jcore.MachineInvariants.{StaysFixed, store_of};
ghost use Rattle.jcalling.specs.jcallcontext.ContextCallRows.{CallAnswered, CallKnown, CallOnce, CallQuiet, ComesBy};

use crate::jcallcontext::asking::ask_entered;
use crate::jcallcontext::finding::entering_found;
use jground::jbase::Seq;
use jguard::Guard;
use jlibcalls::jchecks::check_laws;
use jlibcalls::jcontexts::enter;
use jruntime::jrun::Came;
use jstepping::jcore::{Machine, machine_laws};
use std::alloc::{AllocError, Global};

/// The running thread goes on with the context of a number, in the place of so many operands.
fn give_context<M: Copy>(
    alloc: Global,
    m: &mut Machine<'_, '_, M>,
    number: u64,
    count: usize,
) -> Result<Came, AllocError>
    requires { Calling m.old count }
    ensures comes { IfOk result (λ came. ComesBy m.old count any (Some (gives (store_of m.old) (Ctx number ∷ []))) came m.new) }
    ensures ready { IfOk result (GoesOn m.new) }
    ensures fixed { OnOk result (StaysFixed m.old m.new) }
{
    machine_laws::<M>();
    match &mut m.guests.running.frames {
        Some(frames) => {
            enter(frames, count, number)?;
            Ok(Came::Went {
                events: Seq::new(alloc),
            })
        }
        None => unreachable!(),
    }
}

/// A call with so many operands by which a method of a domain is entered: the context of the method is asked for, and given.
pub fn call_enter<G: Guard>(
    alloc: Global,
    m: &mut Machine<'_, '_, G::Mark>,
    guard: &mut G,
    count: usize,
) -> Result<Came, AllocError>
    requires calling { Calling m.old count }
    requires known { CallKnown (G.kept guard.old) (G.entry guard.old) m.old (calls.Rt rt.Enter) count }
    ensures answered { IfOk result
        (λ done. CallAnswered (G.kept guard.old) (G.kept guard.new) (G.entry guard.old) (G.entry guard.new) (G.rules guard.old)
        m.old (calls.Rt rt.Enter) count done m.new) }
    ensures ready { IfOk result (GoesOn m.new) }
    ensures fixed { OnOk result (StaysFixed m.old m.new) }
    ensures rules { G.rules guard.new ≡ G.rules guard.old }
    ensures keeps { Keeps (G.kept guard.old) (G.kept guard.new) }
    ensures marks { Keeps (G.entry guard.old) (G.entry guard.new) }
    ensures quiet { CallQuiet m.old (calls.Rt rt.Enter) count guard.old guard.new }
    ensures once { OnOk result (CallOnce m.old (calls.Rt rt.Enter) count G.asked guard.old guard.new) }
{
    check_laws::<G::Mark>();
    match entering_found(m, count) {
        None => Ok(Came::Stuck),
        Some(one) => {
            let number = ask_entered(alloc, m, guard, one)?;
            let came = give_context(alloc, m, number, count)?;
            Ok(came)
        }
    }
}
