ghost use Rattle.std.specs.Prelude.{◌≡◌, IfOk, None, OnOk, Some};
ghost use Rattle.jlib.specs.declared.calls.LibCall.TheVariants as calls;
ghost use Rattle.jlib.specs.declared.calls.ThreadCall.TheVariants as threads;
ghost use Rattle.jsemantics.specs.jmachine.AccessQueries.{Inherits, Kept, carried};
ghost use Rattle.jguard.specs.NumberMeanings.{AnswersFor, AskedOnce, IsKnownIn, Keeps};
ghost use Rattle.jruntime.specs.jstate.FrameLists.{Framed};
ghost use Rattle.jstepping.specs.jcore.AnsweredCalls.{Answered, AsksKnown, Calling, asked_of, outcome_of};
ghost use Rattle.jstepping.specs.jcore.MachineOutcomes.{GoesOn};
ghost use Rattle.jstepping.specs.jcore.MachineInvariants.{StaysFixed, state_of};
ghost use Rattle.jcallthread.specs.ThreadCalls.{IsGivenIn, MakesIn};

use crate::turning::went;
use jguard::{Guard, ask_inherit};
use jlib::Side;
use jlibcalls::jthreading::{Given, init_laws, make, named_by};
use jruntime::jrun::Came;
use jstepping::jcore::Machine;
use std::alloc::{AllocError, Global};

/// Asks what a thread keeps that is made with a context.
fn ask<G: Guard>(
    alloc: Global,
    m: &Machine<'_, '_, G::Mark>,
    guard: &mut G,
    context: Option<u64>,
) -> Result<u64, AllocError>
    requires known { IsKnownIn (G.kept guard.old) (G.entry guard.old) (state_of m.now) (Inherits context) }
    ensures answer { IfOk result (λ n. AnswersFor (G.kept guard.old) (G.kept guard.new) (G.entry guard.old) (G.entry guard.new) (G.rules guard.old)
        (Inherits context) (carried (state_of m.now)) m.now.guests.running.inherited (Kept n)) }
    ensures once { OnOk result (G.asked guard.old (Inherits context) guard.new) }
    ensures rules { G.rules guard.new ≡ G.rules guard.old }
    ensures keeps { Keeps (G.kept guard.old) (G.kept guard.new) }
    ensures marks { Keeps (G.entry guard.old) (G.entry guard.new) }
{
    let marks = m.marks();
    ask_inherit(alloc, guard, context, marks, m.guests.running.inherited)
}

/// Makes a thread of what the constructor is given, which keeps this.
fn make_thread<M: Copy>(
    alloc: Global,
    m: &mut Machine<'_, '_, M>,
    side: Side,
    given: Given,
    kept: u64,
    count: usize,
) -> Result<(), AllocError>
    requires calling { Calling m.old count }
    requires given { IsGivenIn m.old side count given }
    ensures made { OnOk result (MakesIn m.old kept count given m.new) }
    ensures fixed { OnOk result (StaysFixed m.old m.new) }
{
    make(
        alloc,
        &mut m.guests,
        &mut m.heap,
        m.fixed.shapes,
        given,
        kept,
        count,
    )?;
    Ok(())
}

/// A step of the running thread that stands at a call of Thread's constructor with so many operands.
pub(crate) fn call_init<G: Guard>(
    alloc: Global,
    m: &mut Machine<'_, '_, G::Mark>,
    guard: &mut G,
    side: Side,
    count: usize,
) -> Result<Came, AllocError>
    requires calling { Calling m.old count }
    requires known { (f : Framed G.Mark) → m.old.guests.running.frames ≡ Some f
        → AsksKnown (G.kept guard.old) (G.entry guard.old) m.old (asked_of m.old f (calls.Thread (threads.Init side)) count) }
    ensures answered { IfOk result (λ done. (f : Framed G.Mark) → m.old.guests.running.frames ≡ Some f
        → Answered (G.kept guard.old) (G.kept guard.new) (G.entry guard.old) (G.entry guard.new) (G.rules guard.old) m.old
        (asked_of m.old f (calls.Thread (threads.Init side)) count) (outcome_of m.old f (calls.Thread (threads.Init side)) count) done m.new) }
    ensures ready { IfOk result (GoesOn m.new) }
    ensures fixed { OnOk result (StaysFixed m.old m.new) }
    ensures rules { G.rules guard.new ≡ G.rules guard.old }
    ensures keeps { Keeps (G.kept guard.old) (G.kept guard.new) }
    ensures marks { Keeps (G.entry guard.old) (G.entry guard.new) }
    ensures quiet { (f : Framed G.Mark) → m.old.guests.running.frames ≡ Some f → asked_of m.old f (calls.Thread (threads.Init side)) count ≡ None
        → guard.new ≡ guard.old }
    ensures once { OnOk result ((f : Framed G.Mark) → m.old.guests.running.frames ≡ Some f
        → AskedOnce G.asked guard.old guard.new (asked_of m.old f (calls.Thread (threads.Init side)) count)) }
{
    init_laws::<G::Mark>();
    let Some(given) = named_by(&m.guests, &m.heap, side, count) else {
        return Ok(Came::Stuck);
    };
    let kept = ask(alloc, m, guard, given.context)?;
    make_thread(alloc, m, side, given, kept, count)?;
    Ok(went(alloc))
}
