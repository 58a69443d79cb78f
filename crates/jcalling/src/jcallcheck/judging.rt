ghost use Rattle.std.specs.Prelude.{◌≡◌, ◌∷◌, [], Some, IfOk, OnOk};
ghost use Rattle.jsemantics.specs.jmachine.MachineStates.{null};
ghost use Rattle.jsemantics.specs.jmachine.Security.{judged};
ghost use Rattle.jsemantics.specs.jmachine.ThreadTurns.{thread_of};
ghost use Rattle.jstepping.specs.jcore.AnsweredCalls.{Calling};
ghost use Rattle.jstepping.specs.jcore.MachineOutcomes.{GoesOn};
ghost use Rattle.jstepping.specs.jcore.MachineInvariants.{StaysFixed, state_of, store_of};
ghost use Rattle.jcalling.specs.jcallcheck.CheckOutcomes.{ComesBy, JudgedOn, NullRaisedOn, event_by};

use jdomain::Verdict;
use jground::jbase::Seq;
use jlib::{LibClass, Thrown};
use jlibcalls::jchecks::{Judged, check_laws, judge};
use joutput::jtrace::Event;
use jperm::Permission;
use jresolution::jprogram::ClassRef;
use jrows::jcalls::{Raised, raise};
use jruntime::jguests::guest_laws;
use jruntime::jrun::Came;
use jruntime::jstate::{heap_laws, thrown_number};
use jserving::jinvoke::{ThrownAs, told_law};
use jstepping::jcore::{Machine, settle_raised};
use std::alloc::{AllocError, Global};

// ---- null

/// Raises a NullPointerException in the running thread's frames, with so many operands gone.
fn raise_null<M: Copy>(
    alloc: Global,
    m: &mut Machine<'_, '_, M>,
    count: usize,
) -> Result<Raised, AllocError>
    requires calling { Calling m.old count }
    ensures { IfOk result (λ way. NullRaisedOn m.old count way m.new) }
{
    told_law::<M>();
    check_laws::<M>();
    heap_laws();
    let handlers = ThrownAs {
        known: m.calls.known(),
        class: ClassRef::Lib(LibClass::Thrown(Thrown::NullPointerException)),
    };
    match &mut m.guests.running.frames {
        Some(frames) => {
            frames.shrink(count);
            let class = Thrown::NullPointerException;
            let way = raise(
                alloc,
                frames,
                &mut m.heap,
                class,
                thrown_number(class),
                m.fixed.marks,
                &handlers,
            )?;
            Ok(way)
        }
        None => unreachable!(),
    }
}

/// A check of null, which asks nothing, raises a NullPointerException.
pub(crate) fn check_null<M: Copy>(
    alloc: Global,
    m: &mut Machine<'_, '_, M>,
    count: usize,
) -> Result<Came, AllocError>
    requires calling { Calling m.old count }
    ensures comes { IfOk result (λ came. ComesBy m.old count (Some null) came m.new) }
    ensures ready { IfOk result (GoesOn m.new) }
    ensures fixed { OnOk result (StaysFixed m.old m.new) }
{
    guest_laws::<M>();
    let way = raise_null(alloc, m, count)?;
    let class = ClassRef::Lib(LibClass::Thrown(Thrown::NullPointerException));
    let done = settle_raised(alloc, m, way, class, Seq::new(alloc))?;
    Ok(done)
}

// ---- a verdict

/// Does what a verdict says to the running thread's frames.
fn judge_here<M: Copy>(
    alloc: Global,
    m: &mut Machine<'_, '_, M>,
    asked: &Permission,
    verdict: Verdict,
    count: usize,
) -> Result<Judged, AllocError>
    requires calling { Calling m.old count }
    ensures { IfOk result (λ way. JudgedOn m.old asked.now verdict count way m.new) }
{
    told_law::<M>();
    let handlers = ThrownAs {
        known: m.calls.known(),
        class: ClassRef::Lib(LibClass::AccessControlException),
    };
    match &mut m.guests.running.frames {
        Some(frames) => {
            let way = judge(
                alloc,
                frames,
                &mut m.heap,
                asked,
                verdict,
                count,
                m.fixed.marks,
                &handlers,
            )?;
            Ok(way)
        }
        None => unreachable!(),
    }
}

/// What is told of a verdict.
fn event_of(thread: u32, asked: Permission, verdict: Verdict) -> Event
    ensures { result ≡ event_by thread asked verdict }
{
    match verdict {
        Verdict::Granted => Event::Grant { thread, asked },
        Verdict::Denied(domain) => Event::Deny {
            thread,
            asked,
            domain,
        },
    }
}

/// That alone.
fn told_of(
    alloc: Global,
    thread: u32,
    asked: Permission,
    verdict: Verdict,
) -> Result<Seq<Event>, AllocError>
    ensures { IfOk result (λ told. told ≡ event_by thread asked verdict ∷ []) }
{
    let mut told = Seq::new(alloc);
    told.push(event_of(thread, asked, verdict))?;
    Ok(told)
}

/// Goes on by a verdict behind a check of a permission by the running thread: a granted check is told, and a denied one is told and raises
/// an AccessControlException.
pub(crate) fn decide<M: Copy>(
    alloc: Global,
    m: &mut Machine<'_, '_, M>,
    asked: Permission,
    verdict: Verdict,
    count: usize,
) -> Result<Came, AllocError>
    requires calling { Calling m.old count }
    ensures comes { IfOk result (λ came. ComesBy m.old count (Some (judged (store_of m.old) (thread_of (state_of m.old)) asked verdict)) came m.new) }
    ensures ready { IfOk result (GoesOn m.new) }
    ensures fixed { OnOk result (StaysFixed m.old m.new) }
{
    guest_laws::<M>();
    let way = judge_here(alloc, m, &asked, verdict, count)?;
    let told = told_of(alloc, m.guests.at, asked, verdict)?;
    match way {
        Judged::Granted => Ok(Came::Went { events: told }),
        Judged::Denied(way) => {
            let class = ClassRef::Lib(LibClass::AccessControlException);
            let done = settle_raised(alloc, m, way, class, told)?;
            Ok(done)
        }
    }
}
