ghost use Rattle.std.specs.Prelude.{◌≡◌, ℕ, IfOk, None, OnOk, Some, length};
ghost use Rattle.jready.specs.declared.instr.ArrayInstr.TheVariants as arrays;
ghost use Rattle.jready.specs.declared.instr.FlowInstr.TheVariants as flows;
ghost use Rattle.jready.specs.declared.instr.Instr.TheVariants as instrs;
ghost use Rattle.jready.specs.PreparedPrograms.{IsRow};
ghost use Rattle.jruntime.specs.jstate.ObjectCells.{AreCelled};
ghost use Rattle.jruntime.specs.jstate.HeapMeanings.{AreBuilt};
ghost use Rattle.jrows.specs.jcalls.FrameMarks.{AreStanding};
ghost use Rattle.jstepping.specs.jrefs.ReferenceRows.{IsLasting};
ghost use Rattle.jstepping.specs.jstep.StepRelation.{IsFixed};
ghost use Rattle.jstepping.specs.jcore.MachineInvariants.{IsReady, StaysFixed};
ghost use Rattle.jcalling.specs.jexecute.FrameSteps.{Fetches, lasting_by};
ghost use Rattle.jcalling.specs.jexecute.ThreadSteps.{HasRules};
ghost use Rattle.jcalling.specs.jexecute.FastSteps.{Begins, Hastens, IsQuickOf, StayedWithin, Tries, Turns, WereMade, program_of, quick_as, turned_as};

use crate::jexecute::advancing::site_of;
use crate::jexecute::executing::{Executed, finish, kept_counts, linked};
use jmemory::jheap::Heap;
use jparts::jcode::Element;
use jready::{ArrayInstr, FlowInstr, Instr, MethodRow, Push};
use jresolution::juses::Condition;
use jrows::jacts::Way;
use jrows::jcalls::Counts;
use jruntime::jguests::guest_laws;
use jruntime::jstate::Frames;
use jserving::jcells::alike_laws;
use jserving::jinvoke::{Calls, step_laws};
use jstepping::jcore::Machine;
use jstepping::jrefs::Lasting;
use jstepping::jstep::{RunTables, Stepped, behind_laws};
use jstepping::jtold::told_law;
use std::alloc::{AllocError, Global};

/// What a quick try to make a step came to.
#[derive(Clone, Copy, Debug, PartialEq, Eq)]
enum Quick {
    /// It was made: the run goes on in the same method, and nothing is told.
    Went,
    /// There is no step.
    Stuck,
    /// It is left to be made.
    Left,
}

/// Which rows have an instruction.
#[derive(Clone, Copy, Debug, PartialEq, Eq)]
enum Haste {
    /// Those with numbers, a local, the newest items of the stack, or an array of numbers.
    Row,
    /// Those with references.
    Reference,
    /// Calls and returns.
    Turn,
    /// None.
    None,
}

// ---- which instructions

#[inline]
fn haste_of_push(f: Push) -> Haste
    ensures { IsQuickOf (instrs.Push f) result }
{
    match f {
        Push::Int(_) => Haste::Row,
        Push::Long(_) => Haste::Row,
        Push::Text(_) => Haste::None,
    }
}

#[inline]
fn haste_of_jump(when: Condition) -> Haste
    ensures { (to : ℕ) → IsQuickOf (instrs.Flow (flows.Jump when to)) result }
{
    match when {
        Condition::Always => Haste::Row,
        Condition::If(_) => Haste::Row,
        Condition::IfInt(_) => Haste::Row,
        Condition::IfRef(_) => Haste::Reference,
    }
}

#[inline]
fn haste_of_flow(f: FlowInstr) -> Haste
    ensures { IsQuickOf (instrs.Flow f) result }
{
    match f {
        FlowInstr::Jump(when, _) => haste_of_jump(when),
        FlowInstr::Return(_) => Haste::Turn,
        FlowInstr::Throw => Haste::None,
    }
}

#[inline]
fn haste_of_store(e: Element) -> Haste
    ensures { IsQuickOf (instrs.Array (arrays.Store e)) result }
{
    match e {
        Element::Int => Haste::Row,
        Element::Long => Haste::Row,
        Element::Ref => Haste::Reference,
        Element::Byte => Haste::Row,
        Element::Char => Haste::Row,
        Element::Short => Haste::Row,
    }
}

#[inline]
fn haste_of_array(f: ArrayInstr) -> Haste
    ensures { IsQuickOf (instrs.Array f) result }
{
    match f {
        ArrayInstr::New(_) => Haste::Row,
        ArrayInstr::Load(_) => Haste::Row,
        ArrayInstr::Store(e) => haste_of_store(e),
        ArrayInstr::Length => Haste::Row,
    }
}

/// Which rows have an instruction.
#[inline]
fn haste_of(one: Instr) -> Haste
    ensures { IsQuickOf one result }
{
    match one {
        Instr::Off => Haste::None,
        Instr::Plain(_) => Haste::Row,
        Instr::Push(f) => haste_of_push(f),
        Instr::Local(_) => Haste::Row,
        Instr::Stack(_) => Haste::Row,
        Instr::Flow(f) => haste_of_flow(f),
        Instr::Table(_) => Haste::Row,
        Instr::Lookup(_) => Haste::Row,
        Instr::Array(f) => haste_of_array(f),
        Instr::Object(_) => Haste::Reference,
        Instr::Field { .. } => Haste::Reference,
        Instr::Call { .. } => Haste::Turn,
        Instr::Library { .. } => Haste::Turn,
    }
}

// ---- their rows

/// What a row came to. One that raises, throws or finds too few cells has changed nothing, so that it is left to be done.
#[inline]
fn quick_of(way: Way) -> Quick
    ensures { result ≡ quick_as way }
{
    match way {
        Way::Went => Quick::Went,
        Way::Stuck => Quick::Stuck,
        Way::Raises(_) => Quick::Left,
        Way::Throws(_) => Quick::Left,
        Way::Full => Quick::Left,
    }
}

/// A step of a thread, whose newest frame stands at this instruction, if a row makes it quickly.
#[inline]
fn hasten_at<M: Copy>(
    alloc: Global,
    frames: &mut Frames<M>,
    heap: &mut Heap,
    fixed: &RunTables<'_, '_, M>,
    counts: Counts,
    one: Instr,
) -> Result<Quick, AllocError>
    requires fixed { IsFixed (program_of fixed.now) fixed.now }
    requires lasting { IsLasting (lasting_by fixed.now) }
    requires fetches { Fetches (program_of fixed.now) fixed.now frames.old.newest one }
    requires stand { AreStanding (length fixed.now.marks.now) frames.old }
    requires built { AreBuilt heap.old.objects }
    requires celled { AreCelled fixed.now.shapes.now heap.old.objects }
    ensures { IfOk result (λ quick. Hastens (program_of fixed.now) fixed.now counts frames.old heap.old quick frames.new heap.new) }
{
    step_laws::<M>();
    behind_laws::<M>();
    match haste_of(one) {
        Haste::Row => {
            let way = jstepping::jstep::run(alloc, frames, heap, fixed, one)?;
            Ok(quick_of(way))
        }
        Haste::Reference => {
            let x = Lasting {
                ready: fixed.ready,
                shapes: fixed.shapes,
                ancestors: fixed.ancestors,
            };
            let way = jstepping::jrefs::run(alloc, frames, heap, &x, counts, one)?;
            Ok(quick_of(way))
        }
        Haste::Turn => Ok(Quick::Left),
        Haste::None => Ok(Quick::Left),
    }
}

/// Steps of a thread within a method that were made, one after the other.
#[derive(Clone, Copy, Debug, PartialEq, Eq)]
struct Within {
    /// So many went on and told nothing.
    pub steps: u64,
    /// Behind them there is no step.
    pub stuck: bool,
}

/// At most so many steps of a thread whose newest frame is of the method of a row, as long as a row makes them quickly.
fn hasten_within<M: Copy>(
    alloc: Global,
    frames: &mut Frames<M>,
    heap: &mut Heap,
    fixed: &RunTables<'_, '_, M>,
    counts: Counts,
    row: MethodRow,
    most: u64,
) -> Result<Within, AllocError>
    requires fixed { IsFixed (program_of fixed.now) fixed.now }
    requires lasting { IsLasting (lasting_by fixed.now) }
    requires row { IsRow fixed.now.ready.now row }
    requires method { row.id ≡ frames.old.newest.method }
    requires stand { AreStanding (length fixed.now.marks.now) frames.old }
    requires built { AreBuilt heap.old.objects }
    requires celled { AreCelled fixed.now.shapes.now heap.old.objects }
    ensures { IfOk result (λ made. StayedWithin (program_of fixed.now) fixed.now counts row.id most frames.old heap.old made frames.new heap.new) }
{
    let mut steps = 0u64;
    while steps < most {
        let one = fixed.ready.fetch(&row, frames.place());
        match hasten_at(alloc, frames, heap, fixed, counts, one)? {
            Quick::Went => steps += 1,
            Quick::Stuck => return Ok(Within { steps, stuck: true }),
            Quick::Left => {
                return Ok(Within {
                    steps,
                    stuck: false,
                });
            }
        }
    }
    Ok(Within {
        steps,
        stuck: false,
    })
}

/// What a try to make a call or a return came to.
#[derive(Clone, Copy, Debug, PartialEq, Eq)]
enum Turned {
    /// It was made: the run goes on, and nothing is told.
    On,
    /// It came to something else.
    Came(Stepped),
    /// There stands none.
    Left,
}

/// What a call or a return came to.
#[inline]
fn turned_of(came: Stepped) -> Turned
    ensures { result ≡ turned_as came }
{
    match came {
        Stepped::Went => Turned::On,
        Stepped::Ended => Turned::Came(Stepped::Ended),
        Stepped::Handled(class) => Turned::Came(Stepped::Handled(class)),
        Stepped::Uncaught(class) => Turned::Came(Stepped::Uncaught(class)),
        Stepped::Asks { call, count } => Turned::Came(Stepped::Asks { call, count }),
        Stepped::Full => Turned::Came(Stepped::Full),
        Stepped::Stuck => Turned::Came(Stepped::Stuck),
    }
}

/// A step of a thread whose newest frame is of the method of a row, if it stands at a call or a return; else nothing changes.
fn turn<M: Copy>(
    alloc: Global,
    frames: &mut Frames<M>,
    heap: &mut Heap,
    fixed: &RunTables<'_, '_, M>,
    calls: &mut Calls<'_>,
    counts: Counts,
    row: MethodRow,
) -> Result<Turned, AllocError>
    requires fixed { IsFixed calls.old fixed.now }
    requires row { IsRow fixed.now.ready.now row }
    requires method { row.id ≡ frames.old.newest.method }
    requires stand { AreStanding (length fixed.now.marks.now) frames.old }
    requires built { AreBuilt heap.old.objects }
    requires celled { AreCelled fixed.now.shapes.now heap.old.objects }
    ensures turns { IfOk result (λ turned. Turns calls.old fixed.now counts frames.old heap.old turned frames.new heap.new) }
    ensures same { calls.new ≡ calls.old }
{
    let one = fixed.ready.fetch(&row, frames.place());
    match haste_of(one) {
        Haste::Turn => {
            let site = site_of(&row, frames.place());
            let came = jstepping::jstep::step(
                alloc, frames, heap, fixed, calls, counts, one, site,
            )?;
            Ok(turned_of(came))
        }
        Haste::Row => Ok(Turned::Left),
        Haste::Reference => Ok(Turned::Left),
        Haste::None => Ok(Turned::Left),
    }
}

/// Steps of a thread that were made, one after the other, each quick to make.
#[derive(Clone, Copy, Debug, PartialEq, Eq)]
pub(crate) struct Hurried {
    /// So many went on and told nothing.
    pub steps: u64,
    /// Behind them one came to this.
    pub last: Option<Stepped>,
}

/// So many steps, and none behind them.
#[inline]
fn alone(steps: u64) -> Hurried
    ensures { result ≡ record { steps = steps; last = None } }
{
    Hurried { steps, last: None }
}

/// So many steps, and one behind them that came to this.
#[inline]
fn before(steps: u64, came: Stepped) -> Hurried
    ensures { result ≡ record { steps = steps; last = Some came } }
{
    Hurried {
        steps,
        last: Some(came),
    }
}

/// At most so many steps of a thread, as long as they are quick to make.
fn hasten_frames<M: Copy>(
    alloc: Global,
    frames: &mut Frames<M>,
    heap: &mut Heap,
    fixed: &RunTables<'_, '_, M>,
    calls: &mut Calls<'_>,
    counts: Counts,
    most: u64,
) -> Result<Hurried, AllocError>
    requires fixed { IsFixed calls.old fixed.now }
    requires lasting { IsLasting (lasting_by fixed.now) }
    requires stand { AreStanding (length fixed.now.marks.now) frames.old }
    requires built { AreBuilt heap.old.objects }
    requires celled { AreCelled fixed.now.shapes.now heap.old.objects }
    ensures made { IfOk result (λ made. WereMade calls.old fixed.now counts most frames.old heap.old made frames.new heap.new) }
    ensures same { OnOk result (calls.new ≡ calls.old) }
{
    let mut steps = 0u64;
    while steps < most {
        let Some(row) = fixed.ready.row_of(frames.method()) else {
            return Ok(alone(steps));
        };
        let made = hasten_within(alloc, frames, heap, fixed, counts, row, most - steps)?;
        steps += made.steps;
        if made.stuck {
            return Ok(before(steps, Stepped::Stuck));
        }
        if steps == most {
            return Ok(alone(steps));
        }
        match turn(alloc, frames, heap, fixed, calls, counts, row)? {
            Turned::On => steps += 1,
            Turned::Came(came) => return Ok(before(steps, came)),
            Turned::Left => return Ok(alone(steps)),
        }
    }
    Ok(alone(steps))
}

/// The same of a machine's running thread. What is left of the last step behind its frames is still to be done.
fn hurry<M: Copy>(
    alloc: Global,
    m: &mut Machine<'_, '_, M>,
    most: u64,
) -> Result<Hurried, AllocError>
    requires ready { IsReady m.old }
    requires rules { HasRules m.old }
    ensures begins { IfOk result (λ made. Begins most m.old made m.new) }
    ensures fixed { OnOk result (StaysFixed m.old m.new) }
{
    guest_laws::<M>();
    alike_laws::<M>();
    linked(m);
    let counts = kept_counts(m);
    match &mut m.guests.running.frames {
        Some(frames) => hasten_frames(
            alloc,
            frames,
            &mut m.heap,
            &m.fixed,
            &mut m.calls,
            counts,
            most,
        ),
        None => Ok(alone(0)),
    }
}

/// Steps of a machine that were made, one after the other, each quick to make.
#[derive(Debug, Drop)]
pub struct Hasty {
    /// So many went on and told nothing.
    pub steps: u64,
    /// Behind them one came to this.
    pub last: Option<Executed>,
}

/// At most so many steps of the running thread, as long as they are quick to make: they go on and tell nothing, but the last one, if that came to
/// something else. The first that isn't quick is left to be made. After an error nothing is said of the machine.
pub fn hasten<M: Copy>(
    alloc: Global,
    m: &mut Machine<'_, '_, M>,
    most: u64,
) -> Result<Hasty, AllocError>
    requires ready { IsReady m.old }
    requires rules { HasRules m.old }
    ensures tries { IfOk result (λ made. Tries most m.old made m.new) }
    ensures fixed { OnOk result (StaysFixed m.old m.new) }
{
    told_law();
    guest_laws::<M>();
    linked(m);
    let made = hurry(alloc, m, most)?;
    match made.last {
        None => Ok(Hasty {
            steps: made.steps,
            last: None,
        }),
        Some(came) => {
            let done = finish(alloc, m, came)?;
            Ok(Hasty {
                steps: made.steps,
                last: Some(done),
            })
        }
    }
}
