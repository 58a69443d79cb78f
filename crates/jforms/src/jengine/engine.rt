ghost use Rattle.std.specs.Prelude.{◌≡◌, None, IfOk, OnErr, OnOk, false, is_err, true};
ghost use Rattle.jtyping.specs.jwelltyped.VerifierTests.{WellTyped};
ghost use Rattle.jsemantics.specs.jmachine.MachineStates.{State};
ghost use Rattle.jsemantics.specs.jmachine.Machine.{opening};
ghost use Rattle.jsemantics.specs.jmachine.OpeningState.{opening_state};
ghost use Rattle.jsemantics.specs.jmachine.MachineSteps.{step as steps_by};
ghost use Rattle.jguard.specs.NumberMeanings.{AskedOnce, Keeps};
ghost use Rattle.jruntime.specs.jrun.StepOutcomes.{ComesTo, WhereWent, came_as};
ghost use Rattle.jsoundness_laws.specs.library.YieldLaws.{AreSided};
ghost use Rattle.jforms.specs.jtables.RunPositions.{AreLive, Holds, Runs, Stands, asks_of, end_in, end_of, is_lost, steps};
ghost use Rattle.jresolution.specs.jprogram.MemberResolution.{IsMain};
ghost use Rattle.jforms.specs.jtables.RunTables.{IsGround};

use crate::jengine::moving::move_on;
use crate::jtables::{Course, EngineTables, course_of, is_sound, leave, put, start};
use jguard::Guard;
use jlinking::jlink::LinkedProgram;
use joutput::jtrace::End;
use jruntime::jrun::Stepped;
use jsemantics::jmachine::Plan;
use std::alloc::{AllocError, Global};
use std::marker::Model;

/// The run of a program, step by step, by the rules of a guard that answers what its steps ask (class documentation of AccessController).
/// Contracts see the states that its numbers and marks stand for, by what its guard gave. Between steps the machine and its guard are such as
/// can be run: that is the invariant, so that no step asks for it.
#[derive(Drop)]
pub struct Engine<'a, 'p, G: Guard> {
    guard: G,
    course: Course<'a, 'p, G::Mark>,
}

impl<'a, 'p, G: Guard> Model for Engine<'a, 'p, G> {
    ghost use Rattle.jforms.specs.jtables.RunPositions.{Coursed, Holds};

    ghost Value = { Coursed G G.Mark };

    ghost view = { λ e. record { guard = e.guard; course = e.course } };

    ghost invariant = { λ e. Holds (G.kept e.guard) (G.entry e.guard) G.mark (G.rules e.guard) e.course };
}

/// One step of a course. After an error nothing is said of it.
fn go_on<G: Guard>(
    alloc: Global,
    course: &mut Course<'_, '_, G::Mark>,
    guard: &mut G,
) -> Result<Stepped, AllocError>
    requires holds { Holds (G.kept guard.old) (G.entry guard.old) G.mark (G.rules guard.old) course.old }
    requires goes { end_of course.old ≡ None }
    ensures comes { IfOk result (λ came. (s : State G.Kept G.Entry) → Stands (G.kept guard.old) (G.entry guard.old) course.old s
        → ComesTo (λ t. Stands (G.kept guard.new) (G.entry guard.new) course.new t) (steps (G.rules guard.old) course.old s) (came_as came)) }
    ensures holds { IfOk result
        (λ came. WhereWent (Holds (G.kept guard.new) (G.entry guard.new) G.mark (G.rules guard.new) course.new) (came_as came)) }
    ensures same { OnOk result (steps (G.rules guard.new) course.new ≡ steps (G.rules guard.old) course.old) }
    ensures runs { OnOk result (Runs course.new) }
    ensures again { is_lost course.old ≡ true → is_err result ≡ true }
    ensures rules { G.rules guard.new ≡ G.rules guard.old }
    ensures keeps { Keeps (G.kept guard.old) (G.kept guard.new) }
    ensures marks { Keeps (G.entry guard.old) (G.entry guard.new) }
    ensures quiet { asks_of course.old ≡ None → guard.new ≡ guard.old }
    ensures once { OnOk result (AskedOnce G.asked guard.old guard.new (asks_of course.old)) }
{
    match course {
        Course::Runs { machine } => {
            let came = move_on(alloc, machine, guard)?;
            Ok(came)
        }
        Course::Ended { .. } => unreachable!(),
        Course::Lost => Err(AllocError),
    }
}

impl<'a, 'p, G: Guard + Drop> Engine<'a, 'p, G> {
    /// The engine that stands at the beginning of a run of a program that links and is well typed, by the rules of a guard of the program's side,
    /// which hand contexts over by it. The run begins with the `main` of a class. So each state of it has a step.
    /// Where the heap has too few cells for what is made then (`System.out`, the strings of ConstantValue attributes and the array that `main` is
    /// given: JVMS 4.7.2, 5.2), the run has ended as `HeapFull`. A plan of 2,147,483,648 cells or more finds no memory, and want of memory may
    /// come at any time.
    pub fn open(
        alloc: Global,
        base: &'a EngineTables<'p, G::Mark>,
        program: &'p LinkedProgram,
        plan: &'a Plan,
        guard: G,
    ) -> Result<Engine<'a, 'p, G>, AllocError>
        requires base { IsGround program.now G.mark base.now }
        requires typed { WellTyped program.now }
        requires main { IsMain program.now plan.now.main }
        requires side { (G.rules guard).side ≡ program.now.side }
        requires sided { AreSided (G.rules guard) }
        ensures stands { IfOk result (λ e. end_of e.course ≡ None
            → Stands (G.kept e.guard) (G.entry e.guard) e.course (opening_state (G.rules guard) program.now plan.now.main plan.now.heap)) }
        ensures steps { IfOk result (λ e. end_of e.course ≡ None → steps (G.rules e.guard) e.course ≡ steps_by (G.rules guard) program.now plan.now) }
        ensures ended { IfOk result (λ e. end_of e.course ≡ (opening (G.rules guard) program.now plan.now).end) }
        ensures found { IfOk result (λ e. is_lost e.course ≡ false) }
        ensures threads { IfOk result (λ e. AreLive (G.kept e.guard) (G.entry e.guard) e.course) }
        ensures rules { IfOk result (λ e. G.rules e.guard ≡ G.rules guard) }
    {
        let mut guard = guard;
        if plan.heap >= 0x8000_0000 {
            return Err(AllocError);
        }
        is_sound(program);
        let begun = start(alloc, base, program, plan, &mut guard)?;
        Ok(Engine {
            guard,
            course: course_of(begun),
        })
    }

    /// One step of a run that has not ended. What it tells is answered; where it ends the run, that is its end. Where it found no memory, each
    /// later step finds none. What was given keeps what it stands for. What a step asks it asks once, and a step that asks nothing leaves the
    /// guard as it is. Behind each step the running thread is runnable, and no thread waits for one that has ended.
    pub fn step(&mut self, alloc: Global) -> Result<Stepped, AllocError>
        requires goes { end_of self.old.course ≡ None }
        ensures comes { IfOk result (λ came. (s : State G.Kept G.Entry) → Stands (G.kept self.old.guard) (G.entry self.old.guard) self.old.course s
            → ComesTo (λ t. Stands (G.kept self.new.guard) (G.entry self.new.guard) self.new.course t)
            (steps (G.rules self.old.guard) self.old.course s) (came_as came)) }
        ensures same { IfOk result
            (λ came. WhereWent (steps (G.rules self.new.guard) self.new.course ≡ steps (G.rules self.old.guard) self.old.course) (came_as came)) }
        ensures ended { IfOk result (λ came. end_of self.new.course ≡ end_in came) }
        ensures found { OnOk result (is_lost self.new.course ≡ false) }
        ensures lost { OnErr result (is_lost self.new.course ≡ true) }
        ensures again { is_lost self.old.course ≡ true → is_err result ≡ true }
        ensures threads { AreLive (G.kept self.new.guard) (G.entry self.new.guard) self.new.course }
        ensures rules { G.rules self.new.guard ≡ G.rules self.old.guard }
        ensures keeps { Keeps (G.kept self.old.guard) (G.kept self.new.guard) }
        ensures marks { Keeps (G.entry self.old.guard) (G.entry self.new.guard) }
        ensures quiet { asks_of self.old.course ≡ None → self.new.guard ≡ self.old.guard }
        ensures once { OnOk result (AskedOnce G.asked self.old.guard self.new.guard (asks_of self.old.course)) }
    {
        let gone = go_on(alloc, &mut self.course, &mut self.guard);
        match gone {
            Ok(came) => {
                leave(&mut self.course, &came);
                Ok(came)
            }
            Err(fault) => {
                put(&mut self.course, Course::Lost);
                Err(fault)
            }
        }
    }

    /// The guard as it stands.
    pub fn guard(&self) -> &G
        ensures { result.now ≡ self.now.guard }
    {
        &self.guard
    }

    /// The end of the run, if it has ended.
    pub fn ended(&self) -> Option<End>
        ensures { result ≡ end_of self.now.course }
    {
        match self.course {
            Course::Ended { end } => Some(end),
            _ => None,
        }
    }
}
