ghost use Rattle.std.specs.Prelude.{◌≡◌};
ghost use Rattle.jforms.specs.jtables.RunPositions;
ghost use Rattle.jforms.specs.jtables.RunPositions.{left_by};

use joutput::jtrace::End;
use jruntime::jrun::Stepped;
use jstepping::jcore::Machine;
use std::mem::replace;

/// Where the run of an engine is.
#[derive(Drop)]
pub enum Course<'a, 'p, M> {
    /// It goes on.
    Runs { machine: Machine<'a, 'p, M> },
    /// It has ended.
    Ended { end: End },
    /// A step found no memory.
    Lost,
}

/// A course begins with a machine; where there is none, the heap had too few cells.
pub fn course_of<'a, 'p, M>(begun: Option<Machine<'a, 'p, M>>) -> Course<'a, 'p, M>
    ensures { result ≡ RunPositions.course_of begun.entry }
{
    match begun {
        None => Course::Ended { end: End::HeapFull },
        Some(machine) => Course::Runs { machine },
    }
}

/// A course is another from here.
pub fn put<'a, 'p, M: Copy>(course: &mut Course<'a, 'p, M>, new: Course<'a, 'p, M>)
    ensures { course.new ≡ new.entry }
{
    let old = replace(course, new);
    drop(old);
}

/// Where a step leaves a course: one that ended the run is its end.
pub fn leave<M: Copy>(course: &mut Course<'_, '_, M>, came: &Stepped)
    ensures { course.new ≡ left_by course.old came.now }
{
    match came {
        Stepped::Went { .. } => {}
        Stepped::Ended { end, .. } => put(course, Course::Ended { end: *end }),
    }
}
