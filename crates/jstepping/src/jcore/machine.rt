ghost use Rattle.std.specs.Prelude.{◌≡◌, reverse};
ghost use Rattle.jsemantics.specs.jmachine.AccessQueries.{carried};
ghost use Rattle.jstepping.specs.jcore.MachineInvariants.{state_of};

use crate::jstep::RunTables;
use jground::jbase::Seq;
use jlib::Side;
use jlibcalls::jconstants::Constants;
use jmemory::jheap::Heap;
use jperm::Permission;
use jruntime::jguests::Guests;
use jsemantics::jmachine::Plan;
use jserving::jinvoke::Calls;

/// A machine by numbers. `M` is what a frame carries.
#[derive(Drop)]
pub struct Machine<'a, 'p, M> {
    /// What stands as long as the program runs.
    pub fixed: RunTables<'a, 'p, M>,
    /// What the run is given besides its program.
    pub plan: &'a Plan,
    /// The library that the program is written for.
    pub side: Side,
    /// The threads.
    pub guests: Guests<M>,
    pub heap: Heap,
    /// The string constants that were made.
    pub constants: Constants<'p>,
    /// What objects of permissions hold, by number.
    pub permissions: Seq<Permission>,
    /// What contexts keep, by number: numbers that the guard gave.
    pub kept: Seq<u64>,
    /// What was asked about calls.
    pub calls: Calls<'a>,
}

impl<M: Copy> Machine<'_, '_, M> {
    /// What the frames of the running thread carry, the oldest first, lent.
    pub fn marks(&self) -> &[M]
        ensures { reverse result.now ≡ carried (state_of self.now) }
    {
        match &self.guests.running.frames {
            Some(frames) => frames.marks(),
            None => &[],
        }
    }
}
