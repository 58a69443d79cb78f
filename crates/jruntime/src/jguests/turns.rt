ghost use Rattle.std.specs.Prelude.{◌≡◌, ◌<◌, ℕ, Some, IfOk, OnOk, length, not, slice_get, true};
ghost use Rattle.jthreads.specs.ThreadTables.{is_runnable, is_started, join_answer, joined, table_after_end, table_after_start, thread_at};
ghost use Rattle.std.specs.List.{list_any};
ghost use Rattle.jsemantics.specs.jmachine.ThreadTurns.{end_of, guests};
ghost use Rattle.jsemantics.specs.jmachine.Store.{Store};
ghost use Rattle.jruntime.specs.jguests.GuestThreads.{AreGuests, AwaitLiving, HaveStayed, Lives, ended_as, guest_by, guests_of, have_failed, state_by, with_running, with_table};
ghost use Rattle.jruntime.specs.declared.jguests.turns.Turned.TheVariants as turns;
ghost use Rattle.jruntime.specs.jguests.TurnOutcomes.{EndsTurn, Turns};

use crate::jguests::guests::{Guest, Guests, guest_laws, husk};
use joutput::jtrace::End;
use jthreads::{Joined, thread_laws};
use std::alloc::AllocError;

/// What a turn came to.
#[derive(Clone, Copy, Debug, PartialEq, Eq)]
pub enum Turned {
    /// A thread runs.
    Goes,
    /// None can run, and the run has ended.
    Ends(End),
}

/// Whether one of these threads ended by an exception.
fn some_failed<M>(all: &[Guest<M>]) -> bool
    ensures { result ≡ have_failed all.now }
{
    all.iter().any(|g| g.failed)
}

impl<M: Copy> Guests<M> {
    /// Whether a thread ended by an exception.

    fn has_failed(&self) -> bool
        requires { AreGuests self.now }
        ensures { (store : Store ℕ) → result ≡ list_any (λ g. g.failed) (guests (state_by self.now store)) }
    {
        if self.running.failed {
            return true;
        }
        some_failed(self.others.as_slice())
    }

    /// How a run ends in which no thread can run.
    fn end(&self) -> End
        requires { AreGuests self.now }
        ensures { (store : Store ℕ) → result ≡ end_of (state_by self.now store) }
    {
        if !self.table.all_ended() {
            return End::Deadlock;
        }
        if self.has_failed() {
            return End::Uncaught;
        }
        End::Finished
    }

    /// Another thread runs from now on, or the same again.
    fn switch(&mut self, t: u32)
        requires are { AreGuests self.old }
        requires there { t < length self.old.others.items }
        ensures are { AreGuests self.new }
        ensures all { guests_of self.new ≡ guests_of self.old }
        ensures now { slice_get (guests_of self.old) t ≡ Some (guest_by self.new.running) }
        ensures at { self.new.at ≡ t }
        ensures table { self.new.table ≡ self.old.table }
        ensures turns { self.new.turns ≡ self.old.turns }
        ensures stay { HaveStayed self.old self.new }
    {
        let own = std::mem::replace(&mut self.running, husk());
        self.others[self.at as usize] = own;
        self.running = std::mem::replace(&mut self.others[t as usize], husk());
        self.at = t;
    }

    /// Gives the thread its turn that the schedule picks among those that can run. Where none can, the run has ended, and nothing changes.
    /// After an error nothing is said of the threads.
    #[tactic(auto, using(crate::proofs::JguestsProofs::ThreadMembership::same_stay))]
    pub fn turn(&mut self, schedule: &[u32]) -> Result<Turned, AllocError>
        requires { AreGuests self.old }
        ensures are { OnOk result (AreGuests self.new) }
        ensures turn { IfOk result (λ done. Turns schedule.now self.old done self.new) }
        ensures runs { IfOk result (λ done. done ≡ turns.Goes → is_runnable (thread_at self.new.table self.new.at) ≡ true) }
        ensures wait { OnOk result (AwaitLiving self.old.table → AwaitLiving self.new.table) }
        ensures stay { OnOk result (HaveStayed self.old self.new) }
    {
        thread_laws();
        let Some(t) = self.table.pick(schedule, self.turns) else {
            return Ok(Turned::Ends(self.end()));
        };
        let Some(turns) = self.turns.checked_add(1) else {
            return Err(AllocError);
        };
        self.switch(t);
        self.turns = turns;
        Ok(Turned::Goes)
    }

    /// Starts a thread. False exactly where it was started already, and then nothing changes.
    #[tactic(auto, using(crate::proofs::JguestsProofs::ThreadLists::not_there, crate::proofs::JguestsProofs::ThreadLists::start_none))]
    pub fn start(&mut self, t: u64) -> bool
        requires { AreGuests self.old }
        ensures are { AreGuests self.new }
        ensures answer { result ≡ not (is_started self.old.table t) }
        ensures table { self.new ≡ with_table (table_after_start t self.old.table) self.old }
        ensures wait { AwaitLiving self.old.table → AwaitLiving self.new.table }
    {
        if t >= self.others.len() as u64 {
            return true;
        }
        self.table.start(t as u32)
    }

    /// Lets the thread that runs wait for another that was started and has not ended. On any other it goes on at once, and nothing changes.
    #[tactic(auto, using(crate::proofs::JguestsProofs::ThreadLists::join_none, crate::proofs::JguestsProofs::ThreadLists::joined_none))]
    pub fn join(&mut self, t: u64) -> Joined
        requires { AreGuests self.old }
        ensures are { AreGuests self.new }
        ensures answer { result ≡ join_answer t self.old.table }
        ensures table { self.new ≡ with_table (joined self.old.at t self.old.table) self.old }
        ensures wait { AwaitLiving self.old.table → AwaitLiving self.new.table }
    {
        if t >= self.others.len() as u64 {
            return Joined::AtOnce;
        }
        self.table.join(self.at, t as u32)
    }

    /// The thread that runs has ended, by an exception or not. It was runnable; none waits for it from now on.
    pub fn end_running(&mut self, failed: bool)
        requires are { AreGuests self.old }
        requires lives { Lives self.old }
        ensures are { AreGuests self.new }
        ensures table { self.new ≡ with_table (table_after_end self.old.at self.old.table)
            (with_running (ended_as failed self.old.running) self.old) }
        ensures wait { AwaitLiving self.new.table }
    {
        self.running.frames = None;
        self.running.failed = failed;
        self.table.end(self.at);
    }

    /// Ends the thread that runs, by an exception or not, and gives another its turn. Where none can run the run has ended. After an error
    /// nothing is said of the threads.
    pub fn end_turn(&mut self, schedule: &[u32], failed: bool) -> Result<Turned, AllocError>
        requires are { AreGuests self.old }
        requires lives { Lives self.old }
        ensures are { OnOk result (AreGuests self.new) }
        ensures turn { IfOk result (λ done. EndsTurn schedule.now failed self.old done self.new) }
        ensures lives { IfOk result (λ done. done ≡ turns.Goes → Lives self.new) }
        ensures stay { OnOk result (HaveStayed (with_running (ended_as failed self.old.running) self.old) self.new) }
    {
        guest_laws::<M>();
        self.end_running(failed);
        self.turn(schedule)
    }
}
