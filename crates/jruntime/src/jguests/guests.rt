ghost use Rattle.std.specs.Prelude.{◌≡◌, ◌∷◌, ◌++◌, [], Some, None, false, IfOk, OnOk, length};
ghost use Rattle.jruntime.specs.jguests.GuestThreads.{AreGuests, HaveStayed, Lives, NoneWait, RunsAs, guest_by, guests_of, nobody};
ghost use Rattle.jthreads.specs.ThreadTables.{added, opened};

use crate::jstate::Frames;
use jthreads::Threads;
use std::alloc::{AllocError, Global};

/// A guest thread.
#[derive(Drop)]
pub struct Guest<M> {
    /// Its frames; none before it begins and behind its end.
    pub frames: Option<Frames<M>>,
    /// What it inherited, by number; the first thread nothing.
    pub inherited: Option<u64>,
    /// The object whose `run` it begins with, 0 for none.
    pub runnable: u32,
    /// It ended by an exception.
    pub failed: bool,
}

/// The guest threads of a machine. The one that runs stands beside the others, so that a step needn't look for it.
#[derive(Drop)]
pub struct Guests<M> {
    /// The thread that runs.
    pub running: Guest<M>,
    /// All threads by their numbers; in the place of the one that runs is another one's husk.
    pub others: Vec<Guest<M>>,
    /// The number of the thread that runs.
    pub at: u32,
    /// Which were started, have ended and wait.
    pub table: Threads,
    /// How many turns the schedule has given.
    pub turns: u64,
}

/// A thread without frames, in whose place another runs.
pub(crate) fn husk<M>() -> Guest<M>
    ensures { result ≡ nobody }
{
    Guest {
        frames: None,
        inherited: None,
        runnable: 0,
        failed: false,
    }
}

impl<M: Copy> Guests<M> {
    /// The first thread alone, with its frames.
    #[tactic(auto, using(crate::proofs::JguestsProofs::ThreadMembership::husk_waits))]
    pub fn open(alloc: Global, frames: Frames<M>) -> Result<Guests<M>, AllocError>
        ensures are { IfOk result AreGuests }
        ensures one { IfOk result
            (λ g. guests_of g ≡ guest_by (record { frames = Some frames; inherited = None; runnable = 0; failed = false }) ∷ []) }
        ensures now { IfOk result (λ g. g.running ≡ record { frames = Some frames; inherited = None; runnable = 0; failed = false }) }
        ensures alone { IfOk result NoneWait }
        ensures lives { IfOk result Lives }
        ensures table { IfOk result (λ g. g.table ≡ opened) }
        ensures turns { IfOk result (λ g. g.turns ≡ 0) }
        ensures at { IfOk result (λ g. g.at ≡ 0) }
    {
        let table = Threads::open(alloc)?;
        let mut others = Vec::new(alloc);
        others.push(husk())?;
        let running = Guest {
            frames: Some(frames),
            inherited: None,
            runnable: 0,
            failed: false,
        };
        Ok(Guests {
            running,
            others,
            at: 0,
            table,
            turns: 0,
        })
    }

    /// Puts a thread that isn't started behind the others, and answers its number. After an error nothing is said of them.
    pub fn add(
        &mut self,
        alloc: Global,
        runnable: u32,
        inherited: Option<u64>,
    ) -> Result<u32, AllocError>
        requires { AreGuests self.old }
        ensures are { OnOk result (AreGuests self.new) }
        ensures number { IfOk result (λ t. t ≡ length self.old.table) }
        ensures one_more { OnOk result
            (guests_of self.new ≡ guests_of self.old ++ (record { frames = []; inherited = inherited; runnable = runnable; failed = false }) ∷ []) }
        ensures table { OnOk result (self.new.table ≡ added self.old.table) }
        ensures turns { OnOk result (self.new.turns ≡ self.old.turns) }
        ensures at { OnOk result (self.new.at ≡ self.old.at) }
        ensures now { OnOk result (self.new.running ≡ self.old.running) }
        ensures lives { OnOk result (Lives self.old → Lives self.new) }
        ensures stay { OnOk result (HaveStayed self.old self.new) }
    {
        let number = self.table.add(alloc)?;
        self.others.push(Guest {
            frames: None,
            inherited,
            runnable,
            failed: false,
        })?;
        Ok(number)
    }
}

/// The law of the thread that runs: another in its place changes nothing else of the state. It has no body to run; its contract is the law.
#[tactic(auto, using(crate::proofs::JguestsProofs::ThreadLists::runs_as))]
pub fn guest_laws<M>()
    ensures { RunsAs M }
{}
