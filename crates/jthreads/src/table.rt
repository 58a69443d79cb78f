ghost use Rattle.std.specs.Prelude.{◌≡◌, ◌↔◌, ◌<◌, ◌∷◌, [], IfOk, IfSome, IsTrue, OnErr, length, map, not, slice_set};
ghost use Rattle.std.specs.List.{Contains};
ghost use Rattle.std.specs.Option.{is_none};
ghost use Rattle.std.specs.VecDeque.{deque_capacity};
ghost use Rattle.jthreads.specs.Schedule.{picked};
ghost use Rattle.jthreads.specs.ThreadTables.{added, have_ended, is_started, join_answer, joined, lives_at, opened, runnable_numbers, table_after_end, table_after_start, woken};

use crate::order::keep_order;
use crate::queue::{Queue, list, one_less, one_more};
use crate::schedule::pick;
use crate::thread::Thread;
use std::alloc::{AllocError, Global};
use std::collections::VecDeque;
use std::marker::Model;

/// What a thread that joins another does.
#[derive(Clone, Copy, Debug, PartialEq, Eq)]
pub enum Joined {
    /// It goes on at once.
    AtOnce,
    /// It waits until the other has ended.
    Waits,
}

/// The runnable numbers of a table that has thread 0 alone.
fn first_order(alloc: Global) -> Result<VecDeque<u32>, AllocError>
    ensures items { IfOk result (λ order. order.items ≡ 0 ∷ []) }
    ensures room { IfOk result (λ order. 1 < deque_capacity order) }
{
    let mut order = VecDeque::with_capacity(alloc, 2)?;
    order.push_back(0).unwrap();
    Ok(order)
}

/// The table of guest threads, which contracts see as the list of the threads by their numbers. Thread 0 is there from the
/// start. The numbers of those that can run are kept in order, and of each thread who waits for it, so that nothing is sought.
#[derive(Drop)]
pub struct Threads {
    all: Vec<Thread>,
    queues: Vec<Queue>,
    order: VecDeque<u32>,
}

impl Model for Threads {
    ghost use Rattle.std.specs.Prelude.{List};
    ghost use Rattle.std.specs.VecDeque.{deque_capacity};
    ghost use Rattle.jthreads.specs.declared.thread.Thread.{Thread};
    ghost use Rattle.jthreads.specs.ThreadQueues.{IsTable};

    ghost Value = { List Thread };

    ghost view = { λ a. a.all.items };

    ghost invariant = { λ a. IsTable a.all.items a.queues.items a.order.items (deque_capacity a.order) };
}

impl Threads {
    /// A table that has thread 0 alone, started.
    pub fn open(alloc: Global) -> Result<Threads, AllocError>
        ensures { IfOk result (λ threads. threads ≡ opened) }
    {
        let first = Thread {
            started: true,
            ..Thread::new()
        };
        Ok(Threads {
            all: Vec::from_elem(alloc, first, 1)?,
            queues: Vec::from_elem(alloc, Queue::new(), 1)?,
            order: first_order(alloc)?,
        })
    }

    /// The thread that runs next, where `taken` numbers of the schedule are taken: with s the schedule's next number, or 0 where
    /// the schedule is used up, the (s modulo r)-th, counted from 0, of the r runnable threads. A thread is runnable when it was
    /// started, has not ended and does not wait. None exactly where none is runnable.
    pub fn pick(&self, schedule: &[u32], taken: u64) -> Option<u32>
        ensures value { result ≡ picked schedule.now taken (runnable_numbers self.now) }
        ensures none { IsTrue (is_none result) ↔ (runnable_numbers self.now ≡ []) }
        ensures member { IfSome result (λ t. Contains (runnable_numbers self.now) t) }
    {
        pick(schedule, taken, &self.order)
    }

    /// Whether each started thread has ended.
    pub fn all_ended(&self) -> bool
        ensures { result ≡ have_ended self.now }
    {
        self.all
            .iter()
            .all(|thread| !thread.started || thread.ended)
    }

    /// Puts a thread that isn't started behind the others, and answers its number. After an error the table is unchanged. A
    /// table of 4,294,967,296 threads is full, and answers as if memory had run out.
    pub fn add(&mut self, alloc: Global) -> Result<u32, AllocError>
        ensures number { IfOk result (λ t. t ≡ length self.old) }
        ensures ok { IfOk result (λ _. self.new ≡ added self.old) }
        ensures err { OnErr result (self.new ≡ self.old) }
    {
        let t = self.all.len();
        if t > 4_294_967_295 {
            return Err(AllocError);
        }
        self.order
            .reserve((t + 2).saturating_sub(self.order.len()))?;
        self.queues.reserve(1)?;
        self.all.push(Thread::new())?;
        list(&mut self.queues);
        Ok(t as u32)
    }

    /// Puts another in the place of a thread.
    fn put(&mut self, t: u32, thread: Thread)
        requires there { t < length self.old }
        requires named { IfSome thread.waits_for (λ k. k < length self.old) }
        ensures { self.new ≡ slice_set self.old t thread }
    {
        let old = self.all[t as usize];
        one_less(&mut self.queues, old.waits_for);
        one_more(&mut self.queues, thread.waits_for);
        keep_order(&mut self.order, t, old.may_run(), thread.may_run());
        self.all[t as usize] = thread;
    }

    /// Starts thread `t`, which names a thread. False exactly where it was started already, and then nothing changes.
    pub fn start(&mut self, t: u32) -> bool
        requires { t < length self.old }
        ensures answer { result ≡ not (is_started self.old t) }
        ensures table { self.new ≡ table_after_start t self.old }
    {
        let old = self.all[t as usize];
        self.put(
            t,
            Thread {
                started: true,
                ..old
            },
        );
        !old.started
    }

    /// Lets thread `me` wait for thread `t` where that was started and has not ended; a thread may wait for itself. On any
    /// other thread it goes on at once, and nothing changes. Both numbers name threads.
    pub fn join(&mut self, me: u32, t: u32) -> Joined
        requires caller { me < length self.old }
        requires other { t < length self.old }
        ensures answer { result ≡ join_answer t self.old }
        ensures table { self.new ≡ joined me t self.old }
    {
        if !self.all[t as usize].lives() {
            return Joined::AtOnce;
        }
        let waits = Thread {
            waits_for: Some(t),
            ..self.all[me as usize]
        };
        self.put(me, waits);
        self.queues[me as usize].next = self.queues[t as usize].first;
        self.queues[t as usize].first = me;
        Joined::Waits
    }

    /// Ends thread `t`, which was started and has not ended. The threads that wait for it wait no longer.
    pub fn end(&mut self, t: u32)
        requires named { t < length self.old }
        requires alive { IsTrue (lives_at self.old t) }
        ensures { self.new ≡ table_after_end t self.old }
    {
        let ended = Thread {
            ended: true,
            ..self.all[t as usize]
        };
        self.put(t, ended);
        self.wake(t);
    }

    /// Lets a thread wait no longer where it waits for `t`, and answers which came before it.
    fn wake_one(&mut self, t: u32, waits: u32) -> u32
        ensures { map (woken t) self.new ≡ map (woken t) self.old }
    {
        if waits as usize >= self.all.len() {
            return waits;
        }
        let thread = self.all[waits as usize];
        self.put(waits, thread.without_wait(t));
        self.queues[waits as usize].next
    }

    /// Lets the threads that wait for `t` wait no longer, whichever they are.
    fn wake_each(&mut self, t: u32)
        ensures { self.new ≡ map (woken t) self.old }
    {
        for i in 0..self.all.len() {
            let thread = self.all[i];
            self.put(i as u32, thread.without_wait(t));
        }
    }

    /// Lets the threads that wait for `t` wait no longer. They are those behind the last one that came; where these weren't all, each
    /// thread is looked at.
    fn wake(&mut self, t: u32)
        requires { t < length self.old }
        ensures { self.new ≡ map (woken t) self.old }
    {
        let mut waits = self.queues[t as usize].first;
        for _ in 0..self.queues[t as usize].waiting {
            waits = self.wake_one(t, waits);
        }
        if self.queues[t as usize].waiting != 0 {
            self.wake_each(t);
        }
    }
}
