ghost use Rattle.std.specs.Prelude.{◌≡◌};
ghost use Rattle.jthreads.specs.ThreadTables.{is_alive, is_runnable, unstarted, woken};

/// What the table keeps of a guest thread.
#[derive(Clone, Copy, Debug, PartialEq, Eq)]
pub struct Thread {
    /// Whether it was started.
    pub started: bool,
    /// Whether it has ended.
    pub ended: bool,
    /// The number of the thread that it waits for.
    pub waits_for: Option<u32>,
}

impl Thread {
    /// A thread that isn't started.
    pub(crate) fn new() -> Thread
        ensures { result ≡ unstarted }
    {
        Thread {
            started: false,
            ended: false,
            waits_for: None,
        }
    }

    /// Whether it was started and has not ended.
    pub(crate) fn lives(&self) -> bool
        ensures { result ≡ is_alive self.now }
    {
        self.started && !self.ended
    }

    /// Whether it may run: it was started, has not ended and does not wait.
    pub(crate) fn may_run(&self) -> bool
        ensures { result ≡ is_runnable self.now }
    {
        self.lives() && self.waits_for.is_none()
    }

    /// The thread, which no longer waits where it waited for `t`.
    pub(crate) fn without_wait(self, t: u32) -> Thread
        ensures { result ≡ woken t self }
    {
        match self.waits_for {
            Some(other) if other == t => Thread {
                waits_for: None,
                ..self
            },
            _ => self,
        }
    }
}
