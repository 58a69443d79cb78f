ghost use Rattle.std.specs.Prelude.{◌≡◌, ◌<◌, IfOk, OnOk};
ghost use Rattle.jsemantics.specs.jmachine.MachineStates.{Outcome};
ghost use Rattle.jruntime.specs.jrun.StepOutcomes.{AreFew, Goes, WhereGoes};

use jground::jbase::Seq;
use joutput::jtrace::{End, Event};
use std::alloc::{AllocError, Global};

/// What a step came to.
#[derive(Debug, Drop)]
pub enum Stepped {
    /// The run goes on, after these events.
    Went { events: Seq<Event> },
    /// The run ended, after these events.
    Ended { events: Seq<Event>, end: End },
}

/// What some steps came to.
#[derive(Debug, Drop)]
pub struct Stretch {
    /// So many went on and told nothing.
    pub quiet: u64,
    /// What the one behind them came to, if there was one.
    pub last: Option<Stepped>,
}

/// A machine that is run step by step. Contracts see the states that it may stand for, and what the definition's step makes of them.
pub trait Stepping {
    /// A state of the definition.
    ghost State: { Type 0 };

    /// What a step comes to.
    ghost steps: { Self → State → Outcome State };

    /// It stands for a state.
    ghost stands: { Self → State → Type 0 };

    /// What holds of it between steps.
    ghost ready: { Self → Type 0 };

    /// Some steps: at least one, and at most so many. After an error nothing is said of it.
    fn go(&mut self, alloc: Global, most: u64) -> Result<Stretch, AllocError>
        requires ready { ready self.old }
        requires some { 0 < most }
        ensures goes { IfOk result (λ made. (s : State) → stands self.old s → Goes (stands self.new) (steps self.old) s made) }
        ensures few { IfOk result (AreFew most) }
        ensures ready { IfOk result (λ made. WhereGoes (ready self.new) made.last) }
        ensures same { OnOk result (steps self.new ≡ steps self.old) };
}
