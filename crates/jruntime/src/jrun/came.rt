use jground::jbase::Seq;
use joutput::jtrace::{End, Event};

/// What a step came to, in the rooms that make one: they don't know whether the state has a step.
#[derive(Debug, Drop)]
pub enum Came {
    /// The run goes on, after these events.
    Went { events: Seq<Event> },
    /// The run ended, after these events.
    Ended { events: Seq<Event>, end: End },
    /// There is no step.
    Stuck,
}
