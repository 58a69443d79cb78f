ghost use Rattle.std.specs.Prelude.{◌≡◌, IfSome};
ghost use Rattle.joutput.specs.jtally.EventCounts.{counted, none, with_event};

use crate::jtrace::{End, Event};

/// How many checks were granted and denied, how many exceptions were raised, and how many texts were printed.
#[rattlefmt::skip]
#[derive(Clone, Copy, Debug, PartialEq, Eq)]
pub struct Counts { pub grants: u64, pub denials: u64, pub throws: u64, pub outs: u64 }

/// What is told of a run that is counted: its counts, and how it ended.
#[rattlefmt::skip]
#[derive(Clone, Copy, Debug, PartialEq, Eq)]
pub struct Tally { pub counts: Counts, pub end: End }

impl Counts {
    /// Nothing was told.
    pub fn none() -> Counts
        ensures { result ≡ none }
    {
        Counts {
            grants: 0,
            denials: 0,
            throws: 0,
            outs: 0,
        }
    }

    /// One more event; none where its count is above 64 bits.
    fn with(self, event: &Event) -> Option<Counts>
        ensures { IfSome result (λ n. n ≡ with_event self event.now) }
    {
        let mut more = self;
        match event {
            Event::Grant { .. } => more.grants = self.grants.checked_add(1)?,
            Event::Deny { .. } => more.denials = self.denials.checked_add(1)?,
            Event::Throw { .. } => more.throws = self.throws.checked_add(1)?,
            Event::Out { .. } => more.outs = self.outs.checked_add(1)?,
            Event::Uncaught { .. } => {}
        }
        Some(more)
    }

    /// Some more events, one after the other; none where a count is above 64 bits.
    pub fn with_all(self, events: &[Event]) -> Option<Counts>
        ensures { IfSome result (λ n. n ≡ counted self events.now) }
    {
        let mut counts = self;
        for event in events {
            counts = counts.with(event)?;
        }
        Some(counts)
    }
}
