use joutput::jtrace::Event;
use jrows::jtexts::Ran;

/// What a call of the library came to, and what it told.
#[derive(Drop)]
pub(crate) struct Came {
    pub ran: Ran,
    pub told: Option<Event>,
}
