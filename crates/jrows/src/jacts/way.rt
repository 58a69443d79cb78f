ghost use Rattle.jrows.specs.jacts.RowOutcomes.{GoesFree};

use jlib::LibClass;

/// What is to be done behind a row.
#[derive(Clone, Copy, Debug, PartialEq, Eq)]
pub enum Way {
    /// Nothing: its frame stands where it goes on.
    Went,
    /// An exception of a class is raised, without a message.
    Raises(LibClass),
    /// The object of a number is thrown.
    Throws(u32),
    /// The heap has too few cells left, and nothing has changed.
    Full,
    /// The state has no step.
    Stuck,
}

/// The law of rows that cost nothing. It has no body to run; its contract is the law.
#[tactic(auto, using(crate::proofs::JactsProofs::Costs::goes_free))]
pub fn way_laws<M>()
    ensures { GoesFree M }
{}
