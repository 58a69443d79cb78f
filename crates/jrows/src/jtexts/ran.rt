ghost use Rattle.jrows.specs.jtexts.TextCallOutcomes.{GoesFree};

use jlib::LibClass;
use jvalues::jops::Value;

/// What a call of the library came to.
#[derive(Clone, Copy, Debug, PartialEq, Eq)]
pub enum Ran {
    /// It went, and gives nothing.
    Went,
    /// It gives a value.
    Gave(Value),
    /// An exception of a class is raised, without a message.
    Raises(LibClass),
    /// The heap has too few cells left, and nothing has changed.
    Full,
    /// The state has no step.
    Stuck,
}

/// The law of calls that cost nothing. It has no body to run; its contract is the law.
#[tactic(auto, using(crate::proofs::JtextsProofs::Costs::at_no_cost))]
pub fn ran_laws()
    ensures { GoesFree }
{}
