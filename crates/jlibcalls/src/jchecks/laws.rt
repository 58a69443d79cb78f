ghost use Rattle.jlibcalls.specs.jchecks.PermissionVerdicts.{NothingSteps, NullRaises};

/// The laws of checks that ask nothing: null raises an exception, and what holds no permission is stuck. They have no body to run; the
/// contract is the laws.
#[tactic(auto, using(crate::proofs::JchecksProofs::CheckOutcomes::null_raises, crate::proofs::JchecksProofs::CheckOutcomes::nothing_steps))]
pub fn check_laws<M>()
    ensures null { NullRaises M }
    ensures nothing { NothingSteps M }
{}
