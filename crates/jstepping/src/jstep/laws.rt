ghost use Rattle.jstepping.specs.jstep.RowSuccessors.{Follows};

/// The law of what stands behind a row: where a row did what is to be done, the machine's step is what is made of what the row left.
/// It has no body to run; its contract is the law.
#[tactic(auto, using(crate::proofs::JstepProofs::RowSimulation::follows))]
pub fn behind_laws<M>()
    ensures { Follows M }
{}
