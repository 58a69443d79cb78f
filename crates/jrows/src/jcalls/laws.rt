ghost use Rattle.jrows.specs.jcalls.CallLaws.{AsksNothing, AsksWhatRuns, TargetsWhatRuns};

/// The laws of a step that executes a call, by what the call came to: where a member of the library runs, it is the call's target by the
/// operands that serve, and the step asks what that member does of them; else the step asks nothing. It has no body to run; its contract
/// is the laws.
#[tactic(auto, using(crate::proofs::JcallsProofs::CallSteps::targets, crate::proofs::JcallsProofs::CallSteps::asks, crate::proofs::JcallsProofs::CallSteps::asks_nothing,),)]
pub fn call_laws<M>()
    ensures target { TargetsWhatRuns M }
    ensures asked { AsksWhatRuns M }
    ensures nothing { AsksNothing M }
{}
