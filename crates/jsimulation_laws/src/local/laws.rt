ghost use Rattle.jsimulation_laws.specs.local.InitialStates.{BeginsInFour};
ghost use Rattle.jsimulation_laws.specs.relation.StateRelation.{FollowsInFew, LocallyFollows};

use jctx::context_laws;

/// The local simulation: of a program and its moved program, as a machine knows them, each step of the one that isn't stuck is answered by steps
/// of the other that tell nothing before the last, to a state that stands for the new one, or to the same end. How many they are is told by the
/// step's instruction: 1 where it hands on nothing; 2 or 3 where it does; 4 more where it invokes a method. So they are 1 to 7. It has no body
/// to run but the laws of contexts, of which it uses that the domain of a method that takes a privilege adds nothing to it; its contract is
/// the law.
pub fn follow_law()
    ensures counted { LocallyFollows }
    ensures few { FollowsInFew }
{
    context_laws();
}

/// How runs begin: the moved program comes in four steps, which tell nothing, to a state that stands for the first one of the program as it was
/// written. It has no body to run; its contract is the law.
pub fn opening_law()
    ensures { BeginsInFour }
{}
