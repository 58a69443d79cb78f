ghost use Rattle.jserving.specs.jinvoke.InvokeLaws.{HasClass, HasType, LibraryWithin, StepsAt, StepsLibrary, StepsUser, UserWithin};

use jruntime::jstate::heap_laws;

/// The laws of classes by the heap's numbers. They have no body to run; the contract is the laws.
#[tactic(auto, using(crate::proofs::JinvokeProofs::ObjectClasses::has_class, crate::proofs::JinvokeProofs::ObjectClasses::has_type))]
pub fn class_laws()
    ensures class { HasClass }
    ensures type_ { HasType }
{
    heap_laws();
}

/// The laws of what instructions by number call: it is of a class of the program. They have no body to run; the contract is the laws.
#[tactic(auto, using(crate::proofs::JinvokeProofs::SelectedClasses::user_within, crate::proofs::JinvokeProofs::SelectedClasses::library_within))]
pub fn within_laws()
    ensures user { UserWithin }
    ensures library { LibraryWithin }
{}

/// The laws of steps: the machine executes what an instruction by number stands for. They have no body to run; the contract is the laws.
#[tactic(auto, using(crate::proofs::JinvokeProofs::InvokeSteps::steps_at, crate::proofs::JinvokeProofs::InvokeSteps::steps_user, crate::proofs::JinvokeProofs::InvokeSteps::steps_library,),)]
pub fn step_laws<M>()
    ensures at { StepsAt M }
    ensures user { StepsUser M }
    ensures library { StepsLibrary M }
{}
