ghost use Rattle.jpass_laws.specs.PassSimulation.{MovedPasses, PassTheorem};
ghost use Rattle.jpass_laws.specs.PassRelation.{MovedInFew, MovedStands, StandsInFew, StandsThroughout};

use crate::machines::ByFrames;
use jmoved_laws::code::moves_law;
use jsimulation_laws::between::beside_laws;
use jsimulation_laws::local::{follow_law, opening_law};
use jsimulation_laws::relation::expanding_law;
use jsimulation_laws::stuttering::{TwoStates, count_laws};
use jsoundness_laws::library::rules_laws;
use jsoundness_laws::program::runs_law;

/// The states of the machines between, and which of them stand for which, by a program and its moved program.
struct Between;

impl TwoStates for Between {
    ghost use Rattle.jresolution.specs.jprogram.ProgramClasses.{Program};
    ghost use Rattle.jsimulation_laws.specs.relation.StateRelation.{Point, Stands};

    ghost S = { Point };

    ghost T = { Point };

    ghost By = { Program × Program };

    ghost stands = { λ by. Stands by.0 by.1 };
}

/// The law of states: each step of the inspecting machine that isn't stuck is answered by steps of the plain one on the moved program that tell
/// nothing before the last, to a state that stands for the new one, or to the same end. How many they are is told by the step's instruction: 1
/// where it hands on nothing; 2 or 3 where it does; 4 more where it invokes a method. So they are 1 to 7. It has no body to run but the laws that
/// it stands on; its contract is the law.
pub fn stand_law()
    ensures counted { StandsThroughout }
    ensures few { StandsInFew }
{
    beside_laws();
    follow_law();
    expanding_law();
}

/// The law of runs: as far as the inspecting run isn't stuck, what the moved program tells by the plain machine is what the program as it was written
/// tells by the inspecting one, in no more than so many steps, and it tells no less; and it has told what k steps tell after exactly four more
/// than those that answer each of these. It has no body to run but the laws that it stands on; its contract is the law.
pub fn pass_law()
    ensures { PassTheorem }
{
    beside_laws();
    follow_law();
    opening_law();
    count_laws::<Between>();
}

/// Those laws, of each program that links, is well typed and breaks no limit, and of its moved program: whatever the policy, the schedule and the
/// bounds are. No run of such a program is stuck. It has no body to run but the laws that it stands on; its contract is the laws.
pub fn moved_laws()
    ensures states { MovedStands }
    ensures few { MovedInFew }
    ensures runs { MovedPasses }
{
    moves_law();
    stand_law();
    pass_law();
    rules_laws();
    runs_law::<ByFrames>();
}
