ghost use Rattle.jresolution.specs.jprogram.ProgramClasses.{Program};
ghost use Rattle.jlinking.specs.jlink.ProgramFiles.{AreFiles};
ghost use Rattle.jlinking.specs.jlink.LinkedPrograms.{Links};
ghost use Rattle.jtyping.specs.jwelltyped.VerifierTests.{WellTyped};
ghost use Rattle.jsoundness_laws.specs.progress.SoundPrograms.{IsSound};
ghost use Rattle.jsoundness_laws.specs.program.SoundRuns.{LinkedRunsTyped};

use crate::progress::{OneMachine, states_laws};

/// The law of linking: a program that links, of class files, and that is well typed is what typed states rest on. It has no body to run; its
/// contract is the law.
pub fn sound_law()
    ensures { (p : Program) → Links p → AreFiles p → WellTyped p → IsSound p }
{}

/// The law of runs: each state of a run of such a program is typed and has a step, so that no run is ever stuck. It has no body to run but the law
/// that it stands on; its contract is the law.
pub fn runs_law<M: OneMachine>()
    ensures { LinkedRunsTyped M.K M.E }
{
    states_laws::<M>();
}
