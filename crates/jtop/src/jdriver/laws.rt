ghost use Rattle.jtop.specs.jdriver.Answers.{MadeHaveStatus};
ghost use Rattle.jtop.specs.jdriver.RewrittenRuns.{RunsAlike};
ghost use Rattle.jtop.specs.jdriver.JobProgress.{AllGoOn, BothGoOn};
ghost use Rattle.jtop.specs.jdriver.PassedRuns.{AlwaysPassedSo, MovedIsChecked, NeitherIsStuck, RunsAgree};

use jclass::spelling_laws;
use jjob_laws::job_laws;
use jmoved_laws::names::begin_law;
use jmoved_laws::types::types_law;
use jpass_laws::moved_laws;
use jrewriting::jrewrite::{link_law, part_laws};
use jsoundness_laws::library::rules_laws;
use jsoundness_laws::program::runs_law;
use jsoundness_laws::progress::OneMachine;

/// The machine that walks frames.
struct ByFrames;

/// The machine that is handed contexts.
struct ByContexts;

impl OneMachine for ByFrames {
    ghost use Rattle.jdomain.specs.DomainStacks.{Stack};
    ghost use Rattle.jsemantics.specs.jrules.InspectingRules.{Carried};

    ghost K = { Stack };

    ghost E = { Carried };
}

impl OneMachine for ByContexts {
    ghost use Rattle.std.specs.Prelude.{List};
    ghost use Rattle.jctx.specs.declared.item.Item.{Item};

    ghost K = { List Item };

    ghost E = { Unit {0} };
}

/// The law of stored files. What is stored of a job that is rewritten runs by the form plain as that job runs by the form pass: the answers are
/// the same. It has no body to run but the laws that it stands on; its contract is the law.
pub fn alike_law()
    ensures { RunsAlike }
{
    job_laws();
    spelling_laws();
    part_laws();
    link_law();
    types_law();
    begin_law();
}

/// The law of runs. No run that files ask for is ever stuck, in any form (`all`); and where a job is run in the pass form, neither the inspecting
/// run of its program nor the run of the moved program is (`both`). It has no body to run but the laws that it stands on; its contract is the
/// law.
pub fn unstuck_law()
    ensures all { AllGoOn }
    ensures both { BothGoOn }
{
    job_laws();
    spelling_laws();
    part_laws();
    link_law();
    types_law();
    begin_law();
    rules_laws();
    runs_law::<ByFrames>();
    runs_law::<ByContexts>();
}

/// The law of runs in the pass form, over all files that hold bytes. The run of the moved program has the events and the end of the inspecting
/// run, within stated numbers of steps (`agrees`); the moved program passes the checker (`checked`); and neither run is ever stuck (`unstuck`).
/// It has no body to run but the laws that it stands on; its contract is the law.
pub fn passed_law()
    ensures agrees { AlwaysPassedSo RunsAgree }
    ensures checked { AlwaysPassedSo MovedIsChecked }
    ensures unstuck { AlwaysPassedSo NeitherIsStuck }
{
    job_laws();
    spelling_laws();
    link_law();
    types_law();
    moved_laws();
    unstuck_law();
}

/// The law of made jobs. The answer to a job of at most 1,000 classes that is made has a status: no file that is read for its two runs is missing
/// or too long.
pub fn made_law()
    ensures { MadeHaveStatus }
{}
