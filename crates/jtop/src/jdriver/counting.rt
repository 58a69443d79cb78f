ghost use Rattle.std.specs.Prelude.{◌≡◌, ◌≤◌, IfOk, Some, codes};
ghost use Rattle.jjob.specs.declared.command.Command.TheVariants.{Run};
ghost use Rattle.jtasks.specs.jstages.Stages.{Follows};
ghost use Rattle.jtasks.specs.jtask.Tasks.{IsWhole, task};
ghost use Rattle.jstore.specs.GeneratedShelves.{held};
ghost use Rattle.jtop.specs.jdriver.GeneratedRuns.{told, told_both, told_in};

use jforms::jinspect::count_inspect;
use jforms::jpass::count_plain;
use jjob::{Command, Form, Text};
use joutput::jio::MemoryShelf;
use joutput::jtally::Tally;
use jstore::made_shelf;
use jtasks::jstages::Halt;
use jtasks::jtask::{Task, task_of};
use std::alloc::{AllocError, Global};

/// What is told of a task that is a run. Any other task, which none is that comes here, is want of memory.
#[tactic(auto, unfolding(crate::specs::jdriver::GeneratedRuns::told))]
fn told(alloc: Global, task: &Task) -> Result<Tally, AllocError>
    requires { IsWhole task.now }
    ensures { IfOk result (λ t. told task.now ≡ Some t) }
{
    match task {
        Task::Run {
            program,
            domains,
            plan,
        } => count_inspect(alloc, program, domains, plan),
        Task::RunPlain {
            program,
            domains,
            plan,
        } => count_plain(alloc, program, domains, plan),
        Task::RunPass {
            program,
            domains,
            plan,
        } => count_plain(alloc, program, domains, plan),
        _ => Err(AllocError),
    }
}

/// The same of a task that is handed over.
fn told_of(alloc: Global, task: Task) -> Result<Tally, AllocError>
    requires { IsWhole task }
    ensures { IfOk result (λ t. told task ≡ Some t) }
{
    let told = told(alloc, &task);
    drop(task);
    told
}

/// The command that runs the made job in a form.
fn run_of(alloc: Global, form: Form) -> Result<Command, AllocError>
    ensures { IfOk result (λ c. c ≡ Run form (codes "gen.job")) }
{
    let job = Text::from_str(alloc, "gen.job")?;
    Ok(Command::Run { form, job })
}

/// The task of that command.
fn task_in(alloc: Global, form: Form, shelf: &mut MemoryShelf) -> Result<Task, Halt>
    ensures value { Follows (λ x. x) result (task (Run form (codes "gen.job")) shelf.old.files) }
    ensures whole { IfOk result IsWhole }
    ensures held { shelf.new.files ≡ shelf.old.files }
{
    let command = run_of(alloc, form)?;
    let task = task_of(alloc, &command, shelf);
    drop(command);
    task
}

/// What is told of the run of the made job in a form.
#[tactic(auto, unfolding(crate::specs::jdriver::GeneratedRuns::told_in))]
fn told_in(alloc: Global, form: Form, shelf: &mut MemoryShelf) -> Result<Tally, Halt>
    ensures value { Follows (λ t. t) result (told_in shelf.old.files form) }
    ensures held { shelf.new.files ≡ shelf.old.files }
{
    let task = task_in(alloc, form, shelf)?;
    let told = told_of(alloc, task)?;
    Ok(told)
}

/// What is told of both runs of the made job. The first has ended, and its program is dropped, before the second is read.
#[tactic(auto, unfolding(crate::specs::jdriver::GeneratedRuns::told_both))]
pub fn told_both(alloc: Global, seed: u64, size: u32) -> Result<(Tally, Tally), Halt>
    requires least { 1 ≤ size }
    requires most { size ≤ 1000 }
    ensures value { Follows (λ both. both) result (told_both (held seed size)) }
{
    let mut shelf = made_shelf(alloc, seed, size)?;
    let first = told_in(alloc, Form::Inspect, &mut shelf)?;
    let second = told_in(alloc, Form::Pass, &mut shelf)?;
    Ok((first, second))
}
