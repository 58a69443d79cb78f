ghost use Rattle.std.specs.Prelude.{◌≡◌, ◌≤◌, ◌<◌, ◌^◌, ℕ, Err, IfOk, IfSome, IsTrue, List, None, OnOk, Some, false, length, true};
ghost use Rattle.std.specs.List.{flat_map};
ghost use Rattle.joutput.specs.jio.ShelfFiles.{File};
ghost use Rattle.jground.specs.jtext.Modified.{group};
ghost use Rattle.jjob.specs.declared.command.Form.TheVariants.{Pass};
ghost use Rattle.jlib.specs.declared.side.Side.TheVariants.{Passing, Source};
ghost use Rattle.jlinking.specs.jlink.LinkedPrograms.{AreParts};
ghost use Rattle.jresolution.specs.jprogram.MemberResolution.{IsMain, main_of};
ghost use Rattle.jtasks.specs.declared.jstages.halt.Halt.TheVariants.{Read};
ghost use Rattle.jtasks.specs.declared.jtask.task.Task.TheVariants.{RunPlain};
ghost use Rattle.jtasks.specs.jstages.RewriteStage;
ghost use Rattle.jtasks.specs.jstages.Stages.{Excused, Follows, Refused, judged};
ghost use Rattle.jtasks.specs.jstages.JobPlans.{ArePaths};
ghost use Rattle.jtasks.specs.jstages.LinkStage.{AreClasses};
ghost use Rattle.jtasks.specs.jtask.Tasks.{GroundClasses, IsWhole, JobClasses, RunClasses, check_at, check_of_ground, check_of_parts, is_stored, reads};
ghost use Rattle.jtasks.specs.jtask.Tasks.{policy_at, run_at, run_in, run_of_ground, run_of_parts, runnable};
ghost use Rattle.jtasks.specs.jtask.Tasks.{moved_of_parts, rewrite_at, rewrite_of_ground, rewrite_of_parts, rewrite_of_text, side_of, stores, task};

use crate::jstages::{
    Halt, JobSetup, are_classes, checked, ground_at, ground_in, linked, parts_at, read_at,
    rewritten, text_in,
};
use crate::jtask::task::Task;
use jcheck::CheckedProgram;
use jdomain::Domains;
use jground::jbase::Seq;
use jground::jtext::{Units, bytes_of};
use jjob::{Command, Form, Text};
use jlib::Side;
use jlinking::jlink::LinkedProgram;
use jmoving::RewrittenProgram;
use joutput::jio::Shelf;
use jresolution::jprogram::{CodePart, MethodId};
use jsemantics::jmachine::Plan;
use jshow::Refusal;
use std::alloc::Global;

/// The side against whose library a form is linked and checked.
pub fn side_of(form: Form) -> Side
    ensures { result ≡ side_of form }
{
    match form {
        Form::Plain => Side::Passing,
        Form::Inspect | Form::Pass => Side::Source,
    }
}

// ---- a run

fn no_main<T>(alloc: Global, name: &Units) -> Result<T, Halt>
    ensures value { Follows (λ x. x) result (judged (Refusal.NoMain name.now) None) }
    ensures unread { result ≡ Err Read → ⊥ }
{
    let name = name.copy(alloc)?;
    Err(Halt::Refused(Refusal::NoMain(name)))
}

/// The first method of a program: `main` of the class with this name.
fn main_named(alloc: Global, program: &LinkedProgram, name: &Units) -> Result<MethodId, Halt>
    ensures value { Follows (λ x. x) result (judged (Refusal.NoMain name.now) (main_of program.now (flat_map group name.now))) }
    ensures unread { result ≡ Err Read → ⊥ }
{
    let bytes = bytes_of(alloc, name)?;
    match program.main_of(bytes.as_slice()) {
        Some(main) => Ok(main),
        None => no_main(alloc, name),
    }
}

/// The program of a run on a side, and the method with which it begins.
fn runnable(
    alloc: Global,
    side: Side,
    name: &Units,
    parts: Seq<CodePart>,
) -> Result<(CheckedProgram, MethodId), Halt>
    requires { AreParts parts }
    ensures value { Follows (λ x. x) result (runnable side name.now parts) }
    ensures classes { OnOk result (AreClasses parts) }
    ensures side { IfOk result (λ x. x.0.side ≡ side) }
    ensures main { IfOk result (λ x. IsMain x.0 x.1) }
    ensures unread { result ≡ Err Read → ⊥ }
{
    let joined = linked(alloc, parts, side)?;
    are_classes(&joined);
    match main_named(alloc, &joined, name) {
        Ok(main) => {
            let program = checked(alloc, joined)?;
            Ok((program, main))
        }
        Err(halt) => {
            drop(joined);
            Err(halt)
        }
    }
}

/// The run of a program of the passing side.
fn run_plain(program: CheckedProgram, domains: Domains, plan: Plan) -> Task
    requires { program.side ≡ Passing }
    ensures { result ≡ RunPlain program domains plan }
{
    match program.into_plain() {
        Ok(program) => Task::RunPlain {
            program,
            domains,
            plan,
        },
        Err(_) => unreachable!(),
    }
}

/// The moved program of one that is checked.
fn moved_of(alloc: Global, program: CheckedProgram) -> Result<RewrittenProgram, Halt>
    requires { program.side ≡ Source }
    ensures value { Follows (λ x. x) result (RewriteStage.rewritten program) }
    ensures mains { IfOk result (λ q. (name : List ℕ) → main_of q name ≡ main_of program name) }
    ensures unread { result ≡ Err Read → ⊥ }
{
    rewritten(alloc, &program)
}

/// The run of a program once it is moved.
fn run_moved(
    alloc: Global,
    program: CheckedProgram,
    domains: Domains,
    plan: Plan,
) -> Result<Task, Halt>
    requires side { program.side ≡ Source }
    requires main { IsMain program plan.main }
    ensures value { Follows (λ x. x) result (run_in Pass program domains plan) }
    ensures whole { IfOk result IsWhole }
    ensures kind { IfOk result (λ t. is_stored t ≡ false) }
    ensures unread { result ≡ Err Read → ⊥ }
{
    match moved_of(alloc, program) {
        Ok(program) => Ok(Task::RunPass {
            program: program.into_plain(),
            domains,
            plan,
        }),
        Err(halt) => {
            drop(domains);
            drop(plan);
            Err(halt)
        }
    }
}

/// The run of a program in a form, which is on the form's side.
fn run_in(
    alloc: Global,
    form: Form,
    program: CheckedProgram,
    domains: Domains,
    plan: Plan,
) -> Result<Task, Halt>
    requires side { program.side ≡ side_of form }
    requires main { IsMain program plan.main }
    ensures value { Follows (λ x. x) result (run_in form program domains plan) }
    ensures whole { IfOk result IsWhole }
    ensures kind { IfOk result (λ t. is_stored t ≡ false) }
    ensures unread { result ≡ Err Read → ⊥ }
{
    match form {
        Form::Inspect => Ok(Task::Run {
            program,
            domains,
            plan,
        }),
        Form::Plain => Ok(run_plain(program, domains, plan)),
        Form::Pass => run_moved(alloc, program, domains, plan),
    }
}

/// The run in a form of the classes that were read for a job.
fn run_of_parts(
    alloc: Global,
    form: Form,
    ground: JobSetup,
    parts: Seq<CodePart>,
) -> Result<Task, Halt>
    requires { AreParts parts }
    ensures value { Follows (λ x. x) result (run_of_parts form ground parts) }
    ensures classes { OnOk result (AreClasses parts) }
    ensures whole { IfOk result IsWhole }
    ensures kind { IfOk result (λ t. is_stored t ≡ false) }
    ensures unread { result ≡ Err Read → ⊥ }
{
    match runnable(alloc, side_of(form), &ground.main, parts) {
        Ok((program, main)) => {
            let plan = ground.setting.plan(main);
            drop(ground.sources);
            drop(ground.classes);
            drop(ground.main);
            run_in(alloc, form, program, ground.domains, plan)
        }
        Err(halt) => {
            drop(ground);
            Err(halt)
        }
    }
}

#[tactic(auto, unfolding(crate::specs::jtask::Tasks::run_of_ground))]
fn run_of_ground<S: Shelf>(
    alloc: Global,
    form: Form,
    ground: JobSetup,
    shelf: &mut S,
) -> Result<Task, Halt>
    requires { ArePaths ground.classes }
    ensures value { (files : List File) → S.held shelf.old ≡ Some files → Follows (λ x. x) result (run_of_ground files form ground) }
    ensures classes { (files : List File) → S.held shelf.old ≡ Some files → OnOk result (GroundClasses files ground) }
    ensures whole { IfOk result IsWhole }
    ensures kind { IfOk result (λ t. is_stored t ≡ false) }
    ensures held { S.held shelf.new ≡ S.held shelf.old }
    ensures stored { S.write_faults shelf.new ≡ S.write_faults shelf.old }
    ensures later { S.read_faults shelf.old ≤ S.read_faults shelf.new }
    ensures cause { Excused result (S.read_faults shelf.old) (S.read_faults shelf.new) (S.held shelf.old) (λ files. run_of_ground files form ground) }
{
    match parts_at(alloc, ground.classes.as_slice(), shelf) {
        Ok(parts) => run_of_parts(alloc, form, ground, parts),
        Err(halt) => {
            drop(ground);
            Err(halt)
        }
    }
}

#[tactic(auto, unfolding(crate::specs::jtask::Tasks::run_at))]
fn run_at<S: Shelf>(alloc: Global, form: Form, path: &str, shelf: &mut S) -> Result<Task, Halt>
    ensures value { (files : List File) → S.held shelf.old ≡ Some files → Follows (λ x. x) result (run_at files form path.now) }
    ensures classes { (files : List File) → S.held shelf.old ≡ Some files → OnOk result (JobClasses files path.now) }
    ensures whole { IfOk result IsWhole }
    ensures kind { IfOk result (λ t. is_stored t ≡ false) }
    ensures held { S.held shelf.new ≡ S.held shelf.old }
    ensures stored { S.write_faults shelf.new ≡ S.write_faults shelf.old }
    ensures later { S.read_faults shelf.old ≤ S.read_faults shelf.new }
    ensures cause { Excused result (S.read_faults shelf.old) (S.read_faults shelf.new) (S.held shelf.old) (λ files. run_at files form path.now) }
{
    let ground = ground_at(alloc, path, shelf)?;
    run_of_ground(alloc, form, ground, shelf)
}

// ---- a check

fn check_of_parts(alloc: Global, side: Side, parts: Seq<CodePart>) -> Result<Task, Halt>
    requires { AreParts parts }
    ensures value { Follows (λ x. x) result (check_of_parts side parts) }
    ensures whole { IfOk result IsWhole }
    ensures kind { IfOk result (λ t. is_stored t ≡ false) }
    ensures unread { result ≡ Err Read → ⊥ }
{
    let joined = linked(alloc, parts, side)?;
    let program = checked(alloc, joined)?;
    Ok(Task::Check(program))
}

#[tactic(auto, unfolding(crate::specs::jtask::Tasks::check_of_ground))]
fn check_of_ground<S: Shelf>(
    alloc: Global,
    side: Side,
    ground: JobSetup,
    shelf: &mut S,
) -> Result<Task, Halt>
    requires { ArePaths ground.classes }
    ensures value { (files : List File) → S.held shelf.old ≡ Some files → Follows (λ x. x) result (check_of_ground files side ground) }
    ensures whole { IfOk result IsWhole }
    ensures kind { IfOk result (λ t. is_stored t ≡ false) }
    ensures held { S.held shelf.new ≡ S.held shelf.old }
    ensures stored { S.write_faults shelf.new ≡ S.write_faults shelf.old }
    ensures later { S.read_faults shelf.old ≤ S.read_faults shelf.new }
    ensures cause { Excused result (S.read_faults shelf.old) (S.read_faults shelf.new) (S.held shelf.old)
        (λ files. check_of_ground files side ground) }
{
    let parts = parts_at(alloc, ground.classes.as_slice(), shelf);
    drop(ground);
    check_of_parts(alloc, side, parts?)
}

#[tactic(auto, unfolding(crate::specs::jtask::Tasks::check_at))]
fn check_at<S: Shelf>(alloc: Global, side: Side, path: &str, shelf: &mut S) -> Result<Task, Halt>
    ensures value { (files : List File) → S.held shelf.old ≡ Some files → Follows (λ x. x) result (check_at files side path.now) }
    ensures whole { IfOk result IsWhole }
    ensures kind { IfOk result (λ t. is_stored t ≡ false) }
    ensures held { S.held shelf.new ≡ S.held shelf.old }
    ensures stored { S.write_faults shelf.new ≡ S.write_faults shelf.old }
    ensures later { S.read_faults shelf.old ≤ S.read_faults shelf.new }
    ensures cause { Excused result (S.read_faults shelf.old) (S.read_faults shelf.new) (S.held shelf.old) (λ files. check_at files side path.now) }
{
    let ground = ground_at(alloc, path, shelf)?;
    check_of_ground(alloc, side, ground, shelf)
}

// ---- a rewriting

/// The moved program of the classes that were read for a job.
fn moved_of_parts(alloc: Global, parts: Seq<CodePart>) -> Result<RewrittenProgram, Halt>
    requires { AreParts parts }
    ensures value { Follows (λ x. x) result (moved_of_parts parts) }
    ensures unread { result ≡ Err Read → ⊥ }
{
    let joined = linked(alloc, parts, Side::Source)?;
    let program = checked(alloc, joined)?;
    moved_of(alloc, program)
}

/// The rewriting of the classes that were read for a job.
fn rewrite_of_parts(alloc: Global, text: Text, to: Text, parts: Seq<CodePart>) -> Result<Task, Halt>
    requires { AreParts parts }
    ensures value { Follows (λ x. x) result (rewrite_of_parts text to parts) }
    ensures whole { IfOk result IsWhole }
    ensures kind { IfOk result (λ t. is_stored t ≡ true) }
    ensures unread { result ≡ Err Read → ⊥ }
{
    match moved_of_parts(alloc, parts) {
        Ok(program) => Ok(Task::Rewrite {
            program,
            job: text,
            to,
        }),
        Err(halt) => {
            drop(text);
            drop(to);
            Err(halt)
        }
    }
}

#[tactic(auto, unfolding(crate::specs::jtask::Tasks::rewrite_of_ground))]
fn rewrite_of_ground<S: Shelf>(
    alloc: Global,
    text: Text,
    to: Text,
    ground: JobSetup,
    shelf: &mut S,
) -> Result<Task, Halt>
    requires { ArePaths ground.classes }
    ensures value { (files : List File) → S.held shelf.old ≡ Some files → Follows (λ x. x) result (rewrite_of_ground files text to ground) }
    ensures whole { IfOk result IsWhole }
    ensures kind { IfOk result (λ t. is_stored t ≡ true) }
    ensures held { S.held shelf.new ≡ S.held shelf.old }
    ensures stored { S.write_faults shelf.new ≡ S.write_faults shelf.old }
    ensures later { S.read_faults shelf.old ≤ S.read_faults shelf.new }
    ensures cause { Excused result (S.read_faults shelf.old) (S.read_faults shelf.new) (S.held shelf.old)
        (λ files. rewrite_of_ground files text to ground) }
{
    let parts = parts_at(alloc, ground.classes.as_slice(), shelf);
    drop(ground);
    match parts {
        Ok(parts) => rewrite_of_parts(alloc, text, to, parts),
        Err(halt) => {
            drop(text);
            drop(to);
            Err(halt)
        }
    }
}

/// The rewriting of the classes of a job of this text.
#[tactic(auto, unfolding(crate::specs::jtask::Tasks::rewrite_of_text))]
fn rewrite_of_text<S: Shelf>(
    alloc: Global,
    text: &[u8],
    to: &Text,
    shelf: &mut S,
) -> Result<Task, Halt>
    requires { length text.now < 2 ^ 31 }
    ensures value { (files : List File) → S.held shelf.old ≡ Some files → Follows (λ x. x) result (rewrite_of_text files to.now text.now) }
    ensures whole { IfOk result IsWhole }
    ensures kind { IfOk result (λ t. is_stored t ≡ true) }
    ensures held { S.held shelf.new ≡ S.held shelf.old }
    ensures stored { S.write_faults shelf.new ≡ S.write_faults shelf.old }
    ensures later { S.read_faults shelf.old ≤ S.read_faults shelf.new }
    ensures cause { Excused result (S.read_faults shelf.old) (S.read_faults shelf.new) (S.held shelf.old)
        (λ files. rewrite_of_text files to.now text.now) }
{
    let ground = ground_in(alloc, text, shelf)?;
    let text = text_in(alloc, text)?;
    let to = to.copy(alloc)?;
    rewrite_of_ground(alloc, text, to, ground, shelf)
}

#[tactic(auto, unfolding(crate::specs::jtask::Tasks::rewrite_at))]
fn rewrite_at<S: Shelf>(alloc: Global, path: &str, to: &Text, shelf: &mut S) -> Result<Task, Halt>
    ensures value { (files : List File) → S.held shelf.old ≡ Some files → Follows (λ x. x) result (rewrite_at files to.now path.now) }
    ensures whole { IfOk result IsWhole }
    ensures kind { IfOk result (λ t. is_stored t ≡ true) }
    ensures held { S.held shelf.new ≡ S.held shelf.old }
    ensures stored { S.write_faults shelf.new ≡ S.write_faults shelf.old }
    ensures later { S.read_faults shelf.old ≤ S.read_faults shelf.new }
    ensures cause { Excused result (S.read_faults shelf.old) (S.read_faults shelf.new) (S.held shelf.old)
        (λ files. rewrite_at files to.now path.now) }
{
    let text = read_at(alloc, path, shelf)?;
    rewrite_of_text(alloc, &text, to, shelf)
}

// ---- by verb

#[tactic(auto, unfolding(crate::specs::jtask::Tasks::policy_at))]
fn policy_at<S: Shelf>(alloc: Global, path: &str, shelf: &mut S) -> Result<Task, Halt>
    ensures value { (files : List File) → S.held shelf.old ≡ Some files → Follows (λ x. x) result (policy_at files path.now) }
    ensures whole { IfOk result IsWhole }
    ensures kind { IfOk result (λ t. is_stored t ≡ false) }
    ensures held { S.held shelf.new ≡ S.held shelf.old }
    ensures stored { S.write_faults shelf.new ≡ S.write_faults shelf.old }
    ensures later { S.read_faults shelf.old ≤ S.read_faults shelf.new }
    ensures cause { Excused result (S.read_faults shelf.old) (S.read_faults shelf.new) (S.held shelf.old) (λ files. policy_at files path.now) }
{
    let ground = ground_at(alloc, path, shelf)?;
    drop(ground.classes);
    drop(ground.main);
    drop(ground.setting);
    Ok(Task::Policy {
        sources: ground.sources,
        domains: ground.domains,
    })
}

/// What a command that reads files asks for.
#[tactic(auto, unfolding(crate::specs::jtask::Tasks::task))]
pub fn task_of<S: Shelf>(alloc: Global, command: &Command, shelf: &mut S) -> Result<Task, Halt>
    requires { IsTrue (reads command.now) }
    ensures value { (files : List File) → S.held shelf.old ≡ Some files → Follows (λ x. x) result (task command.now files) }
    // What was read for a run are parts that may be linked, each of them a class file.
    ensures classes { (files : List File) → S.held shelf.old ≡ Some files → OnOk result (RunClasses command.now files) }
    ensures whole { IfOk result IsWhole }
    ensures kind { IfOk result (λ t. is_stored t ≡ stores command.now) }
    ensures held { S.held shelf.new ≡ S.held shelf.old }
    ensures stored { S.write_faults shelf.new ≡ S.write_faults shelf.old }
    ensures later { S.read_faults shelf.old ≤ S.read_faults shelf.new }
    ensures cause { Excused result (S.read_faults shelf.old) (S.read_faults shelf.new) (S.held shelf.old) (λ files. task command.now files) }
{
    match command {
        Command::Run { form, job } => run_at(alloc, *form, job.as_str(), shelf),
        Command::Check { form, job } => check_at(alloc, side_of(*form), job.as_str(), shelf),
        Command::Rewrite { job, to } => rewrite_at(alloc, job.as_str(), to, shelf),
        Command::Policy { job } => policy_at(alloc, job.as_str(), shelf),
        _ => unreachable!(),
    }
}

/// Whether a command reads files. The others make theirs.
fn reads_files(command: &Command) -> bool
    ensures { result ≡ reads command.now }
{
    match command {
        Command::Run { .. }
        | Command::Check { .. }
        | Command::Rewrite { .. }
        | Command::Policy { .. } => true,
        Command::Gen { .. } => false,
    }
}

/// The refusal of a command, where it reads files and is refused.
pub fn refusal_of<S: Shelf>(alloc: Global, command: &Command, shelf: &mut S) -> Option<Refusal>
    ensures value { (files : List File) → S.held shelf.old ≡ Some files → IfSome result (λ r. task command.now files ≡ Err (Refused r)) }
    ensures held { S.held shelf.new ≡ S.held shelf.old }
    ensures stored { S.write_faults shelf.new ≡ S.write_faults shelf.old }
    ensures later { S.read_faults shelf.old ≤ S.read_faults shelf.new }
{
    if !reads_files(command) {
        return None;
    }
    match task_of(alloc, command, shelf) {
        Ok(task) => {
            drop(task);
            None
        }
        Err(Halt::Refused(refusal)) => Some(refusal),
        Err(_) => None,
    }
}
