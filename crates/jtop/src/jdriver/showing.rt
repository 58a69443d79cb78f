ghost use Rattle.std.specs.Prelude.{◌≡◌, ◌≤◌, ◌⊎◌, List, false, length};
ghost use Rattle.jground.specs.jbase.FaultCauses.{Rose};
ghost use Rattle.joutput.specs.jio.ShelfFiles.{File};
ghost use Rattle.jdomain.specs.Domains.{has};
ghost use Rattle.jlib.specs.declared.side.Side.TheVariants.{Source};
ghost use Rattle.jsemantics.specs.jmachine.Machine.{run};
ghost use Rattle.jsemantics.specs.jrules.InspectingRules.{rules as inspecting};
ghost use Rattle.jsemantics.specs.jrules.PlainRules.{rules as plain};
ghost use Rattle.jshow.specs.declared.status.Status.TheVariants.{Finished, ReadFault, StoreFault, Usage, WriteFault};
ghost use Rattle.jshow.specs.CommandAnswers.{Answers, Shows, listed};
ghost use Rattle.jshow.specs.Listings.{listing};
ghost use Rattle.jtasks.specs.jtask.Tasks.{IsWhole, is_stored};
ghost use Rattle.jresolution.specs.jprogram.MemberResolution.{IsMain};
ghost use Rattle.jstore.specs.Folders.{files_below};
ghost use Rattle.jtop.specs.jdriver.Answers.{Stores, ran, rewrote, shown, usage_answer};

use jcheck::{CheckedProgram, PlainProgram};
use jdomain::{CodeSource, Domains};
use jforms::jinspect::run_inspect;
use jforms::jpass::{run_pass, run_plain};
use jjob::Text;
use jmoving::RewrittenProgram;
use joutput::jio::{Part, Shelf, ShelfError, Sink, put_all, write_line};
use joutput::jtrace::RunFault;
use jsemantics::jmachine::Plan;
use jshow::{Status, put_listing, show_checked, status_of};
use jstore::{files_below, store_all};
use jtasks::jtask::Task;
use std::alloc::Global;

/// Writes the usage line.
pub fn show_usage<K: Sink>(out: &mut K) -> Status
    ensures answer { Answers usage_answer result (K.out out.old) (K.out out.new) }
    ensures later { K.faults out.old ≤ K.faults out.new }
    ensures cause { result ≡ WriteFault → Rose (K.faults out.old) (K.faults out.new) }
    ensures read { result ≡ ReadFault → ⊥ }
    ensures usage { result ≡ Usage ⊎ result ≡ WriteFault }
    ensures store { result ≡ StoreFault → ⊥ }
{
    match put_all(out, b"usage: javasec VERB ARGUMENTS\n") {
        Ok(()) => Status::Usage,
        Err(_) => Status::WriteFault,
    }
}

/// Runs a program by the stacks of its frames, and writes what happens and how it ends.
#[tactic(auto, using(crate::proofs::JdriverProofs::Ends::answers_run))]
fn show_run<K: Sink>(
    alloc: Global,
    program: &CheckedProgram,
    domains: &Domains,
    plan: &Plan,
    out: &mut K,
) -> Status
    requires main { IsMain program.now plan.now.main }
    requires side { program.now.side ≡ Source }
    ensures { Shows (ran (run (inspecting (has domains.now)) program.now plan.now plan.now.steps)) result K.out K.faults out.old out.new }
{
    match run_inspect(alloc, program, domains, plan, out) {
        Ok(end) => status_of(end),
        Err(RunFault::Sink) => Status::WriteFault,
        Err(RunFault::Memory) => Status::OutOfMemory,
    }
}

/// Runs a program by the contexts that its calls hand on, and writes what happens and how it ends.
#[tactic(auto, using(crate::proofs::JdriverProofs::Ends::answers_run))]
fn show_plain<K: Sink>(
    alloc: Global,
    program: &PlainProgram,
    domains: &Domains,
    plan: &Plan,
    out: &mut K,
) -> Status
    requires main { IsMain program.now plan.now.main }
    ensures { Shows (ran (run (plain (has domains.now)) program.now plan.now plan.now.steps)) result K.out K.faults out.old out.new }
{
    match run_plain(alloc, program, domains, plan, out) {
        Ok(end) => status_of(end),
        Err(RunFault::Sink) => Status::WriteFault,
        Err(RunFault::Memory) => Status::OutOfMemory,
    }
}

/// Runs a moved program by the contexts that its calls hand on, and writes what happens and how it ends.
#[tactic(auto, using(crate::proofs::JdriverProofs::Ends::answers_run))]
fn show_pass<K: Sink>(
    alloc: Global,
    program: &PlainProgram,
    domains: &Domains,
    plan: &Plan,
    out: &mut K,
) -> Status
    requires main { IsMain program.now plan.now.main }
    ensures { Shows (ran (run (plain (has domains.now)) program.now plan.now plan.now.steps)) result K.out K.faults out.old out.new }
{
    match run_pass(alloc, program, domains, plan, out) {
        Ok(end) => status_of(end),
        Err(RunFault::Sink) => Status::WriteFault,
        Err(RunFault::Memory) => Status::OutOfMemory,
    }
}

/// Writes what is granted to each code source.
fn show_listing<K: Sink>(
    alloc: Global,
    sources: &[CodeSource],
    domains: &Domains,
    out: &mut K,
) -> Status
    requires { length domains.now ≡ length sources.now }
    ensures { Shows (listed (listing 0 sources.now domains.now)) result K.out K.faults out.old out.new }
{
    match put_listing(alloc, sources, domains, out) {
        Ok(()) => Status::Finished,
        Err(RunFault::Sink) => Status::WriteFault,
        Err(RunFault::Memory) => Status::OutOfMemory,
    }
}

/// Writes the line of a program that is rewritten.
fn put_rewritten<K: Sink>(classes: u64, out: &mut K) -> Status
    ensures answer { (files : List File) → Answers (rewrote files classes) result (K.out out.old) (K.out out.new) }
    ensures later { K.faults out.old ≤ K.faults out.new }
    ensures cause { result ≡ WriteFault → Rose (K.faults out.old) (K.faults out.new) }
    ensures done { result ≡ Finished ⊎ result ≡ WriteFault }
{
    let parts = [
        Part::Plain("rewritten "),
        Part::Number(classes),
        Part::Plain(" classes"),
    ];
    match write_line(out, &parts) {
        Ok(()) => Status::Finished,
        Err(_) => Status::WriteFault,
    }
}

/// Stores the files of a program that is rewritten, and writes its line.
fn show_rewritten<S: Shelf, K: Sink>(
    alloc: Global,
    program: &RewrittenProgram,
    job: &Text,
    to: &Text,
    shelf: &mut S,
    out: &mut K,
) -> Status
    ensures answer { Answers (rewrote (files_below to.now job.now program.now) (length program.now.parts)) result (K.out out.old) (K.out out.new) }
    ensures files { Stores (files_below to.now job.now program.now) result (S.held shelf.old) (S.held shelf.new) }
    ensures reads { S.read_faults shelf.new ≡ S.read_faults shelf.old }
    ensures stores_later { S.write_faults shelf.old ≤ S.write_faults shelf.new }
    ensures later { K.faults out.old ≤ K.faults out.new }
    ensures cause { result ≡ WriteFault → Rose (K.faults out.old) (K.faults out.new) }
    ensures read { result ≡ ReadFault → ⊥ }
    ensures usage { result ≡ Usage → ⊥ }
    ensures store { result ≡ StoreFault → Rose (S.write_faults shelf.old) (S.write_faults shelf.new) }
{
    let Ok(files) = files_below(alloc, to, job, program) else {
        return Status::OutOfMemory;
    };
    match store_all(alloc, files.as_slice(), shelf) {
        Ok(()) => put_rewritten(program.linked().parts().len() as u64, out),
        Err(ShelfError::Failed) => Status::StoreFault,
        Err(ShelfError::Memory) => Status::OutOfMemory,
    }
}

/// Does a task: stores its files, and writes what it tells.
#[tactic(auto, unfolding(crate::specs::jdriver::Answers::shown))]
pub fn show<S: Shelf, K: Sink>(alloc: Global, task: &Task, shelf: &mut S, out: &mut K) -> Status
    requires { IsWhole task.now }
    ensures answer { Answers (shown task.now) result (K.out out.old) (K.out out.new) }
    ensures files { Stores (shown task.now).files result (S.held shelf.old) (S.held shelf.new) }
    ensures held { is_stored task.now ≡ false → S.held shelf.new ≡ S.held shelf.old }
    ensures stored { is_stored task.now ≡ false → S.write_faults shelf.new ≡ S.write_faults shelf.old }
    ensures reads { S.read_faults shelf.new ≡ S.read_faults shelf.old }
    ensures stores_later { S.write_faults shelf.old ≤ S.write_faults shelf.new }
    ensures later { K.faults out.old ≤ K.faults out.new }
    ensures cause { result ≡ WriteFault → Rose (K.faults out.old) (K.faults out.new) }
    ensures read { result ≡ ReadFault → ⊥ }
    ensures usage { result ≡ Usage → ⊥ }
    ensures store { result ≡ StoreFault → Rose (S.write_faults shelf.old) (S.write_faults shelf.new) }
{
    match task {
        Task::Run {
            program,
            domains,
            plan,
        } => show_run(alloc, program, domains, plan, out),
        Task::RunPlain {
            program,
            domains,
            plan,
        } => show_plain(alloc, program, domains, plan, out),
        Task::RunPass {
            program,
            domains,
            plan,
        } => show_pass(alloc, program, domains, plan, out),
        Task::Check(program) => show_checked(program.linked().parts(), out),
        Task::Rewrite { program, job, to } => show_rewritten(alloc, program, job, to, shelf, out),
        Task::Policy { sources, domains } => show_listing(alloc, sources.as_slice(), domains, out),
    }
}
