ghost use Rattle.std.specs.Prelude.{◌≡◌, ◌≤◌, ◌⊎◌, IfNone, IfSome, IsTrue, List, Some, false, true};
ghost use Rattle.jground.specs.jbase.FaultCauses.{Rose};
ghost use Rattle.joutput.specs.jio.ShelfFiles.{File};
ghost use Rattle.jjob.specs.declared.command.Command.{Command};
ghost use Rattle.jjob.specs.declared.command.Command.TheVariants.{Gen};
ghost use Rattle.jjob.specs.CommandWords.{command as command_of, words_of};
ghost use Rattle.jshow.specs.declared.status.Status.TheVariants.{ReadFault, StoreFault, Usage, WriteFault};
ghost use Rattle.jshow.specs.CommandAnswers.{Answers};
ghost use Rattle.jtasks.specs.jstages.Stages.{Misses};
ghost use Rattle.jtasks.specs.jtask.Tasks.{reads, stores, task};
ghost use Rattle.jtop.specs.jdriver.Answers.{Calm, Complete, HasStatus, IsSized, MissesAny, NoFileFault, Over, Stores, UsageExactly};
ghost use Rattle.jtop.specs.jdriver.Answers.{answer, answered, any_makes, any_reads, any_stores, makes};
ghost use Rattle.jtop.specs.jdriver.Headline.{AnswersAll, AnswersSome};
ghost use Rattle.jtop.specs.jdriver.JobProgress.{HoldBytes};
ghost use Rattle.jtop.specs.jdriver.PassedRuns.{IsPassedSo, MovedIsChecked, NeitherIsStuck, RunsAgree};

use crate::jdriver::laws::{made_law, passed_law};
use crate::jdriver::making::show_made;
use crate::jdriver::showing::{show, show_usage};
use jjob::{Command, WordsError, read_words};
use joutput::jio::{Shelf, Sink};
use jpass_laws::moved_laws;
use jshow::{Status, show_refusal};
use jtasks::jstages::Halt;
use jtasks::jtask::task_of;
use std::alloc::Global;

/// Does what a command asks for that reads files, as `dispatch` does.
fn do_task<S: Shelf, K: Sink>(
    alloc: Global,
    command: &Command,
    shelf: &mut S,
    out: &mut K,
) -> Status
    requires { IsTrue (reads command.now) }
    ensures answer { (files : List File) → S.held shelf.old ≡ Some files → Answers (answer command.now files) result (K.out out.old) (K.out out.new) }
    ensures passes { (files : List File) → S.held shelf.old ≡ Some files → AnswersSome command.now files result (K.out out.old) (K.out out.new) }
    ensures whole { (files : List File) → S.held shelf.old ≡ Some files → AnswersAll command.now files result (K.out out.old) (K.out out.new) }
    ensures usage { result ≡ Usage → ⊥ }
    ensures files { (files : List File) → S.held shelf.old ≡ Some files
        → Stores (answer command.now files).files result (S.held shelf.old) (S.held shelf.new) }
    ensures held { stores command.now ≡ false → S.held shelf.new ≡ S.held shelf.old }
    ensures stored { stores command.now ≡ false → S.write_faults shelf.new ≡ S.write_faults shelf.old }
    ensures read { result ≡ ReadFault → Rose (S.read_faults shelf.old) (S.read_faults shelf.new) ⊎ Misses (S.held shelf.old) (task command.now) }
    ensures write { result ≡ WriteFault → Rose (K.faults out.old) (K.faults out.new) }
    ensures store { result ≡ StoreFault → Rose (S.write_faults shelf.old) (S.write_faults shelf.new) }
    ensures complete { Calm (S.read_faults shelf.old) (S.read_faults shelf.new) (S.write_faults shelf.old) (S.write_faults shelf.new)
        (K.faults out.old) (K.faults out.new)
        → Complete (answer command.now) (λ files. S.held shelf.old ≡ Some files) result }
    ensures reads_later { S.read_faults shelf.old ≤ S.read_faults shelf.new }
    ensures stores_later { S.write_faults shelf.old ≤ S.write_faults shelf.new }
    ensures puts_later { K.faults out.old ≤ K.faults out.new }
{
    moved_laws();
    match task_of(alloc, command, shelf) {
        Ok(task) => {
            let status = show(alloc, &task, shelf, out);
            drop(task);
            status
        }
        Err(Halt::Refused(refusal)) => {
            let status = show_refusal(alloc, &refusal, out);
            drop(refusal);
            status
        }
        Err(Halt::Read) => Status::ReadFault,
        Err(Halt::Memory) => Status::OutOfMemory,
    }
}

/// The seed and the size of a job that is to be made. Every other command reads files.
fn seed_and_size(command: &Command) -> Option<(u64, u32)>
    ensures some { IfSome result (λ x. command.now ≡ Gen x.0 x.1) }
    ensures none { IfNone result (reads command.now ≡ true) }
{
    match command {
        Command::Gen { seed, size } => Some((*seed, *size)),
        Command::Run { .. }
        | Command::Check { .. }
        | Command::Rewrite { .. }
        | Command::Policy { .. } => None,
    }
}

/// Does what a command asks for: reads the files that it names from a shelf, stores there what it makes, and writes to a sink. Condition: a job
/// that is to be made has 1 to 1,000 classes.
pub fn dispatch<S: Shelf, K: Sink>(
    alloc: Global,
    command: &Command,
    shelf: &mut S,
    out: &mut K,
) -> Status
    requires { IsSized command.now }
    // The bytes that are written, and the status, are the answer to the command over the bytes of the files, where it reads any.
    ensures answer { (files : List File) → Over (reads command.now) (S.held shelf.old) files
        → Answers (answer command.now files) result (K.out out.old) (K.out out.new) }
    // Of a run in the pass form they answer what the inspecting run of the program as it was written has told after some of its steps, and
    ensures passes { (files : List File) → S.held shelf.old ≡ Some files → AnswersSome command.now files result (K.out out.old) (K.out out.new) }
    // all that it tells, where it has ended and the plan has enough steps.
    ensures whole { (files : List File) → S.held shelf.old ≡ Some files → AnswersAll command.now files result (K.out out.old) (K.out out.new) }
    // Whatever is answered: the run of the moved program has the events and the end of that inspecting run;
    ensures agrees { (files : List File) → HoldBytes files → IsPassedSo RunsAgree command.now files }
    // the moved program passes the checker;
    ensures checked { (files : List File) → HoldBytes files → IsPassedSo MovedIsChecked command.now files }
    // and neither run is ever stuck.
    ensures unstuck { (files : List File) → HoldBytes files → IsPassedSo NeitherIsStuck command.now files }
    ensures usage { result ≡ Usage → ⊥ }
    // The files that are stored are those of the answer.
    ensures files { (files : List File) → Over (reads command.now) (S.held shelf.old) files
        → Stores (answer command.now files).files result (S.held shelf.old) (S.held shelf.new) }
    // A command that stores no files leaves those that are there.
    ensures held { stores command.now ≡ false → S.held shelf.new ≡ S.held shelf.old }
    ensures stored { stores command.now ≡ false → S.write_faults shelf.new ≡ S.write_faults shelf.old }
    // A fault of reading is told only where one was counted in this call, or where a file that is to be read is missing or too
    // long.
    ensures read { result ≡ ReadFault → Rose (S.read_faults shelf.old) (S.read_faults shelf.new) ⊎ Misses (S.held shelf.old) (task command.now) }
    // Where the command makes its files none is read or stored, and there is no fault of either.
    ensures made { makes command.now ≡ true → NoFileFault result }
    // A fault of writing is told only where one was counted in this call.
    ensures write { result ≡ WriteFault → Rose (K.faults out.old) (K.faults out.new) }
    // A fault of storing is told only where one was counted in this call.
    ensures store { result ≡ StoreFault → Rose (S.write_faults shelf.old) (S.write_faults shelf.new) }
    // Where no fault is counted and each file that is to be read is there, the status is the answer's, or memory ran out.
    ensures complete { Calm (S.read_faults shelf.old) (S.read_faults shelf.new) (S.write_faults shelf.old) (S.write_faults shelf.new)
        (K.faults out.old) (K.faults out.new)
        → Complete (answer command.now) (Over (reads command.now) (S.held shelf.old)) result }
    // The answer to a command that reads no file has a status.
    ensures status { reads command.now ≡ false → (files : List File) → HasStatus (answer command.now files) }
    ensures reads_later { S.read_faults shelf.old ≤ S.read_faults shelf.new }
    ensures stores_later { S.write_faults shelf.old ≤ S.write_faults shelf.new }
    ensures puts_later { K.faults out.old ≤ K.faults out.new }
{
    passed_law();
    made_law();
    match seed_and_size(command) {
        Some((seed, size)) => show_made(alloc, seed, size, out),
        None => do_task(alloc, command, shelf, out),
    }
}

/// Does all that the program does with its words: reads the files that they name from a shelf, stores there what it makes, and writes to a
/// sink.
#[tactic(auto, using(crate::proofs::JdriverProofs::StoredFiles::stores_nothing, jstore::proofs::StoredFiles::front_same))]
pub fn javasec<S: Shelf, K: Sink>(
    alloc: Global,
    words: &[String],
    shelf: &mut S,
    out: &mut K,
) -> Status
    // The bytes that are written, and the status, are the answer to the words over the bytes of the files, where they read any.
    ensures answer { (files : List File) → Over (any_reads (command_of (words_of words.now))) (S.held shelf.old) files
        → Answers (answered words.now files) result (K.out out.old) (K.out out.new) }
    // Where the words run a job in the pass form, they answer what the inspecting run of the program as it was written has told after some of
    // its steps, and
    ensures passes { (files : List File) (c : Command) → S.held shelf.old ≡ Some files → command_of (words_of words.now) ≡ Some c
        → AnswersSome c files result (K.out out.old) (K.out out.new) }
    // all that it tells, where it has ended and the plan has enough steps.
    ensures whole { (files : List File) (c : Command) → S.held shelf.old ≡ Some files → command_of (words_of words.now) ≡ Some c
        → AnswersAll c files result (K.out out.old) (K.out out.new) }
    // Whatever is answered: the run of the moved program has the events and the end of that inspecting run;
    ensures agrees { (files : List File) (c : Command) → HoldBytes files → command_of (words_of words.now) ≡ Some c
        → IsPassedSo RunsAgree c files }
    // the moved program passes the checker;
    ensures checked { (files : List File) (c : Command) → HoldBytes files → command_of (words_of words.now) ≡ Some c
        → IsPassedSo MovedIsChecked c files }
    // and neither run is ever stuck.
    ensures unstuck { (files : List File) (c : Command) → HoldBytes files → command_of (words_of words.now) ≡ Some c
        → IsPassedSo NeitherIsStuck c files }
    // Usage comes exactly where the words are no command.
    ensures usage { UsageExactly (command_of (words_of words.now)) result }
    // The files that are stored are those of the answer.
    ensures files { (files : List File) → Over (any_reads (command_of (words_of words.now))) (S.held shelf.old) files
        → Stores (answered words.now files).files result (S.held shelf.old) (S.held shelf.new) }
    // A command that stores no files leaves those that are there.
    ensures held { any_stores (command_of (words_of words.now)) ≡ false → S.held shelf.new ≡ S.held shelf.old }
    ensures stored { any_stores (command_of (words_of words.now)) ≡ false → S.write_faults shelf.new ≡ S.write_faults shelf.old }
    // A fault of reading is told only where one was counted in this call, or where a file that is to be read is missing or too
    // long.
    ensures read { result ≡ ReadFault → Rose (S.read_faults shelf.old) (S.read_faults shelf.new)
        ⊎ MissesAny (S.held shelf.old) (command_of (words_of words.now)) }
    // Where the command makes its files none is read or stored, and there is no fault of either.
    ensures made { any_makes (command_of (words_of words.now)) ≡ true → NoFileFault result }
    // A fault of writing is told only where one was counted in this call.
    ensures write { result ≡ WriteFault → Rose (K.faults out.old) (K.faults out.new) }
    // A fault of storing is told only where one was counted in this call.
    ensures store { result ≡ StoreFault → Rose (S.write_faults shelf.old) (S.write_faults shelf.new) }
    // Where no fault is counted and each file that is to be read is there, the status is the answer's, or memory ran out.
    ensures complete { Calm (S.read_faults shelf.old) (S.read_faults shelf.new) (S.write_faults shelf.old) (S.write_faults shelf.new)
        (K.faults out.old) (K.faults out.new)
        → Complete (answered words.now) (Over (any_reads (command_of (words_of words.now))) (S.held shelf.old)) result }
    // The answer to words that read no file has a status.
    ensures status { any_reads (command_of (words_of words.now)) ≡ false → (files : List File) → HasStatus (answered words.now files) }
    ensures reads_later { S.read_faults shelf.old ≤ S.read_faults shelf.new }
    ensures stores_later { S.write_faults shelf.old ≤ S.write_faults shelf.new }
    ensures puts_later { K.faults out.old ≤ K.faults out.new }
{
    passed_law();
    made_law();
    let command = match read_words(alloc, words) {
        Ok(command) => command,
        Err(WordsError::Usage) => return show_usage(out),
        Err(WordsError::Memory) => return Status::OutOfMemory,
    };
    dispatch(alloc, &command, shelf, out)
}
