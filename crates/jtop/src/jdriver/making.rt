ghost use Rattle.std.specs.Prelude.{◌≤◌, ◌<◌, length};
ghost use Rattle.joutput.specs.jtally.LineTallies.{tally_line};
ghost use Rattle.jshow.specs.CommandAnswers.{Puts, Shows, listed};
ghost use Rattle.jtop.specs.jdriver.GeneratedRuns.{made, made_line, made_text, runs_text};

use crate::jdriver::counting::told_both;
use joutput::jio::{Part, Sink, write_line};
use joutput::jtally::{Tally, put_tally};
use joutput::jtrace::RunFault;
use jshow::{Status, show_refusal};
use jtasks::jstages::Halt;
use std::alloc::Global;

/// Writes the line of a job that is made.
fn put_line<K: Sink>(size: u32, out: &mut K) -> Result<(), RunFault>
    ensures { Puts (made_line size) result K.out K.faults out.old out.new }
{
    let parts = [
        Part::Plain("made "),
        Part::Number(u64::from(size)),
        Part::Plain(" classes"),
    ];
    write_line(out, &parts)?;
    Ok(())
}

/// Writes the line of a run, behind the word of its form.
fn put_run<K: Sink>(word: &str, tally: Tally, out: &mut K) -> Result<(), RunFault>
    requires { length word.now < 100 }
    ensures { Puts (tally_line word.now tally) result K.out K.faults out.old out.new }
{
    put_tally(out, word, tally)?;
    Ok(())
}

/// Writes the lines of both runs.
fn put_runs<K: Sink>(first: Tally, second: Tally, out: &mut K) -> Result<(), RunFault>
    ensures { Puts (runs_text first second) result K.out K.faults out.old out.new }
{
    put_run("inspect", first, out)?;
    put_run("pass", second, out)
}

/// Writes the line of a job that is made, and those of both runs.
fn put_lines<K: Sink>(size: u32, first: Tally, second: Tally, out: &mut K) -> Result<(), RunFault>
    ensures { Puts (made_text size first second) result K.out K.faults out.old out.new }
{
    put_line(size, out)?;
    put_runs(first, second, out)
}

/// The same, with the status.
fn put_made<K: Sink>(size: u32, first: Tally, second: Tally, out: &mut K) -> Status
    ensures { Shows (listed (made_text size first second)) result K.out K.faults out.old out.new }
{
    match put_lines(size, first, second, out) {
        Ok(()) => Status::Finished,
        Err(RunFault::Sink) => Status::WriteFault,
        Err(RunFault::Memory) => Status::OutOfMemory,
    }
}

/// Makes the job of a seed and a size, runs it in the forms `inspect` and `pass`, and writes how many lines of each kind the text of each run
/// has, and its last line; or a refusal. Nothing goes out before both runs have ended. `size` is 1 to 1,000. `Status::WriteFault` is answered
/// only where the sink counted a fault in this call; want of memory may come at any time, and comes where a made file is missing, which none is.
#[tactic(auto, unfolding(crate::specs::jdriver::GeneratedRuns::made))]
pub fn show_made<K: Sink>(alloc: Global, seed: u64, size: u32, out: &mut K) -> Status
    requires least { 1 ≤ size }
    requires most { size ≤ 1000 }
    ensures { Shows (made seed size) result K.out K.faults out.old out.new }
{
    match told_both(alloc, seed, size) {
        Ok((first, second)) => put_made(size, first, second, out),
        Err(Halt::Refused(refusal)) => show_refusal(alloc, &refusal, out),
        Err(Halt::Read) => Status::OutOfMemory,
        Err(Halt::Memory) => Status::OutOfMemory,
    }
}
