//! What the programs of this repository do: take the words, make a real shelf and a real sink, call `javasec`, say one sentence on
//! standard error where a status alone says too little (`jhint`, where something was refused or lost), and end with the status's number.

ghost use Rattle.std.specs.Prelude.{◌≡◌};
ghost use Rattle.std.specs.Process.{exit_status};
ghost use Rattle.jshow.specs.Statuses.{number};

mod faults;
mod regular;

use crate::jdriver::Status;
pub use crate::jdriver::javasec;
use crate::jmain::faults::{say_unread, say_unstored};
use crate::jmain::regular::RegularShelf;
use jhint::{say_losses, say_usage, say_why};
use joutput::jio::{RealShelf, RealSink};
use std::alloc::Global;
use std::process::ExitCode;
use std::time::SystemTime;
use std::{env, io};

/// The words behind the program's name. Where one of them isn't UTF-8 there are none, which is no command.
fn words(rt: &HostRuntime, alloc: Global) -> io::Result<Vec<String>> {
    let mut words = Vec::new(alloc);
    let given = match env::args(rt) {
        Ok(given) => given,
        Err(error) if error.kind() == io::ErrorKind::InvalidData => return Ok(words),
        Err(error) => return Err(error),
    };
    for word in given.skip(1) {
        words.push(word)?;
    }
    Ok(words)
}

/// One sentence on standard error where the status alone says too little. A standard error that is closed changes nothing.
fn explain(rt: &HostRuntime, status: Status) {
    let told = match status {
        Status::Uncaught => {
            eprintln!(rt;
                "javasec: an exception left a thread, as `uncaught` says; of a `deny .. domain D`, `policy JOB` lists what domain D has"
            )
        }
        Status::Bound => {
            eprintln!(rt;
                "javasec: the run hasn't ended after all its steps: `steps N` of the job sets how many, up to 1000000000000, else 10000000"
            )
        }
        Status::HeapFull => {
            eprintln!(rt;
                "javasec: the heap is full: `heap N` of the job sets how many cells it has, up to 16777216, else 1048576"
            )
        }
        Status::Deadlock => {
            eprintln!(rt;
                "javasec: threads wait for each other by `join`, and none can go on; of the job's keys `schedule` alone may change that"
            )
        }
        Status::WriteFault => eprintln!(rt; "javasec: the output could not be written"),
        Status::OutOfMemory => eprintln!(rt; "javasec: no memory was left"),
        _ => Ok(()),
    };
    let _ = told;
}

/// The same where the words or the files have to be looked at again. Files that aren't regular ones, or were written since a time, aren't
/// opened.
fn explain_files(
    rt: &HostRuntime,
    status: Status,
    words: &[String],
    failed: Option<&str>,
    since: Option<SystemTime>,
) {
    let alloc = rt.alloc();
    let mut errors = RealSink::new(rt.stderr());
    let mut shelf = RegularShelf::new(rt, since);
    match status {
        Status::Finished => say_losses(alloc, words, &mut shelf, &mut errors),
        Status::Usage => say_usage(alloc, words, &mut errors),
        Status::Refused => say_why(alloc, words, &mut shelf, &mut errors),
        Status::ReadFault => say_unread(rt, words, failed, &mut errors),
        Status::StoreFault => say_unstored(rt, failed, &mut errors),
        _ => {}
    }
}

/// The number with which the process ends.
fn code_of(status: Status) -> ExitCode
    ensures { exit_status result ≡ number status }
{
    ExitCode::from(status.number())
}

/// Does what the words of the command line say, and gives the number with which the process ends. That it is that of the driver's status is in no
/// clause, since what the process reads and writes isn't told; stored runs show it.
pub fn run(rt: &HostRuntime) -> ExitCode {
    let alloc = rt.alloc();
    let since = SystemTime::now(rt).ok();
    let Ok(words) = words(rt, alloc) else {
        explain(rt, Status::OutOfMemory);
        return code_of(Status::OutOfMemory);
    };
    let mut shelf = RealShelf::new(rt);
    let mut sink = RealSink::new(io::writer(rt));
    let status = javasec(alloc, &words, &mut shelf, &mut sink);
    explain(rt, status);
    explain_files(rt, status, &words, shelf.failed(), since);
    code_of(status)
}
