ghost use Rattle.std.specs.Prelude.{◌≡◌, ◌≤◌};

use crate::jstages::{Seen, look_again};
use crate::jtask::tasks::{refusal_of, side_of};
use jjob::{Command, read_words};
use jlib::Side;
use joutput::jio::Shelf;
use std::alloc::Global;

/// The path of a command's job, empty where it has none.
fn job_of(command: &Command) -> &str {
    match command {
        Command::Run { job, .. }
        | Command::Check { job, .. }
        | Command::Rewrite { job, .. }
        | Command::Policy { job } => job.as_str(),
        Command::Gen { .. } => "",
    }
}

/// The side against whose library a command's classes are linked.
fn side_for(command: &Command) -> Side {
    match command {
        Command::Run { form, .. } | Command::Check { form, .. } => side_of(*form),
        _ => Side::Source,
    }
}

/// Why the command of the words is refused, with what there is to look at. None where it isn't refused, where a file can't be read, or where
/// no memory was left.
pub fn refused<S: Shelf>(alloc: Global, words: &[String], shelf: &mut S) -> Option<Seen>
    ensures held { S.held shelf.new ≡ S.held shelf.old }
    ensures stored { S.write_faults shelf.new ≡ S.write_faults shelf.old }
    ensures later { S.read_faults shelf.old ≤ S.read_faults shelf.new }
{
    let Ok(command) = read_words(alloc, words) else {
        return None;
    };
    let refusal = refusal_of(alloc, &command, shelf)?;
    let side = side_for(&command);
    let seen = look_again(alloc, job_of(&command), side, &refusal, shelf);
    drop(refusal);
    seen
}
