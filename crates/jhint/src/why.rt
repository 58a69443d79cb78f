ghost use Rattle.std.specs.Prelude.{◌≡◌, ◌≤◌};

use crate::checks::say_check;
use crate::classes::say_class;
use crate::limits::say_limit;
use crate::lines::say_line;
use crate::links::say_link;
use crate::mains::say_main;
use crate::policies::say_policy;
use crate::said::Said;
use joutput::jio::{Shelf, Sink};
use jtasks::jstages::{Seen, done_with};
use jtasks::jtask::refused;
use std::alloc::Global;

/// Says why a command is refused, by what was seen of its files.
fn say_seen(seen: &Seen, said: &mut Said) {
    match seen {
        Seen::Job { path, text, line } => say_line(path.as_str(), text, *line, said),
        Seen::Policy {
            path,
            bytes,
            at,
            kind,
        } => say_policy(path.as_str(), bytes, *at, *kind, said),
        Seen::Class {
            path,
            bytes,
            at,
            kind,
        } => say_class(path.as_str(), bytes, *at, *kind, said),
        Seen::Unlinked { program, error } => say_link(program, *error, said),
        Seen::NoMain { program, name } => say_main(program, name, said),
        Seen::Untyped { program, fault } => say_check(program, *fault, said),
        Seen::Unmoved { program, error } => say_limit(program.linked().named(), *error, said),
    }
}

/// Says in one line why the command of the words is refused, where it is: its task is done again, and the files are looked at. What is said
/// is in no clause.
pub fn say_why<S: Shelf, K: Sink>(alloc: Global, words: &[String], shelf: &mut S, out: &mut K)
    ensures held { S.held shelf.new ≡ S.held shelf.old }
    ensures stored { S.write_faults shelf.new ≡ S.write_faults shelf.old }
    ensures later { S.read_faults shelf.old ≤ S.read_faults shelf.new }
{
    let Some(seen) = refused(alloc, words, shelf) else {
        return;
    };
    let mut said = Said::new(alloc);
    say_seen(&seen, &mut said);
    done_with(seen);
    said.send(out);
}

/// Says in one line which file a fault is of, what wasn't done with it, and why, where that is known.
pub fn say_file<K: Sink>(
    alloc: Global,
    path: Option<&str>,
    fault: &str,
    reason: &str,
    out: &mut K,
) {
    let mut said = Said::new(alloc);
    said.text(path.unwrap_or("a file"));
    said.told(fault);
    if !reason.is_empty() {
        said.words(b": ");
        said.told(reason);
    }
    said.send(out);
}
