ghost use Rattle.std.specs.Prelude.{◌≡◌, IfOk, false};
ghost use Rattle.clap.specs.Words.{FailsBy, fault_of, found_of, matches_of, rows_of};
ghost use Rattle.jjob.specs.CommandOptions.{app};
ghost use Rattle.jjob.specs.CommandWords.{WordsGive, command, said, words_of};
ghost use Rattle.jjob.specs.ParseRows.{SaidGive, cause_of, said_in};

use crate::command::{Command, WordsError};
use crate::verb::by_verb;
use clap::error::ErrorKind;
use clap::{Arg, ArgAction, ArgMatches, Error};
use std::alloc::Global;

/// The command that the words behind the program's name are.
///
/// They have an option `--form` of one value (`inspect`, `pass` or `plain`), given as `--form plain` or `--form=plain`, at most once
/// and anywhere before `--`. All words behind `--` are taken as they are, and so is `-`; any other word that begins with `-` is
/// refused. `WordsError::Usage` is answered exactly where the words are no command.
#[tactic(auto, unfolding(crate::specs::CommandWords::command))]
pub fn read_words(alloc: Global, words: &[String]) -> Result<Command, WordsError>
    ensures { WordsGive result (command (words_of words.now)) }
{
    let matches = taken(alloc, words)?;
    match matches.get_strs("words") {
        Some(others) => by_verb(alloc, matches.get_str("form"), others),
        None => Err(WordsError::Usage),
    }
}

/// What the words say, as the parser of command lines holds it.
fn taken<'a>(alloc: Global, words: &'a [String]) -> Result<ArgMatches<'a>, WordsError>
    ensures { SaidGive (λ m. said_in (rows_of (found_of m))) result (said false (words_of words.entry.now)) }
{
    match parsed(alloc, words) {
        Ok(matches) => Ok(matches),
        Err(error) => Err(cause(error.kind())),
    }
}

/// Why there is no command, by the parser's word for it.
fn cause(kind: ErrorKind) -> WordsError
    ensures { result ≡ cause_of kind }
{
    match kind {
        ErrorKind::OutOfMemory => WordsError::Memory,
        _ => WordsError::Usage,
    }
}

/// What the parser of command lines makes of the words: an option `--form` with one value, and other words.
fn parsed<'a>(alloc: Global, words: &'a [String]) -> Result<ArgMatches<'a>, Error>
    ensures matches { IfOk result (λ m. rows_of (found_of m) ≡ matches_of app (words_of words.entry.now)) }
    ensures kinds { FailsBy (fault_of app (words_of words.entry.now)) result }
{
    let form = Arg::new(alloc, "form").long("form");
    let rest = Arg::new(alloc, "words").action(ArgAction::Append);
    let command = clap::Command::new(alloc, "javasec")
        .no_binary_name(true)
        .disable_help_flag(true)
        .disable_version_flag(true)
        .arg(form)?
        .arg(rest)?;
    command.try_get_matches_from(words)
}
