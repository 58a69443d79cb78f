ghost use Rattle.std.specs.Prelude.{◌≡◌, map};
ghost use Rattle.std.specs.Option.{option_copied};
ghost use Rattle.jjob.specs.CommandWords.{WordsGive, by_verb, form_named, form_or_pass, generated, with_one, with_two};
ghost use Rattle.jjob.specs.ProofNames.{rewriting};

use crate::command::{Command, Form, WordsError};
use crate::number::{number_up_to, small_up_to};
use crate::text::Text;
use std::alloc::Global;

/// The command of a form, if one is named, and the other words.
pub(crate) fn by_verb(
    alloc: Global,
    form: Option<&str>,
    words: &[&str],
) -> Result<Command, WordsError>
    ensures { WordsGive result (by_verb (option_copied form.entry) (map (λ w. w.now) words.now)) }
{
    match words {
        [verb, one] => with_one(alloc, form, verb, one),
        [verb, one, two] => with_two(alloc, form, verb, one, two),
        _ => Err(WordsError::Usage),
    }
}

/// The command of a verb that has one path behind it.
fn with_one(alloc: Global, form: Option<&str>, verb: &str, job: &str) -> Result<Command, WordsError>
    ensures { WordsGive result (with_one (option_copied form.entry) verb.now job.now) }
{
    if verb == "run" {
        let Some(form) = form_or_pass(form) else {
            return Err(WordsError::Usage);
        };
        let job = Text::from_str(alloc, job)?;
        return Ok(Command::Run { form, job });
    }
    if verb == "check" {
        let Some(form) = form_or_pass(form) else {
            return Err(WordsError::Usage);
        };
        let job = Text::from_str(alloc, job)?;
        return Ok(Command::Check { form, job });
    }
    if verb == "policy" {
        if form.is_some() {
            return Err(WordsError::Usage);
        }
        let job = Text::from_str(alloc, job)?;
        return Ok(Command::Policy { job });
    }
    Err(WordsError::Usage)
}

/// The command of a verb that has two words behind it.
fn with_two(
    alloc: Global,
    form: Option<&str>,
    verb: &str,
    one: &str,
    two: &str,
) -> Result<Command, WordsError>
    ensures { WordsGive result (with_two (option_copied form.entry) verb.now one.now two.now) }
{
    if form.is_some() {
        return Err(WordsError::Usage);
    }
    if verb == "rewrite" {
        return rewriting(alloc, one, two);
    }
    if verb == "gen" {
        return generated(one, two);
    }
    Err(WordsError::Usage)
}

/// A rewriting of a job, stored below a folder; an empty path names none.
fn rewriting(alloc: Global, job: &str, to: &str) -> Result<Command, WordsError>
    ensures { WordsGive result (rewriting job.now to.now) }
{
    if to.is_empty() {
        return Err(WordsError::Usage);
    }
    let job = Text::from_str(alloc, job)?;
    let to = Text::from_str(alloc, to)?;
    Ok(Command::Rewrite { job, to })
}

/// A program of a seed, which is a u64, and a size from 1 to 1,000.
fn generated(seed: &str, size: &str) -> Result<Command, WordsError>
    ensures { WordsGive result (generated seed.now size.now) }
{
    let Some(seed) = number_up_to(u64::MAX, seed) else {
        return Err(WordsError::Usage);
    };
    let Some(size) = small_up_to(1_000, size) else {
        return Err(WordsError::Usage);
    };
    if size == 0 {
        return Err(WordsError::Usage);
    }
    Ok(Command::Gen { seed, size })
}

/// The form of the name, and `pass` where none is named.
fn form_or_pass(name: Option<&str>) -> Option<Form>
    ensures { result ≡ form_or_pass (option_copied name.entry) }
{
    match name {
        Some(name) => form_named(name),
        None => Some(Form::Pass),
    }
}

fn form_named(name: &str) -> Option<Form>
    ensures { result ≡ form_named name.now }
{
    if name == "inspect" {
        return Some(Form::Inspect);
    }
    if name == "pass" {
        return Some(Form::Pass);
    }
    if name == "plain" {
        return Some(Form::Plain);
    }
    None
}
