ghost use Rattle.std.specs.Prelude.{◌≡◌, ◌∷◌, [], ◌<◌, ◌≤◌, ◌+◌, length, IfErr, IfNone, IfOk, IfSome, MatchResult, false, true};
ghost use Rattle.std.specs.Str.{is_utf8};
ghost use Rattle.std.specs.Str.Lossy.{utf8_valid_len};
ghost use Rattle.jjob.specs.Jobs.{JobGives, job, job_in, line_at, lines_of, number_of_lines};
ghost use Rattle.jjob.specs.JobLineAnswers.{IsSkipped, Skips, TakesAll, TellsAll};
ghost use Rattle.jjob.specs.JobReaderState.{IsTold};
ghost use Rattle.jjob.specs.JobLimits.{IsWithin};

use crate::job::{Job, JobError};
use crate::names::{first_again_by, first_again_to};
use crate::reader::take;
use crate::told::Told;
use std::alloc::{AllocError, Global};

/// The job that the bytes of a job file are.
///
/// It is UTF-8 text of lines, each ended by a line feed; a line that is empty or begins with `#` is skipped, and any other is a key,
/// a space and a value that isn't empty. An error names the first line that is bad, counted from 1: for bytes that aren't UTF-8 that
/// of the first bad byte, before all else, and for a job without `main` the one behind the last line. Memory may run out at any time.
#[tactic(auto, unfolding(crate::specs::Jobs::job))]
pub fn read_job(alloc: Global, bytes: &[u8]) -> Result<Job, JobError>
    requires { length bytes.now < 0xffff_ffff }
    ensures value { JobGives result (job bytes.now) }
    // A job has no more code sources and class files than it may have.
    ensures within { IfOk result IsWithin }
    ensures text { IfOk result (λ _. is_utf8 bytes.now ≡ true) }
{
    match text_of(bytes) {
        Ok(text) => job_in(alloc, text),
        Err(place) => Err(JobError::Line {
            line: line_at(bytes, place),
        }),
    }
}

/// The text of UTF-8 bytes, or the place of the first bad one.
fn text_of(bytes: &[u8]) -> Result<&str, usize>
    ensures cases { MatchResult result (λ text. (text.now ≡ bytes.now) × (is_utf8 bytes.now ≡ true))
        (λ place. (place ≡ utf8_valid_len bytes.now) × (is_utf8 bytes.now ≡ false)) }
    ensures within { IfErr result (λ place. place ≤ length bytes.now) }
{
    match str::from_utf8(bytes) {
        Ok(text) => Ok(text),
        Err(fault) => Err(fault.valid_up_to()),
    }
}

/// The number of the line in which a place stands.
fn line_at(bytes: &[u8], place: usize) -> u32
    requires small { length bytes.now < 0xffff_ffff }
    requires within { place ≤ length bytes.now }
    ensures { result ≡ line_at bytes.now place }
{
    let before = &bytes[..place];
    let feeds = before.iter().filter(|b| **b == b'\n').count();
    feeds as u32 + 1
}

/// The job of a text's lines.
#[tactic(auto, unfolding(crate::specs::Jobs::job_in))]
fn job_in(alloc: Global, text: &str) -> Result<Job, JobError>
    requires { length text.now < 0xffff_ffff }
    ensures { JobGives result (job_in text.now) }
{
    let told = lines_read(alloc, text)?;
    let Some(job) = told.into_job(alloc)? else {
        return Err(JobError::Line {
            line: number_of_lines(text) + 1,
        });
    };
    Ok(job)
}

/// What a text's lines give, or the first bad one.
fn lines_read(alloc: Global, text: &str) -> Result<Told, JobError>
    requires { length text.now < 0xffff_ffff }
    ensures { TakesAll (lines_of text.now) result }
{
    let mut told = Told::new(alloc);
    let bad = bad_line(alloc, text, &mut told)?;
    match bad {
        Some(line) => Err(JobError::Line { line }),
        None => Ok(told),
    }
}

/// The number of the first bad line of a text; where there is none, what the lines give is told. Nothing was told before.
fn bad_line(alloc: Global, text: &str, told: &mut Told) -> Result<Option<u32>, AllocError>
    requires small { length text.now < 0xffff_ffff }
    requires empty { IsTold [] told.old }
    ensures { IfOk result (TellsAll (lines_of text.now) told.new) }
{
    let mut digests = Vec::new(alloc);
    let (mut rest, mut number) = behind_skipped(text, 1);
    while let Some((line, more)) = first_line(rest) {
        let taken = take(alloc, told, &mut digests, line)?;
        if !taken {
            let line = first_again_to(alloc, text, digests, number)?;
            return Ok(Some(line));
        }
        let (next, place) = behind_skipped(more, number + 1);
        rest = next;
        number = place;
    }
    let taken = take(alloc, told, &mut digests, rest)?;
    if !taken {
        let line = first_again_to(alloc, text, digests, number)?;
        return Ok(Some(line));
    }
    first_again_by(alloc, text, digests)
}

/// What is left of a text behind the lines at its front that are skipped, and the number of the first line that is left, where the text's
/// first one has the number. The text's last line is always left.
fn behind_skipped(text: &str, number: u32) -> (&str, u32)
    requires { number + length text.now ≤ 0xffff_ffff }
    ensures skips { Skips (lines_of text.now) number (lines_of result.0.now) result.1 }
    ensures small { result.1 + length result.0.now ≤ number + length text.now }
    ensures shorter { length result.0.now ≤ length text.now }
{
    let mut place = number;
    let mut rest = text;
    while let Some(more) = behind_first_skipped(rest) {
        place += 1;
        rest = more;
    }
    (rest, place)
}

/// What stands behind the first line of a text, where it is skipped and ends.
#[inline(always)]
fn behind_first_skipped(text: &str) -> Option<&str>
    ensures skipped { IfSome result (λ more. IsSkipped (lines_of text.now) (lines_of more.now)) }
    ensures shorter { IfSome result (λ more. length more.now < length text.now) }
{
    if let Some(more) = text.strip_prefix('\n') {
        return Some(more);
    }
    let Some(rest) = text.strip_prefix('#') else {
        return None;
    };
    let Some((_, more)) = first_line(rest) else {
        return None;
    };
    Some(more)
}

/// The first line of a text, and what stands behind the line feed that ends it.
#[inline(always)]
pub fn first_line(text: &str) -> Option<(&str, &str)>
    ensures none { IfNone result (lines_of text.now ≡ text.now ∷ []) }
    ensures some { IfSome result (λ x. lines_of text.now ≡ x.0.now ∷ lines_of x.1.now) }
    ensures shorter { IfSome result (λ x. length x.1.now < length text.now) }
{
    if let Some(more) = text.strip_prefix('\n') {
        return Some(("", more));
    }
    match text.split_once('\n') {
        Some((first, more)) => Some((first, more)),
        None => None,
    }
}

/// How many lines a text has.
fn number_of_lines(text: &str) -> u32
    requires { length text.now < 0xffff_ffff }
    ensures value { result ≡ number_of_lines (lines_of text.now) }
    ensures small { result ≤ length text.now }
{
    let mut number = 0;
    let mut rest = text;
    while let Some((_, more)) = first_line(rest) {
        number += 1;
        rest = more;
    }
    if rest.is_empty() {
        return number;
    }
    number + 1
}
