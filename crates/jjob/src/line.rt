ghost use Rattle.std.specs.Prelude.{◌≡◌, ◌<◌, IfNone, IfOk, IfSome, None, Some, length};
ghost use Rattle.jjob.specs.declared.line.Said.TheVariants.{Prop};
ghost use Rattle.jjob.specs.JobLines.{SaysNoProp, code_said, counted, cwd_said, depth_said, is_kept, keyed, prop_said, said_of, schedule_said};

use crate::number::{number_up_to, numbers_up_to, small_up_to};
use crate::text::Text;
use jdomain::{CodeSource, SourceError};
use jground::jbase::Seq;
use std::alloc::{AllocError, Global};

/// The most cells of a heap.
pub const MOST_HEAP: u32 = 16_777_216;

/// The most frames of a thread.
pub const MOST_DEPTH: u32 = 10_000;

/// The most steps of a run.
pub const MOST_STEPS: u64 = 1_000_000_000_000;

/// The greatest number of a schedule.
pub const MOST_PICK: u32 = 4_294_967_295;

/// What a line of a job says.
#[derive(Drop)]
pub enum Said {
    /// The path of the policy.
    Policy(Text),
    /// A property's name and value.
    Prop(Text, Text),
    /// The folder in which the job runs.
    Cwd(Text),
    /// A code source.
    Code(CodeSource),
    /// The path of a class file.
    Class(Text),
    /// The name of the main class.
    Main(Text),
    /// Numbers of the schedule.
    Schedule(Seq<u32>),
    /// The cells of the heap.
    Heap(u32),
    /// The frames of a thread.
    Depth(u32),
    /// The steps of a run.
    Steps(u64),
}

/// Whether a line isn't empty and doesn't begin with `#`.
#[tactic(auto, unfolding(crate::specs::JobLines::is_kept))]
pub fn is_kept(line: &str) -> bool
    ensures { result ≡ is_kept line.now }
{
    !line.is_empty() && !line.starts_with('#')
}

/// What a line says, if it is a key that a job has, a space and a good value.
#[tactic(auto, unfolding(crate::specs::JobLines::said_of))]
pub fn said_of(alloc: Global, line: &str) -> Result<Option<Said>, AllocError>
    ensures { IfOk result (λ s. s ≡ said_of line.now) }
{
    let Some((key, value)) = line.split_once(' ') else {
        return Ok(None);
    };
    if value.is_empty() {
        return Ok(None);
    }
    keyed(alloc, key, value)
}

/// What a key says with a value, if a job has the key and the value is good.
#[tactic(auto, unfolding(crate::specs::JobLines::keyed))]
fn keyed(alloc: Global, key: &str, value: &str) -> Result<Option<Said>, AllocError>
    ensures { IfOk result (λ s. s ≡ keyed key.now value.now) }
{
    if key == "policy" {
        return Ok(Some(Said::Policy(Text::from_str(alloc, value)?)));
    }
    if key == "prop" {
        return prop_said(alloc, value);
    }
    if key == "cwd" {
        return cwd_said(alloc, value);
    }
    if key == "code" {
        return code_said(alloc, value);
    }
    if key == "class" {
        return Ok(Some(Said::Class(Text::from_str(alloc, value)?)));
    }
    if key == "main" {
        return Ok(Some(Said::Main(Text::from_str(alloc, value)?)));
    }
    counted(alloc, key, value)
}

/// What a key says whose value is of numbers.
#[tactic(auto, unfolding(crate::specs::JobLines::counted))]
fn counted(alloc: Global, key: &str, value: &str) -> Result<Option<Said>, AllocError>
    ensures { IfOk result (λ s. s ≡ counted key.now value.now) }
{
    if key == "schedule" {
        return schedule_said(alloc, value);
    }
    if key == "heap" {
        return Ok(small_up_to(MOST_HEAP, value).map(Said::Heap));
    }
    if key == "depth" {
        return Ok(depth_said(value));
    }
    if key == "steps" {
        return Ok(number_up_to(MOST_STEPS, value).map(Said::Steps));
    }
    Ok(None)
}

/// The frames of a thread: at least one.
#[tactic(auto, unfolding(crate::specs::JobLines::depth_said))]
fn depth_said(value: &str) -> Option<Said>
    ensures { result ≡ depth_said value.now }
{
    let frames = small_up_to(MOST_DEPTH, value)?;
    if frames == 0 {
        return None;
    }
    Some(Said::Depth(frames))
}

/// A property: its name ends at the first `=` and isn't empty.
#[tactic(auto, unfolding(crate::specs::JobLines::prop_said))]
fn prop_said(alloc: Global, text: &str) -> Result<Option<Said>, AllocError>
    ensures { IfOk result (λ s. s ≡ prop_said text.now) }
{
    let Some((name, value)) = text.split_once('=') else {
        return Ok(None);
    };
    if name.is_empty() {
        return Ok(None);
    }
    let name = Text::from_str(alloc, name)?;
    let value = Text::from_str(alloc, value)?;
    Ok(Some(Said::Prop(name, value)))
}

/// The name and the value of a property, where a line says one. Nothing is copied.
#[tactic(auto, unfolding(crate::specs::JobLines::said_of, crate::specs::JobLines::keyed))]
pub fn prop_of(line: &str) -> Option<(&str, &str)>
    ensures some { IfSome result (λ x. said_of line.now ≡ Some (Prop x.0.now x.1.now)) }
    ensures none { IfNone result (SaysNoProp line.now) }
{
    let Some((key, text)) = line.split_once(' ') else {
        return None;
    };
    if key != "prop" {
        return None;
    }
    pair_of(text)
}

/// The name and the value that a property's text has.
#[tactic(auto, unfolding(crate::specs::JobLines::prop_said))]
fn pair_of(text: &str) -> Option<(&str, &str)>
    ensures some { IfSome result (λ x. prop_said text.now ≡ Some (Prop x.0.now x.1.now)) }
    ensures none { IfNone result (prop_said text.now ≡ None) }
    ensures filled { IfSome result (λ x. 0 < length text.now) }
{
    let Some((name, value)) = text.split_once('=') else {
        return None;
    };
    if name.is_empty() {
        return None;
    }
    Some((name, value))
}

/// A folder: its path begins with `/`.
#[tactic(auto, unfolding(crate::specs::JobLines::cwd_said))]
fn cwd_said(alloc: Global, path: &str) -> Result<Option<Said>, AllocError>
    ensures { IfOk result (λ s. s ≡ cwd_said path.now) }
{
    if !path.starts_with('/') {
        return Ok(None);
    }
    Ok(Some(Said::Cwd(Text::from_str(alloc, path)?)))
}

/// A code source: the URL of a directory.
#[tactic(auto, unfolding(crate::specs::JobLines::code_said))]
fn code_said(alloc: Global, url: &str) -> Result<Option<Said>, AllocError>
    ensures { IfOk result (λ s. s ≡ code_said url.now) }
{
    match CodeSource::read(alloc, url) {
        Ok(source) => Ok(Some(Said::Code(source))),
        Err(SourceError::Memory) => Err(AllocError),
        Err(SourceError::NotUrl) => Ok(None),
        Err(SourceError::NotDirectory) => Ok(None),
    }
}

/// Numbers of the schedule, parted by one space each.
#[tactic(auto, unfolding(crate::specs::JobLines::schedule_said))]
fn schedule_said(alloc: Global, text: &str) -> Result<Option<Said>, AllocError>
    ensures { IfOk result (λ s. s ≡ schedule_said text.now) }
{
    match numbers_up_to(alloc, MOST_PICK, text)? {
        Some(numbers) => Ok(Some(Said::Schedule(numbers))),
        None => Ok(None),
    }
}
