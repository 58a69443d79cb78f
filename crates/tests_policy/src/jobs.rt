use jground::jtext::Units;
use jjob::{
    Command, Form, Job, JobError, JobSource, Text, WordsError, read_job, read_words, stored_job,
};
use std::alloc::{AllocError, Global};
use tests_rows::{Answer, Unread, string_of, unquoted};

fn tell_path(path: &str, end: &str, answer: &mut Answer) {
    answer.tell(path);
    answer.tell(end);
}

fn tell_units(units: &Units, end: &str, answer: &mut Answer) {
    answer.units(units.as_slice());
    answer.tell(end);
}

fn tell_number(number: u64, end: &str, answer: &mut Answer) {
    answer.debug(&number);
    answer.tell(end);
}

fn tell_source(source: &JobSource, answer: &mut Answer) {
    tell_path(source.source.text(), ":", answer);
    for path in source.classes.as_slice() {
        tell_path(path.as_str(), ",", answer);
    }
    answer.tell(";");
}

fn tell_props(job: &Job, answer: &mut Answer) {
    for (name, value) in job.props.as_slice() {
        tell_units(name, "=", answer);
        tell_units(value, ";", answer);
    }
    answer.tell("|");
}

fn tell_sources(job: &Job, answer: &mut Answer) {
    for source in job.sources.as_slice() {
        tell_source(source, answer);
    }
    answer.tell("|");
}

fn tell_schedule(job: &Job, answer: &mut Answer) {
    for pick in job.schedule.as_slice() {
        tell_number(u64::from(*pick), ",", answer);
    }
    answer.tell("|");
}

/// Tells a job: its policy, properties, directory, code sources, main class, schedule, heap, depth and steps, with a `|` between.
fn tell_job(job: &Job, answer: &mut Answer) {
    answer.tell("'");
    match &job.policy {
        Some(path) => tell_path(path.as_str(), "|", answer),
        None => answer.tell("-|"),
    }
    tell_props(job, answer);
    tell_units(&job.cwd, "|", answer);
    tell_sources(job, answer);
    tell_units(&job.main, "|", answer);
    tell_schedule(job, answer);
    tell_number(u64::from(job.heap), "|", answer);
    tell_number(u64::from(job.depth), "|", answer);
    tell_number(job.steps, "'", answer);
}

/// The job of bytes.
fn job_of(alloc: Global, bytes: &[u8]) -> Result<Job, JobError> {
    if 4_294_967_294 < bytes.len() {
        return Err(JobError::Memory);
    }
    read_job(alloc, bytes)
}

/// Tells why bytes are no job: their first bad line.
fn tell_fault(error: JobError, answer: &mut Answer) {
    match error {
        JobError::Line { line } => {
            answer.tell("line ");
            answer.debug(&line);
        }
        JobError::Memory => answer.lack(),
    }
}

/// The job of a text, or its first bad line.
pub fn job(field: &str, answer: &mut Answer) {
    let bytes = answer.spelled(field);
    match job_of(answer.alloc(), bytes.as_slice()) {
        Ok(job) => tell_job(&job, answer),
        Err(error) => tell_fault(error, answer),
    }
}

/// Puts the bytes that a field spells, so often.
fn put_spelled(field: &str, times: u32, bytes: &mut Vec<u8>, answer: &mut Answer) {
    let part = answer.spelled(field);
    for _ in 0..times {
        answer.needs(bytes.extend_from_slice(part.as_slice()));
    }
}

/// Whether a first text, as many times another, and a last one are a job, or their first bad line.
pub fn long_job(fields: &str, answer: &mut Answer) {
    let (start, rest) = answer.parted(fields, " | ");
    let (part, rest) = answer.parted(rest, " | ");
    let (times, last) = answer.parted(rest, " | ");
    let times = answer.number(times);
    let mut bytes = answer.spelled(start);
    put_spelled(part, times, &mut bytes, answer);
    put_spelled(last, 1, &mut bytes, answer);
    match job_of(answer.alloc(), bytes.as_slice()) {
        Ok(job) => {
            drop(job);
            answer.tell("a job");
        }
        Err(error) => tell_fault(error, answer),
    }
}

fn name_of(form: Form) -> &'static str {
    match form {
        Form::Inspect => "inspect",
        Form::Pass => "pass",
        Form::Plain => "plain",
    }
}

/// Tells a verb and two words.
fn tell_verb(verb: &str, one: &str, other: &str, answer: &mut Answer) {
    answer.tell("'");
    answer.tell(verb);
    answer.tell(" ");
    answer.tell(one);
    answer.tell(" ");
    answer.tell(other);
    answer.tell("'");
}

/// Tells the verb `gen` and its numbers.
fn tell_gen(seed: u64, size: u32, answer: &mut Answer) {
    answer.tell("'gen ");
    answer.debug_pair(&seed, &size);
    answer.tell("'");
}

fn tell_command(command: &Command, answer: &mut Answer) {
    match command {
        Command::Run { form, job } => tell_verb("run", name_of(*form), job.as_str(), answer),
        Command::Check { form, job } => tell_verb("check", name_of(*form), job.as_str(), answer),
        Command::Rewrite { job, to } => tell_verb("rewrite", job.as_str(), to.as_str(), answer),
        Command::Policy { job } => answer.tell_between("'policy ", job.as_str().as_bytes(), "'"),
        Command::Gen { seed, size } => tell_gen(*seed, *size, answer),
    }
}

/// Words, each but the first behind a bar.
fn words_of(alloc: Global, text: &str) -> Result<Vec<String>, AllocError> {
    let mut words = Vec::new(alloc);
    for word in text.split('|') {
        words.push(String::from_str(alloc, word)?)?;
    }
    Ok(words)
}

/// The words of a field, none for `-`.
fn words_if(alloc: Global, field: &str) -> Result<Vec<String>, Unread> {
    if field == "-" {
        return Ok(Vec::new(alloc));
    }
    let text = string_of(alloc, unquoted(field)?)?;
    Ok(words_of(alloc, text.as_str())?)
}

/// The command of words behind the program's name, each but the first behind a bar, or of none; or that they are no command.
pub fn command(field: &str, answer: &mut Answer) {
    let alloc = answer.alloc();
    let Ok(words) = words_if(alloc, field) else {
        return answer.refuse();
    };
    match read_words(alloc, words.as_slice()) {
        Ok(command) => tell_command(&command, answer),
        Err(WordsError::Usage) => answer.tell("usage"),
        Err(WordsError::Memory) => answer.lack(),
    }
}

/// Paths, each but the first behind a bar.
fn paths_of(alloc: Global, text: &str) -> Result<Vec<Text>, AllocError> {
    let mut paths = Vec::new(alloc);
    for path in text.split('|') {
        paths.push(Text::from_str(alloc, path)?)?;
    }
    Ok(paths)
}

/// The paths of a field, none for `-`.
fn paths_if(alloc: Global, field: &str) -> Result<Vec<Text>, Unread> {
    if field == "-" {
        return Ok(Vec::new(alloc));
    }
    Ok(paths_of(alloc, unquoted(field)?)?)
}

/// The text of a job, behind it paths, each but the first behind a bar: the text that is stored with these in the place of its classes'.
pub fn stored(fields: &str, answer: &mut Answer) {
    let (text, paths) = answer.parted(fields, " | ");
    let alloc = answer.alloc();
    let text = answer.text_of(text);
    let Ok(paths) = paths_if(alloc, paths) else {
        return answer.refuse();
    };
    match stored_job(alloc, text.as_str(), paths.as_slice()) {
        Ok(bytes) => answer.tell_between("'", bytes.as_slice(), "'"),
        Err(_) => answer.lack(),
    }
}
