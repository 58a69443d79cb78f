ghost use Rattle.std.specs.Prelude.{◌≡◌, ◌≤◌, ◌<◌, ◌^◌, ◌⊎◌, ℕ, IfOk, IsUtf8, List, [], Err, Some, length, true};
ghost use Rattle.std.specs.Str.{is_utf8};
ghost use Rattle.jground.specs.jbase.FaultCauses.{Rose};
ghost use Rattle.jground.specs.jbase.ListMaps.{each};
ghost use Rattle.joutput.specs.jio.ShelfFiles.{File};
ghost use Rattle.jclass.specs.Class.{class_file};
ghost use Rattle.jjob.specs.Jobs.{job};
ghost use Rattle.jjob.specs.JobLimits.{IsWithin};
ghost use Rattle.jlinking.specs.jlink.LinkedPrograms.{AreParts};
ghost use Rattle.jpolicy.specs.Policies.{policy};
ghost use Rattle.jtasks.specs.declared.jstages.halt.Halt.TheVariants.{Read};
ghost use Rattle.jtasks.specs.jstages.JobPlans.{ArePaths};
ghost use Rattle.jtasks.specs.jstages.Stages.{Excused, Follows, Refused, bytes_at};
ghost use Rattle.jtasks.specs.jstages.ReadStage.{class_at, class_read, grants_at, grants_of, grants_read, ground_at, ground_in, job_read, part_at};

use crate::jstages::halt::Halt;
use crate::jstages::job_setup::{ClassPath, JobSetup, ground_of};
use jclass::{ClassFault, ClassFile};
use jground::jbase::{FaultOrMemory, Seq};
use jground::jformat::At;
use jground::jtext::Units;
use jjob::{Job, JobError, Text, read_job};
use joutput::jio::{Shelf, ShelfError};
use jpolicy::{Policy, read_policy};
use jreadclass::read_class;
use jresolution::jprogram::CodePart;
use jshow::Refusal;
use std::alloc::{AllocError, Global};

/// All bytes of the file at a path.
pub fn read_at<S: Shelf>(alloc: Global, path: &str, shelf: &mut S) -> Result<Vec<u8>, Halt>
    ensures value { (files : List File) → S.held shelf.old ≡ Some files → Follows (λ b. b.items) result (bytes_at files path.now) }
    ensures few { IfOk result (λ b. length b.items < 2 ^ 31) }
    ensures held { S.held shelf.new ≡ S.held shelf.old }
    ensures stored { S.write_faults shelf.new ≡ S.write_faults shelf.old }
    ensures later { S.read_faults shelf.old ≤ S.read_faults shelf.new }
    ensures cause { Excused result (S.read_faults shelf.old) (S.read_faults shelf.new) (S.held shelf.old) (λ files. bytes_at files path.now) }
{
    match shelf.read(alloc, path) {
        Ok(bytes) => Ok(bytes),
        Err(ShelfError::Failed) => Err(Halt::Read),
        Err(ShelfError::Memory) => Err(Halt::Memory),
    }
}

/// The text of bytes that are UTF-8.
pub fn text_in(alloc: Global, bytes: &[u8]) -> Result<Text, AllocError>
    requires { IsUtf8 bytes.now }
    ensures { IfOk result (λ text. text ≡ bytes.now) }
{
    match str::from_utf8(bytes) {
        Ok(text) => Text::from_str(alloc, text),
        Err(_) => unreachable!(),
    }
}

// ---- the job

fn job_read(alloc: Global, bytes: &[u8]) -> Result<Job, Halt>
    requires { length bytes.now < 2 ^ 31 }
    ensures value { Follows (λ x. x) result (job_read (job bytes.now)) }
    ensures within { IfOk result IsWithin }
    ensures text { IfOk result (λ _. is_utf8 bytes.now ≡ true) }
    ensures unread { result ≡ Err Read → ⊥ }
{
    match read_job(alloc, bytes) {
        Ok(job) => Ok(job),
        Err(JobError::Line { line }) => Err(Halt::Refused(Refusal::BadJob { line })),
        Err(JobError::Memory) => Err(Halt::Memory),
    }
}

// ---- the policy

fn grants_read(alloc: Global, bytes: &[u8], props: &[(Units, Units)]) -> Result<Policy, Halt>
    requires { length bytes.now < 2 ^ 31 }
    ensures value { Follows (λ x. x) result (grants_read (policy props.now bytes.now)) }
    ensures unread { result ≡ Err Read → ⊥ }
{
    match read_policy(alloc, bytes, props) {
        Ok(grants) => Ok(grants),
        Err(FaultOrMemory::Memory) => Err(Halt::Memory),
        Err(FaultOrMemory::Fault(At { at, kind })) => Err(Halt::Refused(Refusal::BadPolicy {
            at,
            kind,
        })),
    }
}

fn policy_at<S: Shelf>(
    alloc: Global,
    path: &Text,
    props: &[(Units, Units)],
    shelf: &mut S,
) -> Result<Policy, Halt>
    ensures value { (files : List File) → S.held shelf.old ≡ Some files → Follows (λ x. x) result (grants_of files props.now (Some path.now)) }
    ensures held { S.held shelf.new ≡ S.held shelf.old }
    ensures stored { S.write_faults shelf.new ≡ S.write_faults shelf.old }
    ensures later { S.read_faults shelf.old ≤ S.read_faults shelf.new }
    ensures cause { Excused result (S.read_faults shelf.old) (S.read_faults shelf.new) (S.held shelf.old)
        (λ files. grants_of files props.now (Some path.now)) }
{
    let bytes = read_at(alloc, path.as_str(), shelf)?;
    grants_read(alloc, &bytes, props)
}

#[tactic(auto, unfolding(crate::specs::jstages::ReadStage::grants_at))]
fn grants_at<S: Shelf>(alloc: Global, job: &Job, shelf: &mut S) -> Result<Policy, Halt>
    ensures value { (files : List File) → S.held shelf.old ≡ Some files → Follows (λ x. x) result (grants_at files job.now) }
    ensures held { S.held shelf.new ≡ S.held shelf.old }
    ensures stored { S.write_faults shelf.new ≡ S.write_faults shelf.old }
    ensures later { S.read_faults shelf.old ≤ S.read_faults shelf.new }
    ensures cause { Excused result (S.read_faults shelf.old) (S.read_faults shelf.new) (S.held shelf.old) (λ files. grants_at files job.now) }
{
    match &job.policy {
        Some(path) => policy_at(alloc, path, job.props.as_slice(), shelf),
        None => Ok(Seq::new(alloc)),
    }
}

/// What the job of a text and its policy say.
#[tactic(auto, unfolding(crate::specs::jstages::ReadStage::ground_in))]
pub fn ground_in<S: Shelf>(alloc: Global, text: &[u8], shelf: &mut S) -> Result<JobSetup, Halt>
    requires { length text.now < 2 ^ 31 }
    ensures text { IfOk result (λ _. is_utf8 text.now ≡ true) }
    ensures value { (files : List File) → S.held shelf.old ≡ Some files → Follows (λ x. x) result (ground_in files text.now) }
    ensures whole { IfOk result (λ g. length g.domains ≡ length g.sources) }
    ensures paths { IfOk result (λ g. ArePaths g.classes) }
    ensures held { S.held shelf.new ≡ S.held shelf.old }
    ensures stored { S.write_faults shelf.new ≡ S.write_faults shelf.old }
    ensures later { S.read_faults shelf.old ≤ S.read_faults shelf.new }
    ensures cause { Excused result (S.read_faults shelf.old) (S.read_faults shelf.new) (S.held shelf.old) (λ files. ground_in files text.now) }
{
    let job = job_read(alloc, text)?;
    let grants = grants_at(alloc, &job, shelf)?;
    let ground = ground_of(alloc, job, &grants)?;
    Ok(ground)
}

/// What the job at a path and its policy say.
#[tactic(auto, unfolding(crate::specs::jstages::ReadStage::ground_at))]
pub fn ground_at<S: Shelf>(alloc: Global, path: &str, shelf: &mut S) -> Result<JobSetup, Halt>
    ensures value { (files : List File) → S.held shelf.old ≡ Some files → Follows (λ x. x) result (ground_at files path.now) }
    ensures whole { IfOk result (λ g. length g.domains ≡ length g.sources) }
    ensures paths { IfOk result (λ g. ArePaths g.classes) }
    ensures held { S.held shelf.new ≡ S.held shelf.old }
    ensures stored { S.write_faults shelf.new ≡ S.write_faults shelf.old }
    ensures later { S.read_faults shelf.old ≤ S.read_faults shelf.new }
    ensures cause { Excused result (S.read_faults shelf.old) (S.read_faults shelf.new) (S.held shelf.old) (λ files. ground_at files path.now) }
{
    let text = read_at(alloc, path, shelf)?;
    ground_in(alloc, &text, shelf)
}

// ---- class files

/// The refusal of a class file by its first fault.
fn bad_class<T>(alloc: Global, path: &str, at: u32, kind: ClassFault) -> Result<T, Halt>
    ensures value { Follows (λ x. x) result (Err (Refused (Refusal.BadClass path.now at kind))) }
    ensures unread { result ≡ Err Read → ⊥ }
{
    let path = Text::from_str(alloc, path)?;
    Err(Halt::Refused(Refusal::BadClass { path, at, kind }))
}

fn class_read(alloc: Global, path: &str, bytes: &[u8]) -> Result<ClassFile, Halt>
    requires { length bytes.now < 2 ^ 31 }
    ensures value { Follows (λ x. x) result (class_read path.now bytes.now (class_file.read bytes.now)) }
    ensures unread { result ≡ Err Read → ⊥ }
{
    match read_class(alloc, bytes) {
        Ok(class) => Ok(class),
        Err(FaultOrMemory::Memory) => Err(Halt::Memory),
        Err(FaultOrMemory::Fault(At { at, kind })) => bad_class(alloc, path, at, kind),
    }
}

#[tactic(auto, unfolding(crate::specs::jstages::ReadStage::class_at))]
fn class_at<S: Shelf>(alloc: Global, path: &Text, shelf: &mut S) -> Result<ClassFile, Halt>
    ensures value { (files : List File) → S.held shelf.old ≡ Some files → Follows (λ x. x) result (class_at files path.now) }
    ensures held { S.held shelf.new ≡ S.held shelf.old }
    ensures stored { S.write_faults shelf.new ≡ S.write_faults shelf.old }
    ensures later { S.read_faults shelf.old ≤ S.read_faults shelf.new }
    ensures cause { Excused result (S.read_faults shelf.old) (S.read_faults shelf.new) (S.held shelf.old) (λ files. class_at files path.now) }
{
    let bytes = read_at(alloc, path.as_str(), shelf)?;
    class_read(alloc, path.as_str(), &bytes)
}

#[tactic(auto, unfolding(crate::specs::jstages::ReadStage::part_at))]
fn part_at<S: Shelf>(alloc: Global, one: &ClassPath, shelf: &mut S) -> Result<CodePart, Halt>
    ensures value { (files : List File) → S.held shelf.old ≡ Some files → Follows (λ x. x) result (part_at files one.now) }
    ensures domain { IfOk result (λ part. part.domain ≡ one.now.domain) }
    ensures held { S.held shelf.new ≡ S.held shelf.old }
    ensures stored { S.write_faults shelf.new ≡ S.write_faults shelf.old }
    ensures later { S.read_faults shelf.old ≤ S.read_faults shelf.new }
    ensures cause { Excused result (S.read_faults shelf.old) (S.read_faults shelf.new) (S.held shelf.old) (λ files. part_at files one.now) }
{
    let class = class_at(alloc, &one.path, shelf)?;
    Ok(CodePart {
        domain: one.domain,
        class,
    })
}

/// The class files at some paths, each with the number of its code source.
pub fn parts_at<S: Shelf>(
    alloc: Global,
    paths: &[ClassPath],
    shelf: &mut S,
) -> Result<Seq<CodePart>, Halt>
    requires { ArePaths paths.now }
    ensures value { (files : List File) → S.held shelf.old ≡ Some files → Follows (λ x. x) result (each (part_at files) paths.now) }
    // They may be linked.
    ensures parts { IfOk result (λ parts. AreParts parts) }
    ensures held { S.held shelf.new ≡ S.held shelf.old }
    ensures stored { S.write_faults shelf.new ≡ S.write_faults shelf.old }
    ensures later { S.read_faults shelf.old ≤ S.read_faults shelf.new }
    ensures cause { Excused result (S.read_faults shelf.old) (S.read_faults shelf.new) (S.held shelf.old) (λ files. each (part_at files) paths.now) }
{
    let mut parts = Seq::new(alloc);
    for path in paths {
        parts.push(part_at(alloc, path, shelf)?)?;
    }
    Ok(parts)
}
