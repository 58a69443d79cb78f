ghost use Rattle.std.specs.Prelude.{◌≡◌, ◌≤◌, ◌++◌, IfOk, OnOk, length};
ghost use Rattle.jgen.specs.GeneratedFiles;
ghost use Rattle.jgen.specs.GeneratedFiles.{class_file, class_files};

use crate::class::class_bytes;
use crate::draws::{Kind, kinds_of};
use crate::texts::{job_text, path_of, policy_text};
use jground::jbase::Seq;
use std::alloc::{AllocError, Global};

/// A file of a made job.
#[rattlefmt::skip]
#[derive(Drop)]
pub struct MadeFile { pub path: Seq<u8>, pub bytes: Seq<u8> }

/// A made job: its files in their order.
#[derive(Drop)]
pub struct MadeJob {
    pub files: Seq<MadeFile>,
}

/// The file of a class.
fn class_file(alloc: Global, size: u32, i: u32, kind: Kind) -> Result<MadeFile, AllocError>
    requires { size ≤ 1000 }
    ensures { IfOk result (λ file. file ≡ GeneratedFiles.class_file size i kind) }
{
    let path = path_of(alloc, i)?;
    let bytes = class_bytes(alloc, size, i, kind)?;
    Ok(MadeFile { path, bytes })
}

/// Puts the files of classes behind others.
fn put_classes(
    alloc: Global,
    size: u32,
    kinds: &[Kind],
    files: &mut Seq<MadeFile>,
) -> Result<(), AllocError>
    requires size { size ≤ 1000 }
    requires kinds { length kinds.now ≤ 1000 }
    ensures { OnOk result (files.new ≡ files.old ++ class_files size 0 kinds.now) }
{
    for (i, kind) in kinds.iter().enumerate() {
        let file = class_file(alloc, size, i as u32, *kind)?;
        files.push(file)?;
    }
    Ok(())
}

/// Puts a file that isn't a class behind others.
fn put_file(
    alloc: Global,
    path: &[u8],
    bytes: Seq<u8>,
    files: &mut Seq<MadeFile>,
) -> Result<(), AllocError>
    ensures { OnOk result (files.new ≡ files.old ++ GeneratedFiles.text_file path.now bytes) }
{
    let path = Seq::from_slice(alloc, path)?;
    files.push(MadeFile { path, bytes })
}

/// The job that a seed makes, of so many classes: its job file, its policy, and its class files in their order.
#[tactic(auto, unfolding(crate::specs::GeneratedFiles::made_job))]
pub fn make_job(alloc: Global, seed: u64, size: u32) -> Result<MadeJob, AllocError>
    requires least { 1 ≤ size }
    requires most { size ≤ 1000 }
    ensures { IfOk result (λ job. job ≡ GeneratedFiles.made_job seed size) }
{
    let kinds = kinds_of(alloc, seed, size)?;
    let mut files = Seq::new(alloc);
    let job = job_text(alloc, size)?;
    let policy = policy_text(alloc, kinds.as_slice())?;
    put_file(alloc, b"gen.job", job, &mut files)?;
    put_file(alloc, b"gen.policy", policy, &mut files)?;
    put_classes(alloc, size, kinds.as_slice(), &mut files)?;
    Ok(MadeJob { files })
}
