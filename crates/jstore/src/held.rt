ghost use Rattle.std.specs.Prelude.{◌≡◌, ◌≤◌, IfOk, IsUtf8, string_bytes};
ghost use Rattle.joutput.specs.jio.MemoryDevices.{file_of, files_of};
ghost use Rattle.jstore.specs.GeneratedShelves.{as_held, held};

use jgen::{MadeFile, make_job};
use joutput::jio::MemoryShelf;
use std::alloc::{AllocError, Global};

/// The text of the path of a made file.
fn made_path(alloc: Global, path: &[u8]) -> Result<String, AllocError>
    requires { IsUtf8 path.now }
    ensures { IfOk result (λ text. string_bytes text ≡ path.now) }
{
    match str::from_utf8(path) {
        Ok(path) => String::from_str(alloc, path),
        Err(_) => unreachable!(),
    }
}

/// A made file, as a shelf in memory holds it.
fn held_file(alloc: Global, file: MadeFile) -> Result<(String, Vec<u8>), AllocError>
    requires { IsUtf8 file.path }
    ensures { IfOk result (λ one. file_of one ≡ as_held file) }
{
    let path = made_path(alloc, file.path.as_slice())?;
    Ok((path, file.bytes.into_vec()))
}

/// The files that a seed and a size make, as a shelf in memory holds them.
#[tactic(auto, unfolding(crate::specs::GeneratedShelves::held))]
fn held_files(alloc: Global, seed: u64, size: u32) -> Result<Vec<(String, Vec<u8>)>, AllocError>
    requires least { 1 ≤ size }
    requires most { size ≤ 1000 }
    ensures { IfOk result (λ files. files_of files.items ≡ held seed size) }
{
    let job = make_job(alloc, seed, size)?;
    let mut files = Vec::new(alloc);
    for file in job.files.into_vec() {
        let one = held_file(alloc, file)?;
        files.push(one)?;
    }
    Ok(files)
}

/// A shelf in memory of the files that a seed and a size make. That two of their paths are one, which none are, is want of memory.
pub fn made_shelf(alloc: Global, seed: u64, size: u32) -> Result<MemoryShelf, AllocError>
    requires least { 1 ≤ size }
    requires most { size ≤ 1000 }
    ensures { IfOk result (λ shelf. shelf.files ≡ held seed size) }
{
    let files = held_files(alloc, seed, size)?;
    if !MemoryShelf::paths_differ(&files) {
        return Err(AllocError);
    }
    let shelf = MemoryShelf::open(alloc, files, Vec::new(alloc), Vec::new(alloc))?;
    Ok(shelf)
}
