ghost use Rattle.std.specs.Prelude.{None};

use joutput::jio::{RealShelf, Shelf, ShelfError};
use std::alloc::Global;
use std::fs::{self, Metadata};
use std::rt::Files;
use std::time::SystemTime;

/// Real files that are looked at once more: those alone are opened that are regular files and weren't written since a time, and none is
/// stored. What they hold is not told.
#[derive(Drop)]
pub struct RegularShelf<'a, R: Files> {
    rt: &'a R,
    files: RealShelf<'a, R>,
    since: Option<SystemTime>,
    read_faults: u64,
    write_faults: u64,
}

impl<'a, R: Files> RegularShelf<'a, R> {
    /// The runtime's files, and the time, where it is known.
    pub fn new(rt: &'a R, since: Option<SystemTime>) -> Self {
        RegularShelf {
            rt,
            files: RealShelf::new(rt),
            since,
            read_faults: 0,
            write_faults: 0,
        }
    }
}

/// Whether a file was written since a time, where both are known.
fn is_newer(found: &Metadata, since: Option<SystemTime>) -> bool {
    let Some(since) = since else {
        return false;
    };
    match found.modified() {
        Ok(modified) => since < modified,
        Err(_) => false,
    }
}

/// Whether a path is that of a regular file that wasn't written since a time.
fn is_regular<R: Files>(rt: &R, path: &str, since: Option<SystemTime>) -> bool {
    match fs::metadata(rt, path) {
        Ok(found) => found.is_file() && !is_newer(&found, since),
        Err(_) => false,
    }
}

impl<'a, R: Files> Shelf for RegularShelf<'a, R> {
    ghost held = { λ _. None };

    ghost read_faults = { λ s. s.read_faults };

    ghost write_faults = { λ s. s.write_faults };

    /// What isn't opened counts as a fault.
    fn read(&mut self, alloc: Global, path: &str) -> Result<Vec<u8>, ShelfError> {
        if is_regular(self.rt, path, self.since) {
            match self.files.read(alloc, path) {
                Ok(bytes) => return Ok(bytes),
                Err(ShelfError::Memory) => return Err(ShelfError::Memory),
                Err(ShelfError::Failed) => {}
            }
        }
        self.read_faults = self.read_faults.saturating_add(1);
        Err(ShelfError::Failed)
    }

    /// It fails.
    fn write(&mut self, _alloc: Global, _path: &str, _bytes: &[u8]) -> Result<(), ShelfError> {
        self.write_faults = self.write_faults.saturating_add(1);
        Err(ShelfError::Failed)
    }
}
