ghost use Rattle.std.specs.Prelude.{◌≡◌, None};

use crate::jio::MOST_READ;
use crate::jio::shelf::{Shelf, ShelfError};
use crate::jio::sink::{Sink, SinkError};
use std::alloc::Global;
use std::fs::{self, File};
use std::io::{self, ErrorKind, Read, Write};
use std::marker::Model;
use std::path::Path;
use std::rt::Files;

fn read_file<R: Files>(rt: &R, path: &str, bytes: &mut Vec<u8>) -> io::Result<()> {
    let file = File::open(rt, path)?;
    file.take(MOST_READ as u64 + 1).read_to_end(bytes)?;
    Ok(())
}

fn write_file<R: Files>(rt: &R, path: &str, bytes: &[u8]) -> io::Result<()> {
    if let Some(folder) = Path::new(path).parent() {
        fs::create_dir_all(rt, folder)?;
    }
    fs::write(rt, path, bytes)
}

/// Real files, by the runtime. What they hold is not told.
#[derive(Drop)]
pub struct RealShelf<'a, R: Files> {
    rt: &'a R,
    read_faults: u64,
    write_faults: u64,
    failed: Option<String>,
}

impl<'a, R: Files> Model for RealShelf<'a, R> {
    ghost use Rattle.joutput.specs.jio.ShelfFiles.{ShelfFaults};

    ghost Value = { ShelfFaults };

    ghost view = { λ s. record { reads = s.read_faults; writes = s.write_faults } };
}

impl<'a, R: Files> RealShelf<'a, R> {
    /// The runtime's files, no fault counted so far.
    pub fn new(rt: &'a R) -> Self
        ensures { result ≡ record { reads = 0; writes = 0 } }
    {
        RealShelf {
            rt,
            read_faults: 0,
            write_faults: 0,
            failed: None,
        }
    }

    /// The path of the first call that failed, if one did. It is not kept where no memory was left for it.
    pub fn failed(&self) -> Option<&str> {
        self.failed.as_deref()
    }

    /// Keeps the path of a call that failed, if it is the first.
    fn keep(&mut self, alloc: Global, path: &str)
        ensures { self.new ≡ self.old }
    {
        if self.failed.is_none() {
            self.failed = String::from_str(alloc, path).ok();
        }
    }
}

impl<'a, R: Files> Shelf for RealShelf<'a, R> {
    ghost held = { λ _. None };

    ghost read_faults = { λ s. s.reads };

    ghost write_faults = { λ s. s.writes };

    /// A missing file and one of more than `MOST_READ` bytes count as faults. Of a longer one no more than one byte above
    /// that number is read.
    fn read(&mut self, alloc: Global, path: &str) -> Result<Vec<u8>, ShelfError> {
        let mut bytes = Vec::new(alloc);
        match read_file(self.rt, path, &mut bytes) {
            Ok(()) => {
                if bytes.len() <= MOST_READ {
                    return Ok(bytes);
                }
            }
            Err(e) => {
                if e.kind() == ErrorKind::OutOfMemory {
                    return Err(ShelfError::Memory);
                }
            }
        }
        self.read_faults = self.read_faults.saturating_add(1);
        self.keep(alloc, path);
        Err(ShelfError::Failed)
    }

    /// Parent folders that are missing are made.
    fn write(&mut self, alloc: Global, path: &str, bytes: &[u8]) -> Result<(), ShelfError> {
        match write_file(self.rt, path, bytes) {
            Ok(()) => Ok(()),
            Err(e) if e.kind() == ErrorKind::OutOfMemory => Err(ShelfError::Memory),
            Err(_) => {
                self.write_faults = self.write_faults.saturating_add(1);
                self.keep(alloc, path);
                Err(ShelfError::Failed)
            }
        }
    }
}

/// Standard output, or any other writer. What it holds is not told.
#[derive(Drop)]
pub struct RealSink<W: Write + Drop> {
    inner: W,
    faults: u64,
}

impl<W: Write + Drop> Model for RealSink<W> {
    ghost use Rattle.std.specs.Prelude.{ℕ};

    ghost Value = { ℕ };

    ghost view = { λ s. s.faults };
}

impl<W: Write + Drop> RealSink<W> {
    /// A sink whose bytes go to the writer, no fault counted so far.
    pub fn new(inner: W) -> Self
        ensures { result ≡ 0 }
    {
        RealSink { inner, faults: 0 }
    }
}

impl<W: Write + Drop> Sink for RealSink<W> {
    ghost out = { λ _. None };

    ghost faults = { λ s. s };

    /// A writer that takes no byte counts as a fault, as its error does.
    fn put(&mut self, piece: &[u8]) -> Result<usize, SinkError> {
        if piece.is_empty() {
            return Ok(0);
        }
        match self.inner.write(piece) {
            Ok(count) if count > 0 => Ok(count),
            _ => {
                self.faults = self.faults.saturating_add(1);
                Err(SinkError::Failed)
            }
        }
    }
}
