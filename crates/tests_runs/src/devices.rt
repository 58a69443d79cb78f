//! Devices around those in memory: a sink that takes one byte a put, and a shelf and a sink that tell nothing.

ghost use Rattle.std.specs.Prelude.{None, Some};

use joutput::jio::{MemoryShelf, MemorySink, Shelf, ShelfError, Sink, SinkError};
use std::alloc::Global;

/// A sink in memory that takes one byte a put. It tells its bytes.
#[derive(Drop)]
pub struct Drip {
    pub sink: MemorySink,
}

impl Sink for Drip {
    ghost out = { λ s. Some s.sink.bytes };

    ghost faults = { λ s. s.sink.faults };

    fn put(&mut self, piece: &[u8]) -> Result<usize, SinkError> {
        let (front, _) = piece.split_at(piece.len().min(1));
        self.sink.put(front)
    }
}

/// A sink that tells nothing, around another one.
#[derive(Drop)]
pub struct MuteSink<K: Sink + Drop> {
    pub sink: K,
}

impl<K: Sink + Drop> Sink for MuteSink<K> {
    ghost out = { λ _. None };

    ghost faults = { λ s. K.faults s.sink };

    fn put(&mut self, piece: &[u8]) -> Result<usize, SinkError> {
        self.sink.put(piece)
    }
}

/// A shelf that tells nothing, around one in memory. A missing file counts as a fault, since nobody is told that it is missing.
#[derive(Drop)]
pub struct MuteShelf {
    pub memory: MemoryShelf,
    read_faults: u64,
    write_faults: u64,
}

impl MuteShelf {
    /// Tells nothing of this shelf. No fault is counted so far.
    pub fn new(memory: MemoryShelf) -> MuteShelf {
        MuteShelf {
            memory,
            read_faults: 0,
            write_faults: 0,
        }
    }
}

impl Shelf for MuteShelf {
    ghost held = { λ _. None };

    ghost read_faults = { λ s. s.read_faults };

    ghost write_faults = { λ s. s.write_faults };

    fn read(&mut self, alloc: Global, path: &str) -> Result<Vec<u8>, ShelfError> {
        let read = self.memory.read(alloc, path);
        if let Err(ShelfError::Failed) = read {
            self.read_faults = self.read_faults.saturating_add(1);
        }
        read
    }

    fn write(&mut self, alloc: Global, path: &str, bytes: &[u8]) -> Result<(), ShelfError> {
        let written = self.memory.write(alloc, path, bytes);
        if let Err(ShelfError::Failed) = written {
            self.write_faults = self.write_faults.saturating_add(1);
        }
        written
    }
}
