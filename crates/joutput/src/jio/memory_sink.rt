ghost use Rattle.std.specs.Prelude.{◌≡◌, ◌<◌, ◌≤◌, Some, IfOk, OnErr, length, take};
ghost use Rattle.jground.specs.jbase.FaultCauses.{HasCause, appended};
ghost use Rattle.joutput.specs.jio.MemoryDevices.{new_sink, next, put_gives, after_put};

use crate::jio::sink::{Sink, SinkError};
use std::alloc::{AllocError, Global};
use std::marker::Model;

/// A sink in memory. A put fails where the room is used up, and where its number is listed; puts are numbered from 1.
#[derive(Drop)]
pub struct MemorySink {
    bytes: Vec<u8>,
    room: usize,
    bad_puts: Vec<u64>,
    puts: u64,
    faults: u64,
}

impl Model for MemorySink {
    ghost use Rattle.std.specs.Prelude.{◌≡◌, ◌≤◌, vec_len, vec_capacity};
    ghost use Rattle.joutput.specs.jio.MemoryDevices.{SinkState};

    ghost Value = { SinkState };

    ghost view = { λ s. record { bytes = s.bytes.items; room = s.room; bad_puts = s.bad_puts.items; puts = s.puts; faults = s.faults } };

    ghost invariant = { λ s. (vec_len s.bytes ≤ s.room) × (s.room ≤ vec_capacity s.bytes) };
}

impl MemorySink {
    /// An empty sink with room for so many bytes, which are reserved here. The puts whose numbers are listed fail.
    pub fn open(alloc: Global, room: usize, bad_puts: Vec<u64>) -> Result<MemorySink, AllocError>
        ensures { IfOk result (λ s. s ≡ new_sink room bad_puts.items) }
    {
        Ok(MemorySink {
            bytes: Vec::with_capacity(alloc, room)?,
            room,
            bad_puts,
            puts: 0,
            faults: 0,
        })
    }

    /// All bytes that were put.
    pub fn bytes(&self) -> &[u8]
        ensures { result.now ≡ self.now.bytes }
    {
        self.bytes.as_slice()
    }

    fn fail(&mut self) -> SinkError
        ensures { self.new ≡ record self.old { faults = next self.old.faults } }
    {
        self.faults = self.faults.saturating_add(1);
        SinkError::Failed
    }
}

impl Sink for MemorySink {
    ghost out = { λ s. Some s.bytes };

    ghost faults = { λ s. s.faults };

    /// Appends as much of the piece as there is room for. It fails exactly where its number is listed or no room is left,
    /// and the piece isn't empty. It takes no memory.
    fn put(&mut self, piece: &[u8]) -> Result<usize, SinkError>
        ensures within { IfOk result (λ n. n ≤ length piece.now) }
        ensures some { IfOk result (λ n. 0 < length piece.now → 0 < n) }
        ensures empty { length piece.now ≡ 0 → result ≡ Ok 0 }
        ensures ok { IfOk result (λ n. Some self.new.bytes ≡ appended (Some self.old.bytes) (take n piece.now)) }
        ensures err { OnErr result (Some self.new.bytes ≡ Some self.old.bytes) }
        ensures cause { HasCause self.old.faults self.new.faults result }
        ensures answer { result ≡ put_gives self.old piece.now }
        ensures after { self.new ≡ after_put self.old piece.now result }
    {
        self.puts = self.puts.saturating_add(1);
        if piece.is_empty() {
            return Ok(0);
        }
        if self.bad_puts.contains(&self.puts) {
            return Err(self.fail());
        }
        let count = piece.len().min(self.room - self.bytes.len());
        if count == 0 {
            return Err(self.fail());
        }
        let (front, _) = piece.split_at(count);
        self.bytes.extend_from_slice(front).unwrap();
        Ok(count)
    }
}
