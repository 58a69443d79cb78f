ghost use Rattle.std.specs.Prelude.{◌≡◌, ◌⊎◌, ◌≤◌, List, Option, ℕ, IfOk, OnOk, vec_len};
ghost use Rattle.std.specs.Option.{option_map};
ghost use Rattle.jground.specs.jbase.FaultCauses.{Rose};
ghost use Rattle.joutput.specs.declared.jio.shelf.ShelfError.TheVariants.{Memory, Failed};
ghost use Rattle.joutput.specs.jio.ShelfFiles.{File, Told, Lacks, SameElsewhere, file_at, most_read, stored};

use std::alloc::{AllocError, AllocFailed, Global};

/// Why a shelf didn't read or write a file.
#[derive(Clone, Copy, Debug, PartialEq, Eq)]
pub enum ShelfError {
    /// The file can't be read or written.
    Failed,
    /// No memory was left. It may come at any time.
    Memory,
}

impl From<AllocError> for ShelfError {
    ghost from_gives = { λ _ e. e ≡ Memory };

    fn from(_: AllocError) -> Self {
        ShelfError::Memory
    }
}

impl<T: Drop> From<AllocFailed<T>> for ShelfError {
    ghost from_gives = { λ _ e. e ≡ Memory };

    fn from(_: AllocFailed<T>) -> Self {
        ShelfError::Memory
    }
}

/// Files by their paths.
pub trait Shelf {
    /// The files, where they are told.
    ghost held: { Self → Option (List File) };
    /// How many reads failed: a `u64` that stands still at its last value.
    ghost read_faults: { Self → ℕ };
    /// How many writes failed: a `u64` that stands still at its last value.
    ghost write_faults: { Self → ℕ };

    /// All bytes of the file at the path, of which there are at most 67,108,864. It answers `Failed` only where a
    /// read fault was counted in this call, or where the told files have none at the path or a longer one.
    fn read(&mut self, alloc: Global, path: &str) -> Result<Vec<u8>, ShelfError>
        ensures bytes { IfOk result (λ bytes. Told (held self.old) path.now bytes.items) }
        ensures few { IfOk result (λ bytes. vec_len bytes ≤ most_read) }
        ensures held { held self.new ≡ held self.old }
        ensures later { read_faults self.old ≤ read_faults self.new }
        ensures writes { write_faults self.new ≡ write_faults self.old }
        ensures cause { result ≡ Err Failed → Rose (read_faults self.old) (read_faults self.new) ⊎ Lacks (held self.old) path.now }
        ensures memory { result ≡ Err Memory → read_faults self.new ≡ read_faults self.old };

    /// Makes the path hold the bytes, and leaves all other paths. It answers `Failed` only where a write fault was
    /// counted in this call. After an error this path may hold anything.
    fn write(&mut self, alloc: Global, path: &str, bytes: &[u8]) -> Result<(), ShelfError>
        ensures stores { OnOk result (held self.new ≡ option_map (stored path.now bytes.now) (held self.old)) }
        ensures others { SameElsewhere path.now (held self.old) (held self.new) }
        ensures later { write_faults self.old ≤ write_faults self.new }
        ensures reads { read_faults self.new ≡ read_faults self.old }
        ensures cause { result ≡ Err Failed → Rose (write_faults self.old) (write_faults self.new) }
        ensures memory { result ≡ Err Memory → write_faults self.new ≡ write_faults self.old };
}

/// What `stored` files give: at the path the bytes, and at each other path what was there.
pub fn stored_laws()
    ensures here { (path bytes : List ℕ) (files : List File) → file_at (stored path bytes files) path ≡ Some bytes }
    ensures elsewhere { (path bytes other : List ℕ) (files : List File) → (other ≡ path → ⊥)
        → file_at (stored path bytes files) other ≡ file_at files other }
{}
