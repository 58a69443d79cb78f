ghost use Rattle.std.specs.Prelude.{is_some, ◌≡◌, ◌⊎◌, ◌≤◌, ◌↔◌, Some, None, IfOk, IfSome, ◌<◌, OnOk, OnErr, map, length, vec_len, IsTrue, MatchOption};
ghost use Rattle.std.specs.Option.{option_map, option_copied};
ghost use Rattle.jground.specs.jbase.FaultCauses.{Rose};
ghost use Rattle.joutput.specs.declared.jio.shelf.ShelfError.TheVariants.{Memory, Failed};
ghost use Rattle.joutput.specs.jio.ShelfFiles.{PathsDiffer, Told, Lacks, SameElsewhere, most_read, stored, file_at};
ghost use Rattle.joutput.specs.jio.MemoryDevices.{files_of, new_shelf, place_from, read_listed, read_gives, after_read, write_listed, after_write};

use crate::jio::MOST_READ;
use crate::jio::shelf::{Shelf, ShelfError};
use std::alloc::{AllocError, Global};
use std::marker::Model;

/// Files in memory. A read or a write fails where its number is listed; reads and writes are each numbered from 1.
#[derive(Drop)]
pub struct MemoryShelf {
    files: Vec<(String, Vec<u8>)>,
    bad_reads: Vec<u64>,
    reads: u64,
    read_faults: u64,
    bad_writes: Vec<u64>,
    writes: u64,
    write_faults: u64,
}

impl Model for MemoryShelf {
    ghost use Rattle.joutput.specs.jio.MemoryDevices.{ShelfState, files_of};

    ghost Value = { ShelfState };

    ghost view = { λ s. record {
      files = files_of s.files.items;
      bad_reads = s.bad_reads.items;
      reads = s.reads;
      read_faults = s.read_faults;
      bad_writes = s.bad_writes.items;
      writes = s.writes;
      write_faults = s.write_faults;
    } };
}

fn place(files: &[(String, Vec<u8>)], path: &str) -> Option<usize>
    ensures within { IfSome result (λ i. i < length files.now) }
    ensures place { result ≡ place_from 0 (files_of files.now) path.now }
{
    for (i, (name, _)) in files.iter().enumerate() {
        if name.as_str() == path {
            return Some(i);
        }
    }
    None
}

fn find<'a>(files: &'a [(String, Vec<u8>)], path: &str) -> Option<&'a [u8]>
    ensures found { option_copied result ≡ file_at (files_of files.now) path.now }
    ensures variant { is_some result ≡ is_some (file_at (files_of files.now) path.now) }
{
    match place(files, path) {
        Some(i) => Some(files[i].1.as_slice()),
        None => None,
    }
}

fn store(
    alloc: Global,
    files: &mut Vec<(String, Vec<u8>)>,
    path: &str,
    bytes: &[u8],
) -> Result<(), AllocError>
    ensures ok { OnOk result (files_of files.new.items ≡ stored path.now bytes.now (files_of files.old.items)) }
    ensures err { OnErr result (files.new.items ≡ files.old.items) }
{
    let bytes = Vec::from_slice(alloc, bytes)?;
    match place(files, path) {
        Some(i) => {
            files[i].1 = bytes;
        }
        None => {
            let path = String::from_str(alloc, path)?;
            files.push((path, bytes))?;
        }
    }
    Ok(())
}

impl MemoryShelf {
    /// Whether no two files have one path.
    pub fn paths_differ(files: &[(String, Vec<u8>)]) -> bool
        ensures { IsTrue result ↔ PathsDiffer (files_of files.now) }
    {
        for (i, (name, _)) in files.iter().enumerate() {
            let (_, later) = files.split_at(i + 1);
            if find(later, name.as_str()).is_some() {
                return false;
            }
        }
        true
    }

    /// A shelf of these files, whose paths differ. The reads and the writes whose numbers are listed fail.
    pub fn open(
        _alloc: Global,
        files: Vec<(String, Vec<u8>)>,
        bad_reads: Vec<u64>,
        bad_writes: Vec<u64>,
    ) -> Result<MemoryShelf, AllocError>
        requires { PathsDiffer (files_of files.items) }
        ensures { IfOk result (λ s. s ≡ new_shelf (files_of files.items) bad_reads.items bad_writes.items) }
    {
        Ok(MemoryShelf {
            files,
            bad_reads,
            reads: 0,
            read_faults: 0,
            bad_writes,
            writes: 0,
            write_faults: 0,
        })
    }

    /// The bytes of the file at the path, `None` exactly where there is none.
    pub fn file(&self, path: &str) -> Option<&[u8]>
        ensures { option_copied result ≡ file_at self.now.files path.now }
    {
        find(&self.files, path)
    }

    fn begin_read(&mut self) -> bool
        ensures listed { result ≡ read_listed self.old }
        ensures after { self.new ≡ after_read self.old }
        ensures later { self.old.read_faults ≤ self.new.read_faults }
    {
        self.reads = self.reads.saturating_add(1);
        if self.bad_reads.contains(&self.reads) {
            self.read_faults = self.read_faults.saturating_add(1);
            return true;
        }
        false
    }

    fn begin_write(&mut self) -> bool
        ensures listed { result ≡ write_listed self.old }
        ensures after { self.new ≡ after_write self.old }
        ensures later { self.old.write_faults ≤ self.new.write_faults }
    {
        self.writes = self.writes.saturating_add(1);
        if self.bad_writes.contains(&self.writes) {
            self.write_faults = self.write_faults.saturating_add(1);
            return true;
        }
        false
    }
}

impl Shelf for MemoryShelf {
    ghost held = { λ s. Some s.files };

    ghost read_faults = { λ s. s.read_faults };

    ghost write_faults = { λ s. s.write_faults };

    /// It fails exactly where its number is listed, and where there is no file at the path or one of more than
    /// `MOST_READ` bytes; only where it is listed the fault is counted.
    fn read(&mut self, alloc: Global, path: &str) -> Result<Vec<u8>, ShelfError>
        ensures bytes { IfOk result (λ bytes. Told (Some self.old.files) path.now bytes.items) }
        ensures few { IfOk result (λ bytes. vec_len bytes ≤ most_read) }
        ensures held { Some self.new.files ≡ Some self.old.files }
        ensures later { self.old.read_faults ≤ self.new.read_faults }
        ensures writes { self.new.write_faults ≡ self.old.write_faults }
        ensures cause { result ≡ Err Failed → Rose self.old.read_faults self.new.read_faults ⊎ Lacks (Some self.old.files) path.now }
        ensures memory { result ≡ Err Memory → self.new.read_faults ≡ self.old.read_faults }
        ensures gives { IfOk result (λ bytes. read_gives self.old path.now ≡ Some bytes.items) }
        ensures fails { read_gives self.old path.now ≡ None → result ≡ Err Failed }
        ensures only { result ≡ Err Failed → read_gives self.old path.now ≡ None }
        ensures after { self.new ≡ after_read self.old }
    {
        if self.begin_read() {
            return Err(ShelfError::Failed);
        }
        let Some(bytes) = find(&self.files, path) else {
            return Err(ShelfError::Failed);
        };
        if bytes.len() > MOST_READ {
            return Err(ShelfError::Failed);
        }
        Ok(Vec::from_slice(alloc, bytes)?)
    }

    /// It fails exactly where its number is listed. After any error the files are as before.
    fn write(&mut self, alloc: Global, path: &str, bytes: &[u8]) -> Result<(), ShelfError>
        ensures stores { OnOk result (Some self.new.files ≡ option_map (stored path.now bytes.now) (Some self.old.files)) }
        ensures others { SameElsewhere path.now (Some self.old.files) (Some self.new.files) }
        ensures later { self.old.write_faults ≤ self.new.write_faults }
        ensures reads { self.new.read_faults ≡ self.old.read_faults }
        ensures cause { result ≡ Err Failed → Rose self.old.write_faults self.new.write_faults }
        ensures memory { result ≡ Err Memory → self.new.write_faults ≡ self.old.write_faults }
        ensures fails { IsTrue (write_listed self.old) → result ≡ Err Failed }
        ensures only { result ≡ Err Failed → IsTrue (write_listed self.old) }
        ensures after { OnOk result (self.new ≡ record (after_write self.old) { files = stored path.now bytes.now self.old.files }) }
        ensures kept { OnErr result (self.new ≡ after_write self.old) }
    {
        if self.begin_write() {
            return Err(ShelfError::Failed);
        }
        store(alloc, &mut self.files, path, bytes)?;
        Ok(())
    }
}
