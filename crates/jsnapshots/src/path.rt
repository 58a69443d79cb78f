ghost use Rattle.std.specs.Prelude.{◌≡◌, [], ◌<◌, ◌≤◌, ◌∷◌, ◌++◌, List, OnOk, length, take};
ghost use Rattle.jsnapshots.specs.declared.entry.KeptEntry.{KeptEntry};
ghost use Rattle.jsnapshots.specs.SnapshotEntries.{AllBelow, Below, Extends, IsBack};
ghost use Rattle.jsnapshots.specs.SnapshotPath.{Lies, marks_of, newest};

use crate::entry::{KeptEntry, KeptFrame};
use crate::mark::{InspectMark, is_same};
use crate::table::Table;
use std::alloc::{AllocError, Global};

/// A frame, and the number of the stack whose newest frame it is.
#[derive(Clone, Copy)]
pub struct NumberedFrame {
    pub mark: InspectMark,
    pub number: u64,
}

/// The stack that was kept last: the number of the stack under it, and its frames, the oldest first.
#[derive(Drop)]
pub struct Path {
    pub under: Option<u64>,
    pub frames: Vec<NumberedFrame>,
}

/// How many of the oldest marks are those of the frames. Each snapshot goes through all of a stack here, so that this stays a function of
/// its own, whose loop lies alike in every program.
#[inline(never)]
fn common(frames: &[NumberedFrame], marks: &[InspectMark]) -> usize
    ensures within { result ≤ length marks.now }
    ensures same { marks_of (take result frames.now) ≡ take result marks.now }
{
    let most = frames.len().min(marks.len());
    for n in 0..most {
        if !frames[n].mark.is(&marks[n]) {
            return n;
        }
    }
    most
}

impl Path {
    /// A path without frames on the empty stack. It takes no memory.
    pub fn new(alloc: Global) -> Path
        ensures under { result.under ≡ None }
        ensures frames { result.frames.items ≡ [] }
    {
        Path {
            under: None,
            frames: Vec::new(alloc),
        }
    }

    /// The number of the stack.
    pub fn newest(&self) -> Option<u64>
        ensures { result ≡ newest self.now.under self.now.frames.items }
    {
        let n = self.frames.len();
        if n == 0 {
            return self.under;
        }
        Some(self.frames[n - 1].number)
    }

    /// Leaves the oldest frames that the stack of marks on an inherited one has too, and answers how many they are.
    pub fn begin(&mut self, marks: &[InspectMark], inherited: Option<u64>) -> usize
        ensures within { result ≤ length marks.now }
        ensures under { self.new.under ≡ inherited }
        ensures same { marks_of self.new.frames.items ≡ take result marks.now }
        ensures lies { (entries : List KeptEntry) → Lies entries self.old.under self.old.frames.items
            → Lies entries self.new.under self.new.frames.items }
    {
        if !is_same(self.under, inherited) {
            self.under = inherited;
            self.frames.clear();
            return 0;
        }
        let n = common(&self.frames, marks);
        self.frames.truncate(n);
        n
    }

    /// Adds a frame. After an error there may be one more entry.
    fn push(&mut self, table: &mut Table, mark: InspectMark) -> Result<(), AllocError>
        requires under { Below (length table.old) self.old.under }
        requires lies { Lies table.old self.old.under self.old.frames.items }
        requires mark { Below (length table.old) mark.privileged }
        ensures under { self.new.under ≡ self.old.under }
        ensures grown { Extends table.old table.new }
        ensures back { IsBack table.new }
        ensures lies { Lies table.new self.new.under self.new.frames.items }
        ensures marks { OnOk result (marks_of self.new.frames.items ≡ marks_of self.old.frames.items ++ mark ∷ []) }
    {
        let older = self.newest();
        let number = table.add(KeptEntry::Frame(KeptFrame { mark, older }))?;
        self.frames.push(NumberedFrame { mark, number })?;
        Ok(())
    }

    /// Adds the frames of marks, the oldest first. After an error there may be more entries and frames.
    pub fn extend(&mut self, table: &mut Table, marks: &[InspectMark]) -> Result<(), AllocError>
        requires under { Below (length table.old) self.old.under }
        requires lies { Lies table.old self.old.under self.old.frames.items }
        requires marks { AllBelow (length table.old) marks.now }
        requires back { IsBack table.old }
        ensures under { self.new.under ≡ self.old.under }
        ensures grown { Extends table.old table.new }
        ensures back { IsBack table.new }
        ensures lies { Lies table.new self.new.under self.new.frames.items }
        ensures marks { OnOk result (marks_of self.new.frames.items ≡ marks_of self.old.frames.items ++ marks.now) }
    {
        for mark in marks {
            self.push(table, *mark)?;
        }
        Ok(())
    }
}
