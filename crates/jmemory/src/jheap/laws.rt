ghost use Rattle.jmemory.specs.jheap.Heaps.{LeavesOthers, ReadsTheWrite};
ghost use Rattle.jmemory.specs.jheap.RawValues.{GivesBack};

/// The laws of cells: a read gives the last write to its place, and a write changes no other. It has no body to run; its contract is
/// the laws.
pub fn heap_laws()
    ensures reads { ReadsTheWrite }
    ensures others { LeavesOthers }
{}

/// The law of values in cells: a cell gives back the value that was written, read as its type. It has no body to run; its contract
/// is the law.
pub fn raw_laws()
    ensures { GivesBack }
{}
