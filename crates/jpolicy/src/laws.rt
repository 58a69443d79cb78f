ghost use Rattle.jpolicy.specs.ReaderTermination.{ClausesEnd, EntriesEnd, ExpansionEnds, ItemsEnd, StringEnds, TextEnds};

/// The laws of the reader's walks: each ends at its test, at a fault, or with nothing left, and never for want of steps.
pub fn walk_laws()
    ensures text { TextEnds }
    ensures string { StringEnds }
    ensures expansion { ExpansionEnds }
    ensures clauses { ClausesEnd }
    ensures entries { EntriesEnd }
    ensures items { ItemsEnd }
{}
