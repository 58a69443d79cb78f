ghost use Rattle.jparts.specs.jmaps.ExpandedFrames.{LocalsMap};
ghost use Rattle.jparts.specs.jmaps.StackMapLaws.{NoFaultWhereSpelled, OneReading, OneSpelling, SpelledWhereNoFault};

/// The laws of stack maps: bytes spell frames exactly where the reading of them has no fault, they spell one list of frames at most,
/// and a list of frames has one spelling. It has no body to run; its contract is the laws.
pub fn map_laws()
    ensures no_fault { NoFaultWhereSpelled }
    ensures spelled { SpelledWhereNoFault }
    ensures one_reading { OneReading }
    ensures one_spelling { OneSpelling }
{}

/// The law of what a written frame does to the locals before it, whatever the items are: a function of the items may be applied
/// before or behind. It has no body to run; its contract is the law.
pub fn locals_laws<A, B>()
    ensures { LocalsMap A B }
{}
