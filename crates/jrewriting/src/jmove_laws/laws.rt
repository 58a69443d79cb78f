ghost use Rattle.jrewriting.specs.jmove_laws.Branches.{EachBranch, Ended, Jumps, Leads};
ghost use Rattle.jrewriting.specs.jmove_laws.Distances.{Near};
ghost use Rattle.jrewriting.specs.jmove_laws.FramePlaces.{Begins, ItemsFit, Written};
ghost use Rattle.jrewriting.specs.jmove_laws.InstructionNumbers.{Begun, Counted, Covered, Fetched, Next};
ghost use Rattle.jrewriting.specs.jmove_laws.PlaceOrder.{Ends, First, Rise};
ghost use Rattle.jrewriting.specs.jmove_laws.HandlerRanges.{Ranges};
ghost use Rattle.jrewriting.specs.jmove_laws.CodeSizes.{SameSize, StandsLaid};
ghost use Rattle.jrewriting.specs.jmove_laws.SpelledCode.{Spelled};

/// The laws of sizes. How many bytes an instruction has doesn't depend on how far its branches lead; so the instructions of moved
/// code stand one behind the other, from place 0 to its end.
pub fn size_laws()
    ensures same { SameSize }
    ensures laid { StandsLaid }
{}

/// The laws of numbers. Moved code begins with what it is told to begin with; behind that stands the expansion of each instruction, one
/// behind the other, and nothing else. An expansion begins at the new place of its old instruction, and what it has of branches leads to
/// the new places of old ones.
pub fn number_laws()
    ensures begun { Begun }
    ensures next { Next }
    ensures counted { Counted }
    ensures fetched { Fetched }
    ensures covered { Covered }
{}

/// The laws of places. The old beginning lies behind what moved code begins with; an expansion ends where the old place behind its
/// instruction lies; and new places of instructions rise as the old ones do.
pub fn place_laws()
    ensures first { First }
    ensures ends { Ends }
    ensures rise { Rise }
{}

/// The laws of branches. A branch that led from an old place to an instruction leads, from its new place, to where that one's
/// expansion begins; and what names the end of the old code names the end of moved code.
pub fn branch_laws()
    ensures each_branch { EachBranch }
    ensures leads { Leads }
    ensures jumps { Jumps }
    ensures ended { Ended }
{}

/// The law of handlers. A moved handler covers all instructions of an expansion, or none: as the old one covers the old instruction.
pub fn handler_laws()
    ensures ranges { Ranges }
{}

/// The laws of frames. A moved frame stands where the expansion of its instruction begins. Frames that could be written (JVMS 4.7.4) can be
/// written where they are moved.
pub fn frame_laws()
    ensures begins { Begins }
    ensures written { Written }
    ensures items_fit { ItemsFit }
{}

/// The law of distances. In moved code of at most 32,767 bytes, which a method that breaks no limit becomes, each branch's distance is a
/// signed number of 16 bits.
pub fn distance_laws()
    ensures near { Near }
{}

/// The law of spelling. Moved code of at most 32,767 bytes has a spelling as code (JVMS 4.7.3): each operand fits its bytes, and each
/// branch leads to an instruction.
pub fn spelling_laws()
    ensures spelled { Spelled }
{}
