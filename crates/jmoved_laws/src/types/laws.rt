ghost use Rattle.jresolution.specs.jprogram.ProgramClasses.{Program};
ghost use Rattle.jmoved_laws.specs.types.FullFrameLaws.{AreReadBack, SaysFull};
ghost use Rattle.jmoved_laws.specs.types.RenamedPlaces.{GoesAlong};
ghost use Rattle.jmoved_laws.specs.types.RulePremises.{AsksTree};
ghost use Rattle.jmoved_laws.specs.types.MovedTypes.{TypesStay};

/// The law of the rule and of places. Of places the rule asks which are the same: where all instructions of a method go elsewhere it gives
/// the same frames, whose `new`s went with them.
pub fn place_law<S>()
    ensures { (p : Program) → GoesAlong S p }
{}

/// The law of the rule and of programs: of a program it asks which class stands below which, and which class declares a field.
pub fn program_law()
    ensures { AsksTree }
{}

/// The laws of frames as they are read. Those that are written full are read as they were, whatever the method begins with; and those that
/// can be said in full are read as they say it.
pub fn written_law()
    ensures back { AreReadBack }
    ensures full { SaysFull }
{}

/// The law of types. The moved program is well typed, where the program links, is well typed and breaks no limit.
pub fn types_law()
    ensures { TypesStay }
{}
