ghost use Rattle.jmoved_laws.specs.code.MovedBodies.{CodesMove};
ghost use Rattle.jmoved_laws.specs.code.MovedMeanings.{EntriesStay};
ghost use Rattle.jmoved_laws.specs.code.MovedPrograms.{ProgramsMove};
ghost use Rattle.jmoved_laws.specs.code.SlotCounts.{CallsFill, MainFills, RunsFill};

/// The law of meanings. Each entry of a class's pool stands in the moved class for what it stood for, but the references of methods that are
/// handed a context.
pub fn meaning_law()
    ensures { EntriesStay }
{}

/// The law of codes. In the moved program each method has the code that its old one was moved to: it begins by entering its domain, each
/// instruction became what moving says by what it means, branches lead to where their targets' expansions begin, and what is thrown in an
/// expansion is handled where its instruction's was.
pub fn code_law()
    ensures { CodesMove }
{}

/// The law of slots. Where a call comes to a user's method, its values take as many places as the method has slots, a long two; `run` of an
/// action or of a Runnable has one, and so has `main`.
pub fn fill_law()
    ensures calls { CallsFill }
    ensures runs { RunsFill }
    ensures main { MainFills }
{}

/// The law of moved programs: a program that links, is well typed and breaks no limit, and the moved program, are such a pair as a machine that
/// runs both alike has to know.
pub fn moves_law()
    ensures { ProgramsMove }
{}
