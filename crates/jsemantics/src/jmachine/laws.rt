ghost use Rattle.jsemantics.specs.jmachine.NaturalityLaws.{AnswersAlike, AppliedAlike, ArrayAlike, AsksAlike, CallAlike, CastAlike, FieldAlike};
ghost use Rattle.jsemantics.specs.jmachine.NaturalityLaws.{InitTakesAlike, JumpAlike, LibraryAlike, LocalAlike, MakeAlike, MakeArrayAlike, OpeningAlike, PushAlike};
ghost use Rattle.jsemantics.specs.jmachine.NaturalityLaws.{RunAlike, SimpleAlike, StackAlike, StepAlike, StepAlikeAt, StepUnasked, SwitchAlike};
ghost use Rattle.jsemantics.specs.jmachine.NaturalityLaws.{TakesAlike, ThrowAlike};
ghost use Rattle.jsemantics.specs.jmachine.Machine.{RunGrows, RunStays};
ghost use Rattle.jsemantics.specs.jmachine.RunTraces.{GoesOn, Grows, Stays};

/// The laws of runs, whatever a step is: one that has ended stays as it is, events only grow, and one more step is one behind the
/// others. It has no body to run; its contract is the laws.
pub fn run_laws<S>()
    ensures stays { Stays S }
    ensures grows { Grows S }
    ensures goes_on { GoesOn S }
{}

/// The same laws of the runs of a program, by a machine that keeps `K` and whose frames carry `E`. It has no body to run; its contract
/// is the laws.
pub fn machine_laws<K, E>()
    ensures stays { RunStays K E }
    ensures grows { RunGrows K E }
{}

/// The laws of straight instructions: which operands serve, and what is done with them, doesn't depend on what is kept, nor on what frames
/// carry. It has no body to run; its contract is the laws.
pub fn straight_laws<K, L, E, F>()
    ensures takes { TakesAlike K L }
    ensures simple { SimpleAlike K L E F }
    ensures jump { JumpAlike K L E F }
    ensures switch { SwitchAlike K L E F }
    ensures throw { ThrowAlike K L E F }
    ensures local { LocalAlike K L }
    ensures stack { StackAlike K L }
{}

/// The same laws of instructions with arrays, fields and objects. It has no body to run; its contract is the laws.
pub fn object_laws<K, L, E, F>()
    ensures array { ArrayAlike K L E F }
    ensures make_array { MakeArrayAlike K L E F }
    ensures field { FieldAlike K L E F }
    ensures push { PushAlike K L E F }
    ensures make { MakeAlike K L E F }
    ensures cast { CastAlike K L E F }
{}

/// The same laws of calls: what an `<init>` takes, and which method a call comes to. It has no body to run; its contract is the laws.
pub fn call_laws<K, L>()
    ensures init { InitTakesAlike K L }
    ensures target { CallAlike K L }
{}

/// The same law of calls of the library that ask nothing of access control. It has no body to run; its contract is the law.
pub fn library_laws<K, L, E, F>()
    ensures { LibraryAlike K L E F }
{}

/// The laws of machines that answer alike, whose contexts and frames' entries correspond. What a row makes of the frames and of the threads
/// is the same, and so is a step, and so are runs: they tell the same events, and end alike. It has no body to run; its contract is the
/// laws.
pub fn step_laws<K, L, E, F>()
    ensures applied { AppliedAlike K L E F }
    ensures step { StepAlike K L E F }
    ensures run { RunAlike K L E F }
{}

/// Two kinds of machines: what each keeps, and what its frames carry. They are types of definitions, so that a law can speak of any.
pub trait TwoMachines {
    /// What the one keeps.
    ghost K: { Type 0 };

    /// What the other keeps.
    ghost L: { Type 0 };

    /// What frames of the one carry.
    ghost E: { Type 0 };

    /// What frames of the other carry.
    ghost F: { Type 0 };
}

/// The laws of what a step asks of access control. What it asks doesn't depend on what is kept. Two machines whose contexts and frames'
/// entries correspond take the same step where they answer alike what it asks, and where it asks nothing. Those that answer alike do so
/// at each ask, at each step, and their runs are the same. They begin in the same state. It has no body to run; its contract is the laws.
pub fn asking_laws<P: TwoMachines>()
    ensures asks { AsksAlike P.K P.L P.E P.F }
    ensures at { StepAlikeAt P.K P.L P.E P.F }
    ensures unasked { StepUnasked P.K P.L P.E P.F }
    ensures answers { AnswersAlike P.K P.L P.E P.F }
    ensures step { StepAlike P.K P.L P.E P.F }
    ensures run { RunAlike P.K P.L P.E P.F }
    ensures opening { OpeningAlike P.K P.L P.E P.F }
{}
