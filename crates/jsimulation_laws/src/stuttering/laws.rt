ghost use Rattle.jsimulation_laws.specs.stuttering.StutteringRuns.{CountsAll, EndsAll, EndsBehindAll, KeepsAll, KeepsBehindAll};

/// The states of two machines, and ways in which one of the one machine may stand for one of the other. They are types of definitions, so that
/// a law can speak of any.
pub trait TwoStates {
    /// The states of the machine that takes one step.
    ghost S: { Type 0 };

    /// The states of the machine that takes several.
    ghost T: { Type 0 };

    /// What the ways are told by, as two programs.
    ghost By: { Type 0 };

    /// When a state stands for another.
    ghost stands: { By → S → T → Type 0 };
}

/// The laws of a machine that takes 1 to so many steps for each step of another: what it tells, the other tells, and what the other tells until it
/// ends, it tells; and so it is with so many more steps where it first takes some that tell nothing. Where it is known how many steps answer
/// each, their sum answers a run. It has no body to run; its contract is the laws.
pub fn count_laws<P: TwoStates>()
    ensures keeps { (by : P.By) → KeepsAll (P.stands by) }
    ensures ends { (by : P.By) → EndsAll (P.stands by) }
    ensures keeps_behind { (by : P.By) → KeepsBehindAll (P.stands by) }
    ensures ends_behind { (by : P.By) → EndsBehindAll (P.stands by) }
    ensures counted { (by : P.By) → CountsAll (P.stands by) }
{}
