ghost use Rattle.jsoundness_laws.specs.progress.TypedStates.{MainHasCode, OpensTyped, RunsTyped, StatesStep};

/// A machine: what it keeps, and what its frames carry. They are types of definitions, so that a law can speak of any.
pub trait OneMachine {
    /// What stands for a security context.
    ghost K: { Type 0 };

    /// What frames carry.
    ghost E: { Type 0 };
}

/// The laws of typed states. Each has a step, which comes to a typed state; the state in which a run begins is typed; and so is the one behind
/// each number of steps, on any plan, so that no run is ever stuck. The method with which a run begins has code. It has no body to run; its
/// contract is the laws.
pub fn states_laws<M: OneMachine>()
    ensures step { StatesStep M.K M.E }
    ensures opening { OpensTyped M.K M.E }
    ensures run { RunsTyped M.K M.E }
    ensures coded { MainHasCode }
{}
