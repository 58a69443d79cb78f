use jsoundness_laws::progress::OneMachine;

/// The machine that walks frames.
pub struct ByFrames;

/// The machine that is handed contexts.
pub struct ByContexts;

impl OneMachine for ByFrames {
    ghost use Rattle.jdomain.specs.DomainStacks.{Stack};
    ghost use Rattle.jsemantics.specs.jrules.InspectingRules.{Carried};

    ghost K = { Stack };

    ghost E = { Carried };
}

impl OneMachine for ByContexts {
    ghost use Rattle.std.specs.Prelude.{List};
    ghost use Rattle.jctx.specs.declared.item.Item.{Item};

    ghost K = { List Item };

    ghost E = { Unit {0} };
}
