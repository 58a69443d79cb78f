ghost use Rattle.jmoved_laws.specs.contexts.SmallContexts.{ContextsStaySmall};

use jsemantics::jmachine::{TwoMachines, asking_laws};

/// A machine of whose contexts more is known, beside the plain machine.
struct Beside;

impl TwoMachines for Beside {
    ghost use Rattle.std.specs.Prelude.{List};
    ghost use Rattle.jctx.specs.declared.item.Item.{Item};
    ghost use Rattle.jmoved_laws.specs.contexts.ReducedContexts.{Everywhere};

    ghost K = { Everywhere };

    ghost L = { List Item };

    ghost E = { Unit {0} };

    ghost F = { Unit {0} };
}

/// The law of small contexts. In each state of a run of a moved program, behind any number of steps, on any policy and plan, each context that
/// stands anywhere has domains of the program's classes alone, and no item of it is covered by an earlier one; so a context without limits
/// has no more items than the program has domains. Of each program that links, is well typed and breaks no limit. It has no body to
/// run but the laws that it stands on; its contract is the law.
pub fn small_law()
    ensures { ContextsStaySmall }
{
    asking_laws::<Beside>();
}
