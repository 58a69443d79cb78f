ghost use Rattle.std.specs.Prelude.{◌≡◌, ◌<◌, ◌^◌, IfOk};
ghost use Rattle.jsemantics.specs.jmachine.FrameOperations;
ghost use Rattle.jsemantics.specs.jmachine.Security;
ghost use Rattle.jstepping.specs.jopen.InitialMachines;
ghost use Rattle.jresolution.specs.jprogram.MemberResolution.{IsMain};
ghost use Rattle.jforms.specs.jtables.Engines.{IsSafe};
ghost use Rattle.jforms.specs.jtables.RunTables.{IsGround, StartsOr};

use crate::jtables::beginning::begin;
use crate::jtables::grounds::EngineTables;
use crate::jtables::safety::ByRules;
use jguard::{Guard, Sided, guard_laws};
use jlib::Side;
use jlinking::jlink::LinkedProgram;
use jresolution::jprogram::MethodId;
use jsemantics::jmachine::Plan;
use jsoundness_laws::progress::states_laws;
use jstepping::jcore::Machine;
use jstepping::jopen::FirstFrame;
use std::alloc::{AllocError, Global};

/// What `main` is given of a context: on the passing side the first, on the other none.
fn handed(side: Side, first: Option<u64>) -> Option<u64>
    ensures { Security.handed side first ≡ InitialMachines.handed result }
{
    match side {
        Side::Source => None,
        Side::Passing => first,
    }
}

/// The domain of a method's class.
fn domain_of(program: &LinkedProgram, m: MethodId) -> u32
    ensures { result ≡ FrameOperations.domain_of program.now m }
{
    match program.parts().get(m.class as usize) {
        None => 0,
        Some(part) => part.domain,
    }
}

/// The machine at the beginning of a run, for a guard that gave what `main` is handed: none exactly where the heap has too few cells.
pub fn start<'a, 'p, G: Guard>(
    alloc: Global,
    base: &'a EngineTables<'p, G::Mark>,
    program: &'p LinkedProgram,
    plan: &'a Plan,
    guard: &mut G,
) -> Result<Option<Machine<'a, 'p, G::Mark>>, AllocError>
    requires base { IsGround program.now G.mark base.now }
    requires most { plan.now.heap < 2 ^ 31 }
    requires main { IsMain program.now plan.now.main }
    requires safe { IsSafe (G.rules guard.old) program.now }
    ensures starts { IfOk result (StartsOr (G.kept guard.new) (G.entry guard.new) G.mark (G.rules guard.old) program.now plan.now) }
    ensures rules { G.rules guard.new ≡ G.rules guard.old }
{
    guard_laws::<G>();
    states_laws::<ByRules<G>>();
    let mark = guard.mark_of(domain_of(program, plan.main));
    let given = guard.first(alloc)?;
    let context = handed(G::On::SIDE, given);
    let first = FirstFrame {
        main: plan.main,
        mark,
        context,
    };
    let begun = begin(alloc, base, plan, G::On::SIDE, first)?;
    Ok(begun)
}
