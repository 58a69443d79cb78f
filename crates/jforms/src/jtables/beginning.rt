ghost use Rattle.std.specs.Prelude.{◌≡◌, ◌<◌, ◌^◌, ℕ, IfOk, is_some, true};
ghost use Rattle.jresolution.specs.juses.IndexedInstructions.{code_at};
ghost use Rattle.jresolution.specs.jprogram.ProgramClasses.{Program};
ghost use Rattle.jlinking.specs.jlink.ProgramFiles.{AreFiles};
ghost use Rattle.jserving.specs.jcells.CellLayout.{AreTied};
ghost use Rattle.jstepping.specs.jstep.StepRelation.{IsFixed};
ghost use Rattle.jforms.specs.jtables.RunTables.{BegunOr, IsGround};

use crate::jtables::grounds::EngineTables;
use jground::jbase::Seq;
use jlib::Side;
use jruntime::jguests::Guests;
use jsemantics::jmachine::Plan;
use jserving::jinvoke::Calls;
use jstepping::jcore::Machine;
use jstepping::jopen::{FirstFrame, open};
use jstepping::jstep::RunTables;
use std::alloc::{AllocError, Global};

/// What stands as long as a program runs, lent to its machine.
fn fixed_by<'a, 'p, M>(base: &'a EngineTables<'p, M>, depth: u32) -> RunTables<'a, 'p, M>
    ensures fixed { (p : Program) (mark : ℕ → M) → IsGround p mark base.now → IsFixed p result }
    ensures tied { (p : Program) (mark : ℕ → M) → IsGround p mark base.now → AreTied p result.tables.now result.shapes.now }
    ensures shapes { result.shapes.now ≡ base.now.shaped.shapes }
    ensures marks { result.marks.now ≡ base.now.marks }
    ensures depth { result.depth ≡ depth }
{
    RunTables {
        ready: &base.ready,
        tables: base.ready.tables(),
        shapes: &base.shaped.shapes,
        numbers: base.shaped.numbers,
        ancestors: &base.ancestors,
        marks: base.marks.as_slice(),
        depth,
    }
}

/// The machine at the beginning of a run, none exactly where the heap has too few cells for what is made then.
pub(crate) fn begin<'a, 'p, M: Copy>(
    alloc: Global,
    base: &'a EngineTables<'p, M>,
    plan: &'a Plan,
    side: Side,
    first: FirstFrame<M>,
) -> Result<Option<Machine<'a, 'p, M>>, AllocError>
    requires base { (mark : ℕ → M) × IsGround base.now.ready.program mark base.now }
    requires main { first.main ≡ plan.now.main }
    requires most { plan.now.heap < 2 ^ 31 }
    requires coded { is_some (code_at base.now.ready.program plan.now.main) ≡ true }
    requires files { AreFiles base.now.ready.program }
    ensures { IfOk result (BegunOr base.now.ready.program plan.now side base.now.marks first) }
{
    let Some(opened) = open(alloc, &base.ready, &base.shaped, first, plan.heap)? else {
        return Ok(None);
    };
    let Ok(calls) = Calls::of(alloc, &base.ready, &base.ancestors) else {
        drop(opened);
        return Err(AllocError);
    };
    let Ok(guests) = Guests::open(alloc, opened.frames) else {
        drop(calls);
        drop(opened.heap);
        drop(opened.constants);
        return Err(AllocError);
    };
    Ok(Some(Machine {
        fixed: fixed_by(base, plan.depth),
        plan,
        side,
        guests,
        heap: opened.heap,
        constants: opened.constants,
        permissions: Seq::new(alloc),
        kept: Seq::new(alloc),
        calls,
    }))
}
