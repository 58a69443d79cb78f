ghost use Rattle.std.specs.Prelude.{◌≡◌, ◌<◌, ◌≤◌, ◌+◌, ◌^◌, Some, length};
ghost use Rattle.jresolution.specs.juses.IndexedInstructions as instructions;
ghost use Rattle.jresolution.specs.juses.InternedInstructions.{test_of};
ghost use Rattle.jready.specs.DecodedInstructions.{flow_meant, lookup_meant, table_meant};
ghost use Rattle.jready.specs.TableGrowth.{AreThere};
ghost use Rattle.jrows.specs.jacts.RowOutcomes.{Does, Rests};
ghost use Rattle.jstepping.specs.jstep.InstructionRows.{DoesAs, IsFlowHere, IsNumberTest};

use jready::{FlowInstr, Lookup, Table, Tables};
use jresolution::juses::Condition;
use jrows::jacts::{Way, goto, jump_if, jump_if_int, switch, switch_key, switch_laws};
use jruntime::jstate::Frames;

/// A branch that tests no reference (JVMS 6.5: goto, ifeq to ifle, if_icmpeq to if_icmple).
#[inline]
pub fn jump<M: Copy>(frames: &mut Frames<M>, when: Condition, to: u32) -> Way
    requires place { frames.old.newest.place + 1 < 2 ^ 32 }
    requires number { IsNumberTest when }
    ensures row { Does (instructions.Jump (test_of when) to) frames.old.newest result frames.new.newest }
    ensures below { frames.new.below ≡ frames.old.below }
    ensures rests { Rests result frames.old frames.new }
{
    match when {
        Condition::Always => goto(frames, to),
        Condition::If(c) => jump_if(frames, c, to),
        Condition::IfInt(c) => jump_if_int(frames, c, to),
        Condition::IfRef(_) => unreachable!(),
    }
}

/// The same of what says where the method goes on, where that is such a branch.
#[inline]
pub fn flow<M: Copy>(frames: &mut Frames<M>, f: FlowInstr) -> Way
    requires place { frames.old.newest.place + 1 < 2 ^ 32 }
    requires here { IsFlowHere f }
    ensures row { Does (flow_meant f) frames.old.newest result frames.new.newest }
    ensures below { frames.new.below ≡ frames.old.below }
    ensures rests { Rests result frames.old frames.new }
{
    match f {
        FlowInstr::Jump(when, to) => jump(frames, when, to),
        FlowInstr::Return(_) => unreachable!(),
        FlowInstr::Throw => unreachable!(),
    }
}

/// A switch whose keys rise by one (JVMS 6.5: tableswitch, and lookupswitch with such keys).
#[inline]
pub fn table<M: Copy>(frames: &mut Frames<M>, tables: &Tables, c: Table) -> Way
    requires { (c.first + 1) + c.count ≤ length tables.now.targets }
    ensures row { DoesAs (table_meant tables.now c) frames.old.newest result frames.new.newest }
    ensures below { frames.new.below ≡ frames.old.below }
    ensures rests { Rests result frames.old frames.new }
{
    switch_laws::<M>();
    let Some(key) = switch_key(frames) else {
        return Way::Stuck;
    };
    let to = tables.table_to(c, key);
    switch(frames, key, to)
}

/// Any other switch (JVMS 6.5: lookupswitch).
#[inline]
pub fn lookup<M: Copy>(frames: &mut Frames<M>, tables: &Tables, c: Lookup) -> Way
    requires { AreThere tables.now.keys c.first c.count }
    ensures row { Does (lookup_meant tables.now c) frames.old.newest result frames.new.newest }
    ensures below { frames.new.below ≡ frames.old.below }
    ensures rests { Rests result frames.old frames.new }
{
    switch_laws::<M>();
    let Some(key) = switch_key(frames) else {
        return Way::Stuck;
    };
    let to = tables.lookup_to(c, key);
    switch(frames, key, to)
}
