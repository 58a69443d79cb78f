ghost use Rattle.std.specs.Prelude.{◌≡◌, ◌+◌, ◌≤◌, ℕ, IfOk, List, Some, length, map};
ghost use Rattle.jparts.specs.jcode.InstructionForms;
ghost use Rattle.jresolution.specs.jprogram.ProgramClasses.{Program};
ghost use Rattle.jresolution.specs.declared.juses.types.TypeRef.{TypeRef as Ref};
ghost use Rattle.jresolution.specs.juses.IndexedInstructions;
ghost use Rattle.jresolution.specs.juses.InternedInstructions.{AreCode, flow_named, keyed_as, keys_from, keys_of};
ghost use Rattle.jready.specs.InlineOperands.{Exact};
ghost use Rattle.jready.specs.CodeLayout.{Within};
ghost use Rattle.jready.specs.DecodedInstructions.{lookup_meant, meant, table_meant};
ghost use Rattle.jready.specs.TableGrowth.{AreThere, Grown};

use crate::instr::{FlowInstr, Instr, Lookup, Table};
use crate::tables::Tables;
use jparts::jcode::{Flow, Placed, Switch};
use jresolution::juses::{FlowRef, Key, Keys, flow_of};
use std::alloc::{AllocError, Global};

// ---- switches

/// A switch whose keys rise by one from the least.
fn table(tables: &mut Tables, low: i32, numbers: &[u32], other: u32) -> Result<Table, AllocError>
    ensures means { IfOk result (λ c. table_meant tables.new c ≡ Some (IndexedInstructions.Switch (keys_from low numbers.now) other)) }
    ensures within { IfOk result (λ c. (c.first + 1) + c.count ≤ length tables.new.targets) }
    ensures grown { IfOk result (λ c. Grown tables.old tables.new) }
{
    let first = tables.put_target(other)?;
    let span = tables.put_targets(numbers)?;
    Ok(Table {
        low,
        first,
        count: span.count,
    })
}

/// A switch by keys.
fn lookup(tables: &mut Tables, keys: &[Key], other: u32) -> Result<Lookup, AllocError>
    ensures means { IfOk result (λ c. lookup_meant tables.new c ≡ IndexedInstructions.Switch (map keyed_as keys.now) other) }
    ensures within { IfOk result (λ c. AreThere tables.new.keys c.first c.count) }
    ensures grown { IfOk result (λ c. Grown tables.old tables.new) }
{
    let span = tables.put_keys(keys)?;
    Ok(Lookup {
        first: span.first,
        count: span.count,
        other,
    })
}

#[tactic(auto, unfolding(crate::specs::DecodedInstructions::meant))]
fn by_keys(tables: &mut Tables, keys: &Keys, other: u32) -> Result<Instr, AllocError>
    ensures means { IfOk result
        (λ i. (p : Program) (class : ℕ) → meant p tables.new class i ≡ Some (IndexedInstructions.Switch (keys_of keys.now) other)) }
    ensures within { IfOk result (Within tables.new) }
    ensures exact { IfOk result (λ i. (p : Program) (types : List Ref) (class : ℕ) → Exact p types tables.new class i) }
    ensures grown { IfOk result (λ i. Grown tables.old tables.new) }
{
    match keys {
        Keys::From(low, numbers) => {
            let switch = table(tables, *low, numbers.as_slice(), other)?;
            Ok(Instr::Table(switch))
        }
        Keys::Each(keys) => {
            let switch = lookup(tables, keys.as_slice(), other)?;
            Ok(Instr::Lookup(switch))
        }
    }
}

// ---- all

/// What says where the method goes on, by number.
#[tactic(auto, unfolding(crate::specs::DecodedInstructions::meant))]
fn numbered(tables: &mut Tables, flow: FlowRef) -> Result<Instr, AllocError>
    ensures means { IfOk result (λ i. (p : Program) (class : ℕ) → meant p tables.new class i ≡ Some (flow_named flow)) }
    ensures within { IfOk result (Within tables.new) }
    ensures exact { IfOk result (λ i. (p : Program) (types : List Ref) (class : ℕ) → Exact p types tables.new class i) }
    ensures grown { IfOk result (λ i. Grown tables.old tables.new) }
{
    match flow {
        FlowRef::Jump(test, to) => Ok(Instr::Flow(FlowInstr::Jump(test, to))),
        FlowRef::Switch(keys, other) => by_keys(tables, &keys, other),
        FlowRef::Return(kind) => Ok(Instr::Flow(FlowInstr::Return(kind))),
        FlowRef::Throw => Ok(Instr::Flow(FlowInstr::Throw)),
    }
}

/// The same, of a form.
#[tactic(auto, unfolding(crate::specs::DecodedInstructions::meant))]
pub(crate) fn flow_instr(
    alloc: Global,
    tables: &mut Tables,
    ops: &[Placed],
    at: u32,
    flow: &Flow<&Switch>,
) -> Result<Instr, AllocError>
    requires { AreCode ops.now }
    ensures means { IfOk result
        (λ i. (p : Program) (class : ℕ) → meant p tables.new class i ≡ IndexedInstructions.flow ops.now at (InstructionForms.seen_flow flow.now)) }
    ensures within { IfOk result (Within tables.new) }
    ensures exact { IfOk result (λ i. (p : Program) (types : List Ref) (class : ℕ) → Exact p types tables.new class i) }
    ensures grown { IfOk result (λ i. Grown tables.old tables.new) }
{
    match flow_of(alloc, ops, at, flow)? {
        None => Ok(Instr::Off),
        Some(flow) => numbered(tables, flow),
    }
}
