ghost use Rattle.std.specs.Prelude.{◌≡◌, ◌+◌, ℕ, IfOk, List, OnOk, length};
ghost use Rattle.jresolution.specs.jprogram.ProgramClasses.{Program};
ghost use Rattle.jresolution.specs.declared.juses.types.TypeRef.{TypeRef as Ref};
ghost use Rattle.jresolution.specs.ProofNames;
ghost use Rattle.jresolution.specs.juses.IndexedInstructions.{instruction};
ghost use Rattle.jresolution.specs.juses.InternedInstructions.{AreCode};
ghost use Rattle.jresolution.specs.juses.PoolTables.{Grows, pool_at};
ghost use Rattle.jready.specs.InlineOperands.{Exact};
ghost use Rattle.jready.specs.ProgramFacts.{IsKnown};
ghost use Rattle.jready.specs.CodeLayout.{AreLaid, Within, followed, instr_goes_on};
ghost use Rattle.jready.specs.DecodedInstructions.{meant};
ghost use Rattle.jready.specs.TableGrowth.{Grown};

use crate::flows::flow_instr;
use crate::instr::{ArrayInstr, FlowInstr, Instr};
use crate::plain::plain_of;
use crate::pooled::{array_of, pool_instr};
use crate::program_info::ProgramInfo;
use crate::tables::Tables;
use jground::jbase::Seq;
use jparts::jcode::{ArrayForm, OpForm, Placed, form_of};
use jresolution::juses::Condition;
use std::alloc::{AllocError, Global};

#[tactic(auto, unfolding(crate::specs::DecodedInstructions::meant))]
fn by_array(
    known: &ProgramInfo<'_>,
    tables: &mut Tables,
    class: u32,
    form: ArrayForm,
) -> Result<Instr, AllocError>
    requires { IsKnown known.now }
    ensures means { IfOk result
        (λ i. meant known.now.p.now tables.new class i ≡ ProofNames.array known.now.p.now (pool_at known.now.p.now class) form) }
    ensures within { IfOk result (Within tables.new) }
    ensures exact { IfOk result (Exact known.now.p.now known.now.uses.now.types tables.new class) }
    ensures grown { IfOk result (λ i. Grown tables.old tables.new) }
{
    match form {
        ArrayForm::New(kind) => Ok(Instr::Array(ArrayInstr::New(kind))),
        ArrayForm::NewRef(i) => array_of(known, tables, class, i),
        ArrayForm::Load(element) => Ok(Instr::Array(ArrayInstr::Load(element))),
        ArrayForm::Store(element) => Ok(Instr::Array(ArrayInstr::Store(element))),
        ArrayForm::Length => Ok(Instr::Array(ArrayInstr::Length)),
    }
}

/// What an instruction of a class is by number among those of its method.
#[tactic(auto, unfolding(crate::specs::DecodedInstructions::meant, jresolution::specs::juses::IndexedInstructions::instruction))]
fn instr_of(
    alloc: Global,
    known: &ProgramInfo<'_>,
    tables: &mut Tables,
    class: u32,
    ops: &[Placed],
    one: &Placed,
) -> Result<Instr, AllocError>
    requires known { IsKnown known.now }
    requires code { AreCode ops.now }
    ensures means { IfOk result
        (λ i. meant known.now.p.now tables.new class i ≡ instruction known.now.p.now (pool_at known.now.p.now class) ops.now one.now) }
    ensures within { IfOk result (Within tables.new) }
    ensures exact { IfOk result (Exact known.now.p.now known.now.uses.now.types tables.new class) }
    ensures grown { IfOk result (λ i. Grown tables.old tables.new) }
{
    match form_of(&one.op) {
        OpForm::Simple(form) => {
            let plain = plain_of(tables, form)?;
            Ok(Instr::Plain(plain))
        }
        OpForm::Local(form) => Ok(Instr::Local(form)),
        OpForm::Stack(op) => Ok(Instr::Stack(op)),
        OpForm::Flow(flow) => flow_instr(alloc, tables, ops, one.at, &flow),
        OpForm::Array(form) => by_array(known, tables, class, form),
        OpForm::Pool(form) => pool_instr(known, tables, class, form),
    }
}

fn goes_on(i: Instr) -> bool
    ensures { result ≡ instr_goes_on i }
{
    match i {
        Instr::Flow(FlowInstr::Jump(Condition::Always, _)) => false,
        Instr::Flow(FlowInstr::Jump(_, _)) => true,
        Instr::Flow(_) => false,
        Instr::Table(_) | Instr::Lookup(_) => false,
        _ => true,
    }
}

/// The instruction, unless it would go on and there is none behind it.
#[tactic(auto, using(crate::proofs::FallThrough::more_stays, crate::proofs::FallThrough::last_stops, crate::proofs::FallThrough::last_stays), unfolding(crate::specs::DecodedInstructions::meant),)]
fn unless_last(i: Instr, more: bool) -> Instr
    ensures means { (p : Program) (t : Tables) (class : ℕ) → meant p t class result ≡ followed more (meant p t class i) }
    ensures within { (t : Tables) → Within t i → Within t result }
    ensures exact { (p : Program) (types : List Ref) (t : Tables) (class : ℕ) → Exact p types t class i → Exact p types t class result }
{
    if more {
        return i;
    }
    if goes_on(i) {
        return Instr::Off;
    }
    i
}

/// Puts a method's instructions behind others, and says where they begin.
pub(crate) fn put_ops(
    alloc: Global,
    known: &ProgramInfo<'_>,
    tables: &mut Tables,
    code: &mut Seq<Instr>,
    class: u32,
    ops: &[Placed],
) -> Result<(), AllocError>
    requires known { IsKnown known.now }
    requires code { AreCode ops.now }
    ensures laid { OnOk result
        (AreLaid known.now.p.now known.now.uses.now.types tables.new class ops.now code.new (length code.old) (length ops.now)) }
    ensures count { OnOk result (length code.new ≡ length code.old + length ops.now) }
    ensures behind { OnOk result (Grows code.old code.new) }
    ensures grown { OnOk result (Grown tables.old tables.new) }
{
    for (i, one) in ops.iter().enumerate() {
        let instr = instr_of(alloc, known, tables, class, ops, one)?;
        let more = i + 1 < ops.len();
        code.push(unless_last(instr, more))?;
    }
    Ok(())
}
