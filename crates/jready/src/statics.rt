ghost use Rattle.std.specs.Prelude.{◌≡◌, ◌++◌, IfOk, List, OnOk, Some, option_and_then, option_map, slice_get, unwrap_or, ℕ};
ghost use Rattle.std.specs.List.{flat_map};
ghost use Rattle.jground.specs.jbase.FirstFaults.{first_some};
ghost use Rattle.jclass.specs.declared.class.MemberInfo.{MemberInfo as Info};
ghost use Rattle.jresolution.specs.declared.jprogram.part.CodePart.{CodePart as Part};
ghost use Rattle.jresolution.specs.jprogram.ProgramClasses.{Program};
ghost use Rattle.jresolution.specs.juses.PoolTables.{pool_at};
ghost use Rattle.jresolution.specs.juses.InternedTypes.{named};
ghost use Rattle.jresolution.specs.jlayout.FieldKinds.{or_top};
ghost use Rattle.jresolution.specs.jlayout.FieldLayout;
ghost use Rattle.jresolution.specs.jlayout.InternedFields.{all_statics};
ghost use Rattle.jsemantics.specs.jmachine.OpeningState;
ghost use Rattle.jready.specs.InlineOperands;
ghost use Rattle.jready.specs.Statics;
ghost use Rattle.jready.specs.Statics.{AreStatics, IsStatic, nothing, own_statics};

use crate::fields::narrow_of;
use crate::instr::Narrow;
use crate::pooled::cell_of;
use crate::tables::next_number;
use bitflags::Flags;
use jclass::{Access, Attribute, ClassParts, MemberInfo};
use jground::jbase::Seq;
use jlinking::jlink::LinkedProgram;
use jmemory::jheap::CellType;
use jparts::jpool::Entry;
use jresolution::jlayout::held_type;
use jresolution::jprogram::{CodePart, member_desc};
use jresolution::juses::TypeRef;
use jvalues::jops::Value;
use std::alloc::{AllocError, Global};

/// What a static holds at first (JVMS 4.7.2): its constant, as a put would leave it, or else 0 or null.
#[derive(Clone, Copy, Debug)]
pub enum First {
    Known(Value),
    /// A string, by the index of its text.
    Text(u16),
}

/// A static.
#[derive(Clone, Copy, Debug)]
pub struct StaticRow {
    /// The place of the class that declares it.
    pub class: u32,
    pub cell: CellType,
    pub first: First,
}

/// The index of a field's constant, where it has one.
#[tactic(auto, unfolding(jground::specs::jbase::FirstFaults::first_some))]
fn constant_index(field: &MemberInfo) -> Option<u16>
    ensures { result ≡ first_some OpeningState.value_in field.now.attributes }
{
    for attribute in field.attributes.as_slice() {
        if let Attribute::ConstantValue { value, .. } = attribute {
            return Some(*value);
        }
    }
    None
}

/// What a cell holds before anything is put there: 0 or null.
fn nothing_in(cell: CellType) -> Value
    ensures { result ≡ nothing cell }
{
    match cell {
        CellType::Int => Value::Int(0),
        CellType::Long => Value::Long(0),
        _ => Value::Ref(0),
    }
}

fn cell_in(held: Option<TypeRef>) -> CellType
    ensures { (p : Program) → InlineOperands.cell_of (or_top (option_map (named p) held)) ≡ result }
{
    match held {
        Some(t) => cell_of(t),
        None => CellType::Ref,
    }
}

/// What a cell holds at first, by its field's constant.
fn first_of(class: &ClassParts, cell: CellType, narrow: Narrow, constant: Option<u16>) -> First
    ensures { (made : List (List ℕ × ℕ)) → Statics.first_in made class.now.pool cell result ≡ InlineOperands.narrow narrow
        (unwrap_or (OpeningState.value_of made class.now (option_and_then (slice_get class.now.pool) constant)) (nothing cell)) }
{
    let Some(i) = constant else {
        return First::Known(nothing_in(cell));
    };
    match class.pool.entry(i) {
        Some(Entry::Integer(n)) => First::Known(narrow.left(Value::Int(*n))),
        Some(Entry::Long(n)) => First::Known(Value::Long(*n)),
        Some(Entry::Str(text)) => First::Text(*text),
        _ => First::Known(nothing_in(cell)),
    }
}

fn row_of(
    alloc: Global,
    p: &LinkedProgram,
    class: u32,
    parts: &ClassParts,
    field: &MemberInfo,
) -> Result<StaticRow, AllocError>
    requires { pool_at p.now class ≡ parts.now.pool }
    ensures { IfOk result (IsStatic p.now parts.now field.now) }
{
    let desc = member_desc(parts, field);
    let cell = cell_in(held_type(alloc, p.named(), desc)?);
    let first = first_of(parts, cell, narrow_of(desc), constant_index(field));
    Ok(StaticRow { class, cell, first })
}

fn is_static(field: &MemberInfo) -> bool
    ensures { result ≡ FieldLayout.is_static field.now }
{
    field.flags.contains(Access::STATIC)
}

/// Puts the statics of a class behind others.
fn put_statics(
    alloc: Global,
    p: &LinkedProgram,
    class: u32,
    part: &CodePart,
    rows: &mut Seq<StaticRow>,
) -> Result<(), AllocError>
    requires { slice_get p.now.parts class ≡ Some part.now }
    ensures { OnOk result
        ((before : List (Part × Info)) → AreStatics p.now before rows.old → AreStatics p.now (before ++ own_statics part.now) rows.new) }
{
    let parts = part.class.parts();
    for field in parts.fields.as_slice() {
        if is_static(field) {
            rows.push(row_of(alloc, p, class, parts, field)?)?;
        }
    }
    Ok(())
}

/// All statics of a program, in their order.
pub(crate) fn statics_of(alloc: Global, p: &LinkedProgram) -> Result<Seq<StaticRow>, AllocError>
    ensures { IfOk result (AreStatics p.now (all_statics p.now)) }
{
    let mut rows = Seq::new(alloc);
    for (i, part) in p.parts().iter().enumerate() {
        let class = next_number(i)?;
        put_statics(alloc, p, class, part, &mut rows)?;
    }
    Ok(rows)
}
