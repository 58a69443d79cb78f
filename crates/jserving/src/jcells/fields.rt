ghost use Rattle.std.specs.Prelude.{◌≡◌, IfOk, Some, option_map};
ghost use Rattle.jresolution.specs.jprogram.ProgramClasses.{Program};
ghost use Rattle.jresolution.specs.juses.InternedTypes.{named};
ghost use Rattle.jresolution.specs.jlayout.FieldKinds.{or_top};
ghost use Rattle.jresolution.specs.jlayout.FieldLayout;
ghost use Rattle.jrows.specs.jobjs.NewObjects;
ghost use Rattle.jserving.specs.jcells.UserClassCells;

use bitflags::Flags;
use jclass::{Access, MemberInfo};
use jground::jbase::Seq;
use jlinking::jlink::LinkedProgram;
use jmemory::jheap::CellType;
use jresolution::jlayout::held_type;
use jresolution::jprogram::{CodePart, member_desc};
use jresolution::juses::TypeRef;
use std::alloc::{AllocError, Global};

/// How a cell of a field holds values of a type.
fn cell_of(t: TypeRef) -> CellType
    ensures { (p : Program) → NewObjects.cell_of (named p t) ≡ result }
{
    match t {
        TypeRef::Int => CellType::Int,
        TypeRef::Long => CellType::Long,
        _ => CellType::Ref,
    }
}

fn cell_in(held: Option<TypeRef>) -> CellType
    ensures { (p : Program) → NewObjects.cell_of (or_top (option_map (named p) held)) ≡ result }
{
    match held {
        Some(t) => cell_of(t),
        None => CellType::Ref,
    }
}

/// The cell of a field.
fn field_cell(
    alloc: Global,
    p: &LinkedProgram,
    part: &CodePart,
    field: &MemberInfo,
) -> Result<CellType, AllocError>
    ensures { IfOk result (λ cell. cell ≡ UserClassCells.field_cell p.now part.now field.now) }
{
    let desc = member_desc(part.class.parts(), field);
    let held = held_type(alloc, p.named(), desc)?;
    Ok(cell_in(held))
}

fn is_static(field: &MemberInfo) -> bool
    ensures { result ≡ FieldLayout.is_static field.now }
{
    field.flags.contains(Access::STATIC)
}

/// The cells of the fields that a class declares itself.
pub(crate) fn own_cells(
    alloc: Global,
    p: &LinkedProgram,
    part: &CodePart,
) -> Result<Seq<CellType>, AllocError>
    ensures { IfOk result (λ cells. cells ≡ UserClassCells.own_in p.now (Some part.now)) }
{
    let mut cells = Seq::new(alloc);
    let parts = part.class.parts();
    for field in parts.fields.as_slice() {
        if !is_static(field) {
            cells.push(field_cell(alloc, p, part, field)?)?;
        }
    }
    Ok(cells)
}
