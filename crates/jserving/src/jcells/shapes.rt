ghost use Rattle.std.specs.Prelude.{◌≡◌, ◌+◌, ◌<◌, ◌^◌, ℕ, IfOk, List, Some, length, map, slice_get};
ghost use Rattle.jclass.specs.declared.class.MemberInfo.{MemberInfo};
ghost use Rattle.jresolution.specs.declared.jprogram.part.CodePart.{CodePart};
ghost use Rattle.jresolution.specs.jlayout.InternedFields.{all_statics};
ghost use Rattle.jruntime.specs.declared.jstate.shapes.Shape.{Shape as ShapeOf};
ghost use Rattle.jserving.specs.jcells.UserClassCells;
ghost use Rattle.jserving.specs.jcells.UserClassCells.{field_cell};
ghost use Rattle.jserving.specs.jcells.ArrayTypeNumbers.{AreRows, IsStrings};
ghost use Rattle.jserving.specs.jcells.CellLayout.{AreTied};

use crate::jcells::arrays::{NumberArrays, arrays_of, number_arrays};
use crate::jcells::users::users_of;
use jground::jbase::Seq;
use jmemory::jheap::CellType;
use jready::Ready;
use jruntime::jstate::Shapes;
use std::alloc::{AllocError, Global};

/// What stands in the heap's cells, and the numbers of the arrays that the machine itself makes.
#[derive(Drop)]
pub struct Shaped {
    pub shapes: Shapes,
    /// Those of the arrays of numbers.
    pub numbers: NumberArrays,
    /// That of the arrays of strings.
    pub strings: u32,
}

/// The cell of a field, where a static's is known.
fn plain_cell(cell: CellType) -> CellType
    ensures { result ≡ UserClassCells.plain_cell cell }
{
    match cell {
        CellType::Int => CellType::Int,
        CellType::Long => CellType::Long,
        CellType::Ref => CellType::Ref,
        CellType::Ctx => CellType::Ref,
    }
}

/// The cells of the statics of a program.
fn statics_of(alloc: Global, ready: &Ready<'_>) -> Result<Seq<CellType>, AllocError>
    ensures { IfOk result
        (λ cells. cells ≡ map (λ (x : CodePart × MemberInfo). field_cell ready.now.program x.0 x.1) (all_statics ready.now.program)) }
{
    let mut cells = Seq::new(alloc);
    let rows = ready.statics();
    for row in rows {
        cells.push(plain_cell(row.cell))?;
    }
    Ok(cells)
}

/// The shapes of a program's objects, of its statics and of its arrays: once and for all.
///
/// An error says that no memory was left, or that an object had 2 ^ 32 cells or more, or that there were 2 ^ 31 types of arrays of
/// references, which no program has.
pub fn shapes_of(alloc: Global, ready: &Ready<'_>) -> Result<Shaped, AllocError>
    ensures tied { IfOk result (λ s. AreTied ready.now.program ready.now.methods.tables s.shapes) }
    ensures numbers { IfOk result (λ s. AreRows s.shapes s.numbers) }
    ensures strings { IfOk result (λ s. IsStrings s.shapes s.strings) }
    ensures small { IfOk result (λ s. (i : ℕ) (shape : ShapeOf) → slice_get s.shapes.users i ≡ Some shape → length shape.cells + 1 < 2 ^ 32) }
{
    let users = users_of(alloc, ready)?;
    let statics = statics_of(alloc, ready)?;
    let arrays = arrays_of(alloc, ready.tables())?;
    Ok(Shaped {
        shapes: Shapes {
            users,
            arrays: arrays.types,
            statics,
        },
        numbers: number_arrays(),
        strings: arrays.strings,
    })
}
