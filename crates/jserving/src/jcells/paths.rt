ghost use Rattle.std.specs.Prelude.{◌≡◌, ◌<◌, IfOk, length, reverse};
ghost use Rattle.std.specs.List.{flat_map};
ghost use Rattle.jresolution.specs.jprogram.OrderedPrograms.{StandsInOrder};
ghost use Rattle.jresolution.specs.jlayout.FieldCounts;
ghost use Rattle.jserving.specs.jcells.UserClassCells;
ghost use Rattle.jserving.specs.jcells.UserClassCells.{AreLines};

use crate::jcells::lines::Line;
use jground::jbase::Seq;
use jlinking::jlink::LinkedProgram;
use jmemory::jheap::CellType;
use std::alloc::{AllocError, Global};

fn above_in(p: &LinkedProgram, lines: &[Line], class: u32) -> Option<u32>
    requires { AreLines p.now lines.now }
    ensures { result ≡ FieldCounts.above_at p.now class }
{
    match lines.get(class as usize) {
        Some(line) => line.above,
        None => None,
    }
}

fn own_in<'l>(p: &LinkedProgram, lines: &'l [Line], class: u32) -> &'l [CellType]
    requires { AreLines p.now lines.now }
    ensures { result.now ≡ UserClassCells.own_at p.now class }
{
    match lines.get(class as usize) {
        Some(line) => line.own.as_slice(),
        None => &[],
    }
}

/// A user's class and those above it, which have the cells of its objects, the highest last.
fn path_from(
    alloc: Global,
    p: &LinkedProgram,
    lines: &[Line],
    class: u32,
) -> Result<Vec<u32>, AllocError>
    requires order { StandsInOrder p.now }
    requires lines { AreLines p.now lines.now }
    ensures { IfOk result (λ path. UserClassCells.cells_at p.now class ≡ flat_map (UserClassCells.own_at p.now) (reverse path.items)) }
{
    let mut path = Vec::new(alloc);
    let mut next = Some(class);
    while let Some(at) = next {
        path.push(at)?;
        next = above_in(p, lines, at);
    }
    Ok(path)
}

/// The cells of the classes of a path, the last first.
fn cells_along(
    alloc: Global,
    p: &LinkedProgram,
    lines: &[Line],
    classes: Vec<u32>,
) -> Result<Seq<CellType>, AllocError>
    requires { AreLines p.now lines.now }
    ensures { IfOk result (λ cells. cells ≡ flat_map (UserClassCells.own_at p.now) (reverse classes.items)) }
{
    let mut cells = Seq::new(alloc);
    let mut path = classes;
    while let Some(at) = path.pop() {
        cells.extend(own_in(p, lines, at))?;
    }
    Ok(cells)
}

/// The cells of the objects of a user's class.
pub(crate) fn cells_of(
    alloc: Global,
    p: &LinkedProgram,
    lines: &[Line],
    class: u32,
) -> Result<Seq<CellType>, AllocError>
    requires order { StandsInOrder p.now }
    requires lines { AreLines p.now lines.now }
    ensures { IfOk result (λ cells. cells ≡ UserClassCells.cells_at p.now class) }
{
    let path = path_from(alloc, p, lines, class)?;
    cells_along(alloc, p, lines, path)
}
