ghost use Rattle.std.specs.Prelude.{◌≡◌, IfOk, Some, slice_get};
ghost use Rattle.jresolution.specs.jlayout.FieldCounts;
ghost use Rattle.jserving.specs.jcells.UserClassCells;
ghost use Rattle.jserving.specs.jcells.UserClassCells.{AreLines, IsLine};

use crate::jcells::fields::own_cells;
use jground::jbase::Seq;
use jlinking::jlink::LinkedProgram;
use jmemory::jheap::CellType;
use jresolution::jprogram::{ClassRef, CodePart};
use std::alloc::{AllocError, Global};

/// What is kept of a user's class.
#[derive(Drop)]
pub(crate) struct Line {
    /// The user's class directly above it.
    pub above: Option<u32>,
    /// The cells of the fields that it declares itself.
    pub own: Seq<CellType>,
}

/// The user's class directly above a user's class.
fn above_of(p: &LinkedProgram, class: u32) -> Option<u32>
    ensures { result ≡ FieldCounts.above_at p.now class }
{
    match p.named().super_of(ClassRef::User(class)) {
        Some(ClassRef::User(above)) => Some(above),
        _ => None,
    }
}

fn line_of(
    alloc: Global,
    p: &LinkedProgram,
    class: u32,
    part: &CodePart,
) -> Result<Line, AllocError>
    requires { slice_get p.now.parts class ≡ Some part.now }
    ensures { IfOk result (IsLine p.now class) }
{
    let own = own_cells(alloc, p, part)?;
    Ok(Line {
        above: above_of(p, class),
        own,
    })
}

/// Of each user's class the class above it and its own cells.
pub(crate) fn lines_of(alloc: Global, p: &LinkedProgram) -> Result<Seq<Line>, AllocError>
    ensures { IfOk result (AreLines p.now) }
{
    let mut lines = Seq::new(alloc);
    for (i, part) in p.parts().iter().enumerate() {
        lines.push(line_of(alloc, p, i as u32, part)?)?;
    }
    Ok(lines)
}
