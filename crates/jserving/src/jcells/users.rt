ghost use Rattle.std.specs.Prelude.{◌≡◌, ◌<◌, ◌+◌, ◌^◌, IfOk, length};
ghost use Rattle.jresolution.specs.jprogram.OrderedPrograms.{StandsInOrder};
ghost use Rattle.jserving.specs.jcells.UserClassCells.{AreLines, AreShapesTo, IsShape};

use crate::jcells::lines::{Line, lines_of};
use crate::jcells::paths::cells_of;
use jground::jbase::Seq;
use jready::Ready;
use jruntime::jstate::Shape;
use std::alloc::{AllocError, Global};

/// The shape of the objects of the class at a place. An error says that no memory was left, or that they had 2 ^ 32 cells or more, which
/// those of no program have.
fn shape_of(
    alloc: Global,
    ready: &Ready<'_>,
    lines: &[Line],
    class: u32,
) -> Result<Shape, AllocError>
    requires order { StandsInOrder ready.now.program }
    requires lines { AreLines ready.now.program lines.now }
    requires there { class < length ready.now.program.parts }
    ensures { IfOk result (IsShape ready.now.program class) }
{
    let cells = cells_of(alloc, ready.program(), lines, class)?;
    if cells.as_slice().len() >= u32::MAX as usize {
        return Err(AllocError);
    }
    let message = ready.shape(class).message;
    Ok(Shape { cells, message })
}

/// The shapes of the objects of users' classes, by their places.
pub(crate) fn users_of(alloc: Global, ready: &Ready<'_>) -> Result<Seq<Shape>, AllocError>
    ensures { IfOk result (λ users. AreShapesTo ready.now.program users (length ready.now.program.parts)) }
{
    let lines = lines_of(alloc, ready.program())?;
    let mut users = Seq::new(alloc);
    for class in 0..ready.program().parts().len() {
        users.push(shape_of(alloc, ready, lines.as_slice(), class as u32)?)?;
    }
    Ok(users)
}
