ghost use Rattle.std.specs.Prelude.{◌≡◌, IfOk};
ghost use Rattle.jserving.specs.jfits.SubtypeTables.{AreLines, IsLine};

use jground::jbase::Seq;
use jresolution::jprogram::{ClassRef, NamedProgram};
use std::alloc::{AllocError, Global};

/// What is kept of a user's class.
#[derive(Clone, Copy)]
pub(crate) struct Line {
    /// The class directly above it.
    pub above: Option<ClassRef>,
    pub is_interface: bool,
}

fn line_of(p: &NamedProgram, class: ClassRef) -> Line
    ensures { IsLine p.now class result }
{
    Line {
        above: p.super_of(class),
        is_interface: p.is_interface(p.name_of(class)),
    }
}

/// Of each user's class what is kept of it.
pub(crate) fn lines_of(alloc: Global, p: &NamedProgram) -> Result<Seq<Line>, AllocError>
    ensures { IfOk result (AreLines p.now) }
{
    let mut lines = Seq::new(alloc);
    for (i, _) in p.parts().iter().enumerate() {
        lines.push(line_of(p, ClassRef::User(i as u32)))?;
    }
    Ok(lines)
}
