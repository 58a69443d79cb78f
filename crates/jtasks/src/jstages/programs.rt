ghost use Rattle.std.specs.Prelude.{◌≡◌, ◌≤◌, ◌<◌, ◌^◌, IfSome, length};
ghost use Rattle.jlinking.specs.jlink.LinkedPrograms.{AreParts};

use crate::jstages::reading::{ground_in, parts_at};
use jground::jbase::Seq;
use joutput::jio::Shelf;
use jresolution::jprogram::CodePart;
use std::alloc::Global;

/// The class files of a job of this text, as they stand in its lines. None where one can't be read, or where no memory was left.
pub(crate) fn parts_in<S: Shelf>(alloc: Global, text: &[u8], shelf: &mut S) -> Option<Seq<CodePart>>
    requires { length text.now < 2 ^ 31 }
    ensures parts { IfSome result (λ parts. AreParts parts) }
    ensures held { S.held shelf.new ≡ S.held shelf.old }
    ensures stored { S.write_faults shelf.new ≡ S.write_faults shelf.old }
    ensures later { S.read_faults shelf.old ≤ S.read_faults shelf.new }
{
    let ground = ground_in(alloc, text, shelf).ok()?;
    let parts = parts_at(alloc, ground.classes.as_slice(), shelf).ok();
    drop(ground);
    parts
}
