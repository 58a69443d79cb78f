ghost use Rattle.std.specs.Prelude.{◌≡◌, ◌<◌, [], IfOk, OnOk, MatchBool};
ghost use Rattle.jresolution.specs.jprogram.ProgramClasses.{Program};
ghost use Rattle.jruntime.specs.jstate.ObjectCells.{StayCelled};
ghost use Rattle.jruntime.specs.jstate.HeapMeanings.{AreBuilt};
ghost use Rattle.jstepping.specs.jopen.StaticRows.{row_text, texts_of};
ghost use Rattle.jstepping.specs.jopen.OpeningTexts.{HasMade, MakesFor, texts_charge};

use jlibcalls::jconstants::Constants;
use jmemory::jheap::Heap;
use jready::{First, StaticRow};
use std::alloc::{AllocError, Global};

/// Makes the string that a static holds at first, if it holds one, and none of its units was made. The answer is no where the cells for it
/// aren't left.
fn make_for(
    alloc: Global,
    constants: &mut Constants<'_>,
    heap: &mut Heap,
    row: StaticRow,
) -> Result<bool, AllocError>
    requires { AreBuilt heap.old.objects }
    ensures makes { IfOk result
        (λ went. MakesFor constants.old.program (row_text constants.old.program row) went constants.old heap.old constants.new heap.new) }
    ensures program { OnOk result (constants.new.program ≡ constants.old.program) }
    ensures statics { OnOk result (heap.new.statics ≡ heap.old.statics) }
    ensures built { OnOk result (AreBuilt heap.new.objects) }
    ensures celled { OnOk result (StayCelled heap.old.objects heap.new.objects) }
{
    match row.first {
        First::Known(_) => Ok(true),
        First::Text(index) => {
            let object = constants.get::<()>(alloc, heap, row.class, index)?;
            Ok(object.is_some())
        }
    }
}

/// Makes all strings that statics hold at first, each once.
pub(crate) fn make_all(
    alloc: Global,
    constants: &mut Constants<'_>,
    heap: &mut Heap,
    cells: u32,
    rows: &[StaticRow],
) -> Result<bool, AllocError>
    requires built { AreBuilt heap.old.objects }
    requires none { HasMade constants.old.program cells [] constants.old heap.old }
    ensures made { IfOk result
        (λ went. MatchBool went (HasMade constants.old.program cells (texts_of constants.old.program rows.now) constants.new heap.new)
        (cells < texts_charge (texts_of constants.old.program rows.now))) }
    ensures built { OnOk result (AreBuilt heap.new.objects) }
    ensures celled { OnOk result (StayCelled heap.old.objects heap.new.objects) }
{
    for row in rows {
        if !make_for(alloc, constants, heap, *row)? {
            return Ok(false);
        }
    }
    Ok(true)
}
