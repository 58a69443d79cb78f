ghost use Rattle.std.specs.Prelude.{◌≡◌, ◌<◌, ◌^◌, [], IfOk};
ghost use Rattle.jserving.specs.jcells.ArrayTypeNumbers.{IsStrings};
ghost use Rattle.jserving.specs.jcells.CellLayout.{AreTied};
ghost use Rattle.jstepping.specs.jopen.InitialHeaps.{BeginsOr, HasOut, HasStrings};

use crate::jopen::statics::put_statics;
use crate::jopen::texts::make_all;
use jlib::LibClass;
use jlibcalls::jconstants::Constants;
use jlinking::jlink::{LinkedProgram, are_files};
use jmemory::jheap::{Heap, Kind};
use jready::{Ready, StaticRow};
use jruntime::jstate::{built_laws, celled_laws, heap_laws, library_number};
use jserving::jcells::Shaped;
use std::alloc::{AllocError, Global};

/// The heap in which a run begins.
#[derive(Drop)]
pub(crate) struct Begun<'p> {
    pub heap: Heap,
    /// The string constants that were made.
    pub constants: Constants<'p>,
    /// The array that `main` is given.
    pub array: u32,
}

/// A heap, and the string constants that were made in it.
#[derive(Drop)]
struct Strings<'p> {
    heap: Heap,
    constants: Constants<'p>,
}

/// A heap of so many cells with `System.out`. None where it has not the cell for it.
fn with_out(
    alloc: Global,
    constants: &Constants<'_>,
    cells: u32,
) -> Result<Option<Heap>, AllocError>
    requires none { constants.now.constants ≡ [] }
    requires most { cells < 2 ^ 31 }
    ensures { IfOk result (λ h. HasOut constants.now.program cells constants.now h) }
{
    heap_laws();
    built_laws();
    celled_laws();
    let mut heap = Heap::open(alloc, cells)?;
    let out = Kind::Object(library_number(LibClass::PrintStream));
    match heap.make(out, 0) {
        None => Ok(None),
        Some(_) => Ok(Some(heap)),
    }
}

/// The same with the strings that statics hold at first.
fn with_strings<'p>(
    alloc: Global,
    p: &'p LinkedProgram,
    cells: u32,
    rows: &[StaticRow],
) -> Result<Option<Strings<'p>>, AllocError>
    requires { cells < 2 ^ 31 }
    ensures { IfOk result (λ s. HasStrings p.now cells rows.now s) }
{
    let mut constants = Constants::of(alloc, p)?;
    let Some(mut heap) = with_out(alloc, &constants, cells)? else {
        return Ok(None);
    };
    if !make_all(alloc, &mut constants, &mut heap, cells, rows)? {
        return Ok(None);
    }
    Ok(Some(Strings { heap, constants }))
}

/// The heap in which a run begins. None where it has not the cells for what is made.
pub(crate) fn begin<'p>(
    alloc: Global,
    ready: &Ready<'p>,
    shaped: &Shaped,
    cells: u32,
) -> Result<Option<Begun<'p>>, AllocError>
    requires tied { AreTied ready.now.program ready.now.methods.tables shaped.now.shapes }
    requires strings { IsStrings shaped.now.shapes shaped.now.strings }
    requires most { cells < 2 ^ 31 }
    ensures { IfOk result (λ b. BeginsOr ready.now.program shaped.now.shapes cells b) }
{
    heap_laws();
    built_laws();
    celled_laws();
    let p = ready.program();
    are_files(p);
    let rows = ready.statics();
    let Some(strings) = with_strings(alloc, p, cells, rows)? else {
        return Ok(None);
    };
    let mut heap = strings.heap;
    let Some(array) = heap.make(Kind::Array(shaped.strings), 0) else {
        return Ok(None);
    };
    put_statics(alloc, &strings.constants, rows, &mut heap)?;
    Ok(Some(Begun {
        heap,
        constants: strings.constants,
        array,
    }))
}
