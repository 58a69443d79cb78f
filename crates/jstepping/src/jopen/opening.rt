ghost use Rattle.std.specs.Prelude.{◌≡◌, ◌<◌, ◌^◌, IfOk, is_some, true};
ghost use Rattle.jresolution.specs.juses.IndexedInstructions;
ghost use Rattle.jsemantics.specs.jmachine.OpeningState.{arguments_number};
ghost use Rattle.jserving.specs.jcells.ArrayTypeNumbers.{IsStrings};
ghost use Rattle.jserving.specs.jcells.CellLayout.{AreTied};
ghost use Rattle.jstepping.specs.jopen.InitialMachines.{BeginsMain, IsAlone, OpensOr};

use crate::jopen::heap::begin;
use jlibcalls::jconstants::Constants;
use jlinking::jlink::LinkedProgram;
use jmemory::jheap::Heap;
use jready::Ready;
use jresolution::jprogram::MethodId;
use jresolution::juses::code_at;
use jruntime::jstate::Frames;
use jserving::jcells::Shaped;
use jvalues::jops::Value;
use std::alloc::{AllocError, Global};

/// The state in which a run begins.
#[derive(Drop)]
pub struct Opened<'p, M> {
    pub heap: Heap,
    /// The frames of the thread that begins.
    pub frames: Frames<M>,
    /// The string constants that were made.
    pub constants: Constants<'p>,
}

/// How a thread begins.
#[derive(Clone, Copy)]
pub struct FirstFrame<M> {
    /// The method of its first frame.
    pub main: MethodId,
    /// What this frame carries.
    pub mark: M,
    /// The context that it is given, where the program takes contexts.
    pub context: Option<u64>,
}

/// The frames of a thread that begins, given an array.
fn first_frames<M: Copy>(
    alloc: Global,
    p: &LinkedProgram,
    first: FirstFrame<M>,
    array: u32,
) -> Result<Frames<M>, AllocError>
    requires coded { is_some (IndexedInstructions.code_at p.now first.main) ≡ true }
    requires array { array ≡ arguments_number p.now }
    ensures begins { IfOk result (BeginsMain p.now first) }
    ensures alone { IfOk result (IsAlone first) }
{
    let Some(body) = code_at(p.named(), first.main) else {
        unreachable!();
    };
    let FirstFrame {
        main,
        mark,
        context,
    } = first;
    let most = u32::from(body.max_locals);
    let stack = u32::from(body.max_stack);
    let array = Value::Ref(array);
    match context {
        None => Frames::open(alloc, main, most, stack, &[array], mark),
        Some(k) => Frames::open(alloc, main, most, stack, &[array, Value::Ctx(k)], mark),
    }
}

/// The state in which a run begins with a method, by a heap of so many cells, fewer than 2 ^ 31: `System.out`, the strings of
/// ConstantValues, the empty array of arguments, the statics (JVMS 4.7.2, 5.5), and the frame of the method (JVMS 5.2).
///
/// None exactly where the heap has not the cells for what is made.
pub fn open<'p, M: Copy>(
    alloc: Global,
    ready: &Ready<'p>,
    shaped: &Shaped,
    first: FirstFrame<M>,
    cells: u32,
) -> Result<Option<Opened<'p, M>>, AllocError>
    requires tied { AreTied ready.now.program ready.now.methods.tables shaped.now.shapes }
    requires strings { IsStrings shaped.now.shapes shaped.now.strings }
    requires most { cells < 2 ^ 31 }
    requires coded { is_some (IndexedInstructions.code_at ready.now.program first.main) ≡ true }
    ensures { IfOk result (λ o. OpensOr ready.now.program shaped.now.shapes first cells o) }
{
    let Some(begun) = begin(alloc, ready, shaped, cells)? else {
        return Ok(None);
    };
    let frames = first_frames(alloc, ready.program(), first, begun.array)?;
    Ok(Some(Opened {
        heap: begun.heap,
        frames,
        constants: begun.constants,
    }))
}
