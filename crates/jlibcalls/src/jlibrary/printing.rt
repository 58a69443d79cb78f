ghost use Rattle.std.specs.Option.{option_to_list};
ghost use Rattle.std.specs.Prelude.{◌≡◌, ◌≤◌, ℕ, IfOk, length, take};
ghost use Rattle.jsemantics.specs.jmachine.Store.{Store};
ghost use Rattle.jsemantics.specs.jmachine.TextCalls.{print as print_row, print_end as end_row};
ghost use Rattle.jruntime.specs.declared.jstate.shapes.Shapes.{Shapes};
ghost use Rattle.jrows.specs.jtexts.TextCallOutcomes.{Comes, leaves};
ghost use Rattle.jlibcalls.specs.jlibrary.LibraryOutcomes.{Does, came_by};

use crate::jlibrary::came::Came;
use crate::jlibrary::taken::{one, two};
use jground::jtext::Units;
use jlib::PrintedType;
use jmemory::jheap::Heap;
use joutput::jtrace::Event;
use jrows::jtexts::{Ran, print, print_end};
use jruntime::jstate::Frames;
use std::alloc::{AllocError, Global};

/// What printed this text, if there was one.
#[inline]
fn printed(thread: u32, text: Option<Units>) -> Came
    ensures { result ≡ came_by thread text }
{
    match text {
        None => Came {
            ran: Ran::Stuck,
            told: None,
        },
        Some(text) => Came {
            ran: Ran::Went,
            told: Some(Event::Out { thread, text }),
        },
    }
}

/// PrintStream's `println` of a value.
pub(crate) fn print_value<M: Copy>(
    alloc: Global,
    frames: &Frames<M>,
    heap: &Heap,
    thread: u32,
    piece: PrintedType,
    count: usize,
) -> Result<Came, AllocError>
    requires { count ≤ length frames.now.newest.operands }
    ensures { IfOk result (λ came. (shapes : Shapes) → Does {E = M} shapes (λ s. print_row s thread piece (take count frames.now.newest.operands))
        heap.now came.ran (option_to_list came.told) heap.now) }
{
    match two(frames, count) {
        None => Ok(printed(thread, None)),
        Some((value, stream)) => {
            let _ = stream;
            let text = print::<M>(alloc, heap, piece, value)?;
            Ok(printed(thread, text))
        }
    }
}

/// PrintStream's `println` of nothing.
#[inline]
pub(crate) fn print_nothing<M: Copy>(
    alloc: Global,
    frames: &Frames<M>,
    thread: u32,
    count: usize,
) -> Came
    requires { count ≤ length frames.now.newest.operands }
    ensures { (s : Store ℕ) → Comes {E = M} s (end_row s thread (take count frames.now.newest.operands))
        (leaves result.ran (option_to_list result.told) s) }
{
    match one(frames, count) {
        None => printed(thread, None),
        Some(stream) => {
            let _ = stream;
            printed(thread, Some(print_end::<M>(alloc)))
        }
    }
}
