ghost use Rattle.std.specs.Prelude.{◌≡◌, ℕ, IfOk, Some, nat_le, slice_get};
ghost use Rattle.jparts.specs.declared.jcode.op.Placed.{Placed as Op};
ghost use Rattle.jparts.specs.jcode.Instructions;
ghost use Rattle.jresolution.specs.juses.InternedInstructions.{AreCode};
ghost use Rattle.jresolution.specs.juses.PoolTables.{Grows};
ghost use Rattle.jready.specs.HandlerTables.{AreHandlers, IsHandler};
ghost use Rattle.jready.specs.TableGrowth.{AreThere, part};

use crate::tables::next_number;
use jground::jbase::Seq;
use jparts::jcode::{Handler, Placed, place_of};
use jresolution::juses::Span;
use std::alloc::AllocError;

/// A handler of a method (JVMS 2.10): the numbers from which and up to which its range reaches, the number at which it goes on, and the index
/// of the class that it catches, 0 for any.
#[derive(Clone, Copy, Debug)]
pub struct HandlerRow {
    pub start: u32,
    pub end: u32,
    pub to: Option<u32>,
    pub class: u16,
}

/// How many instructions stand in front of a place.
fn count_before(ops: &[Placed], at: u32) -> u32
    requires { AreCode ops.now }
    ensures { (i : ℕ) (one : Op) → slice_get ops.now i ≡ Some one → nat_le at one.at ≡ nat_le result i }
{
    match ops.binary_search_by_key(&i64::from(at), |one| i64::from(one.at)) {
        Ok(number) => number as u32,
        Err(number) => number as u32,
    }
}

fn number_of(ops: &[Placed], at: u32) -> Option<u32>
    requires { AreCode ops.now }
    ensures { result ≡ Instructions.place_of ops.now at }
{
    let number = place_of(ops, at)?;
    Some(number as u32)
}

fn row_of(ops: &[Placed], handler: &Handler) -> HandlerRow
    requires { AreCode ops.now }
    ensures { IsHandler ops.now handler.now result }
{
    HandlerRow {
        start: count_before(ops, handler.start),
        end: count_before(ops, handler.end),
        to: number_of(ops, handler.at),
        class: handler.class,
    }
}

/// Puts a method's handlers behind others, and says where they stand.
pub(crate) fn put_handlers(
    rows: &mut Seq<HandlerRow>,
    ops: &[Placed],
    handlers: &[Handler],
) -> Result<Span, AllocError>
    requires { AreCode ops.now }
    ensures there { IfOk result (λ s. AreThere rows.new s.first s.count) }
    ensures are { IfOk result (λ s. AreHandlers ops.now handlers.now (part rows.new s.first s.count)) }
    ensures behind { IfOk result (λ s. Grows rows.old rows.new) }
{
    let first = next_number(rows.as_slice().len())?;
    let count = next_number(handlers.len())?;
    for handler in handlers {
        rows.push(row_of(ops, handler))?;
    }
    Ok(Span { first, count })
}
