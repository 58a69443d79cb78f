ghost use Rattle.std.specs.Prelude.{◌≡◌};
ghost use Rattle.std.specs.List.{find};
ghost use Rattle.jsemantics.specs.jmachine.Unwinding.{handler_at};
ghost use Rattle.jready.specs.HandlerTables.{handled, row_takes};
ghost use Rattle.jtypes.specs.declared.vtype.VType.TheVariants as types;
ghost use Rattle.jresolution.specs.juses.PoolTables.{pool_at};
ghost use Rattle.jresolution.specs.juses.InternedTypes.{class_named};
ghost use Rattle.jserving.specs.jinvoke.HandlerLookUps.{Told};

use crate::jinvoke::method_lookup::MethodLookup;
use jready::HandlerRow;
use jresolution::jprogram::{ClassRef, MethodId};
use jrows::jcalls::Handlers;

/// An object of a class is thrown, in a program.
#[derive(Clone, Copy)]
pub struct ThrownAs<'k, 'p> {
    pub known: &'k MethodLookup<'p>,
    pub class: ClassRef,
}

/// Whether a handler handles what is thrown at a place of the code of a part.
fn takes(
    known: &MethodLookup<'_>,
    thrown: ClassRef,
    class: u32,
    place: u32,
    row: HandlerRow,
) -> bool
    ensures { result ≡ row_takes known.now (pool_at known.now class) (types.Object (class_named known.now thrown)) place row }
{
    if place < row.start || place >= row.end {
        return false;
    }
    if row.class == 0 {
        return true;
    }
    known.is_caught(thrown, class, row.class)
}

/// The first handler that handles it.
fn first_taking(
    known: &MethodLookup<'_>,
    thrown: ClassRef,
    class: u32,
    place: u32,
    rows: &[HandlerRow],
) -> Option<HandlerRow>
    ensures { result ≡ find (row_takes known.now (pool_at known.now class) (types.Object (class_named known.now thrown)) place) rows.now }
{
    for row in rows {
        if takes(known, thrown, class, place, *row) {
            return Some(*row);
        }
    }
    None
}

/// The number at which the first of them goes on that handles it.
fn handled_at(
    known: &MethodLookup<'_>,
    thrown: ClassRef,
    class: u32,
    place: u32,
    rows: &[HandlerRow],
) -> Option<u32>
    ensures { result ≡ handled known.now (pool_at known.now class) (types.Object (class_named known.now thrown)) place rows.now }
{
    match first_taking(known, thrown, class, place, rows) {
        None => None,
        Some(row) => row.to,
    }
}

impl<'k, 'p> Handlers for ThrownAs<'k, 'p> {
    ghost goes = { λ t m i. handler_at t.known.now (types.Object (class_named t.known.now t.class)) m i };

    #[tactic(auto, using(crate::proofs::JinvokeProofs::HandlerLookup::without_code, crate::proofs::JinvokeProofs::HandlerLookup::behind_code, crate::proofs::JinvokeProofs::HandlerLookup::within_code,),)]
    fn find(&self, method: MethodId, place: u32) -> Option<u32> {
        let ready = self.known.ready();
        let Some(row) = ready.row_of(method) else {
            return None;
        };
        let rows = ready.handlers(&row);
        if place >= row.count {
            return None;
        }
        handled_at(self.known, self.class, method.class, place, rows)
    }
}

/// The law of handlers: where all frames go on is told as the machine's definition has it. It has no body to run; its contract is the law.
#[tactic(auto, using(crate::proofs::JinvokeProofs::HandlerLookup::all_told))]
pub fn told_law<M>()
    ensures { Told M }
{}
