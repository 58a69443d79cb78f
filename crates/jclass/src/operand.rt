ghost use Rattle.std.specs.Prelude.{◌≡◌, false, option_map};
ghost use Rattle.jground.specs.jbase.FirstFaults.{first_some};
ghost use Rattle.jclass.specs.PoolOperands;
ghost use Rattle.jclass.specs.PoolOperands.{is_called, is_constant, is_field, is_interface_method, is_method, is_wide_constant, misnamed};
ghost use Rattle.std.specs.Option.{option_map_or};

use crate::pool_info::PoolInfo;
use jparts::jcode::{CallOp, Ldc, NewOp, Op, Placed};
use jparts::jpool::Entry;

fn is_constant(one: Option<&Entry>) -> bool
    ensures { result ≡ option_map_or is_constant (option_map (λ e. e.now) one.entry) false }
{
    matches!(
        one,
        Some(
            Entry::Integer(_)
                | Entry::Float(_)
                | Entry::Class(_)
                | Entry::Str(_)
                | Entry::MethodHandle(..)
                | Entry::MethodType(_)
        )
    )
}

fn is_wide_constant(one: Option<&Entry>) -> bool
    ensures { result ≡ option_map_or is_wide_constant (option_map (λ e. e.now) one.entry) false }
{
    matches!(one, Some(Entry::Long(_) | Entry::Double(_)))
}

fn is_field(one: Option<&Entry>) -> bool
    ensures { result ≡ option_map_or is_field (option_map (λ e. e.now) one.entry) false }
{
    matches!(one, Some(Entry::Field(..)))
}

fn is_method(one: Option<&Entry>) -> bool
    ensures { result ≡ is_method (option_map (λ e. e.now) one.entry) }
{
    matches!(one, Some(Entry::Method(..)))
}

fn is_interface_method(one: Option<&Entry>) -> bool
    ensures { result ≡ is_interface_method (option_map (λ e. e.now) one.entry) }
{
    matches!(one, Some(Entry::InterfaceMethod(..)))
}

fn is_called(op: CallOp, one: Option<&Entry>) -> bool
    ensures { result ≡ is_called op (option_map (λ e. e.now) one.entry) }
{
    match op {
        CallOp::Virtual => is_method(one),
        CallOp::Special => is_method(one) || is_interface_method(one),
        CallOp::Static => is_method(one) || is_interface_method(one),
    }
}

/// Whether an instruction names an entry of the kind that it must name (JVMS 6.5).
#[tactic(auto, unfolding(crate::specs::PoolOperands::names_well))]
fn names_well(known: &PoolInfo<'_>, op: &Op) -> bool
    ensures { result ≡ PoolOperands.names_well known.now op.now }
{
    match op {
        Op::Ldc(Ldc::Narrow(n)) => is_constant(known.entry(u16::from(*n))),
        Op::Ldc(Ldc::Wide(n)) => is_constant(known.entry(*n)),
        Op::Ldc2(n) => is_wide_constant(known.entry(*n)),
        Op::Field(_, n) => is_field(known.entry(*n)),
        Op::Call(op, n) => is_called(*op, known.entry(*n)),
        Op::CallInterface(n, _) => is_interface_method(known.entry(*n)),
        Op::New(NewOp::Object(n)) => known.is_class(*n),
        Op::New(NewOp::RefArray(n)) => known.is_class(*n),
        Op::Cast(_, n) => known.is_class(*n),
        _ => true,
    }
}

/// The place of the first instruction that names an entry of another kind than it must.
#[tactic(auto, unfolding(jground::specs::jbase::FirstFaults::first_some))]
pub fn first_misnamed(known: &PoolInfo<'_>, ops: &[Placed]) -> Option<u32>
    ensures { result ≡ first_some (misnamed known.now) ops.now }
{
    for one in ops {
        if !names_well(known, &one.op) {
            return Some(one.at);
        }
    }
    None
}
