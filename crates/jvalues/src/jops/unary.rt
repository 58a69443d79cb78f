ghost use Rattle.std.specs.Prelude.{◌≡◌, Some, IsSome};
ghost use Rattle.jvalues.specs.jops.Operations;

use crate::jnames::OpOne;
use crate::jops::operands::{int_of, long_of};
use crate::jops::value::Value;
use crate::jops::{ints, longs};

/// What an instruction with one operand gives (JVMS 6.5): the least int or long is its own negative, and what is made narrower
/// keeps its low bits. The operand is of the kind that the instruction takes.
#[inline]
#[tactic(auto, unfolding(crate::specs::jops::Operations::one))]
pub fn one(op: OpOne, a: Value) -> Value
    requires { IsSome (Operations.one op a) }
    ensures { Some result ≡ Operations.one op a }
{
    match op {
        OpOne::Ineg => Value::Int(ints::negative(int_of(a))),
        OpOne::Lneg => Value::Long(longs::negative(long_of(a))),
        OpOne::I2l => Value::Long(int_of(a) as i64),
        OpOne::L2i => Value::Int(longs::low_32(long_of(a))),
        OpOne::I2b => Value::Int(ints::low_8(int_of(a))),
        OpOne::I2c => Value::Int(int_of(a).rem_euclid(0x1_0000)),
        OpOne::I2s => Value::Int(ints::low_16(int_of(a))),
    }
}
