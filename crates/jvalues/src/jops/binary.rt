ghost use Rattle.std.specs.Prelude.{◌≡◌, ◌<◌, Some, IsSome, negsuc, pos};
ghost use Rattle.jvalues.specs.jops.Operations;
ghost use Rattle.jvalues.specs.jops.Operations.{low_5, low_6, order};

use crate::jnames::OpTwo;
use crate::jops::operands::{int_of, long_of};
use crate::jops::value::Value;
use crate::jops::{ints, longs};

/// How far an int is shifted.
#[inline]
fn by_int(y: i32) -> u32
    ensures value { result ≡ low_5 y }
    ensures bound { result < 32 }
{
    y.cast_unsigned() % 32
}

/// How far a long is shifted.
#[inline]
fn by_long(y: i32) -> u32
    ensures value { result ≡ low_6 y }
    ensures bound { result < 64 }
{
    y.cast_unsigned() % 64
}

#[inline]
fn order(x: i64, y: i64) -> i32
    ensures { result ≡ order x y }
{
    if x < y {
        -1
    } else if y < x {
        1
    } else {
        0
    }
}

/// What an instruction with two operands gives (JVMS 6.5), but for divisions; `b` is the newer operand. Sums, differences and
/// products wrap, and a shift is by the low 5 (of an int) or 6 bits (of a long) of `b`. The operands are of the kinds that the
/// instruction takes.
#[inline]
#[tactic(auto, unfolding(crate::specs::jops::Operations::two))]
pub fn two(op: OpTwo, a: Value, b: Value) -> Value
    requires { IsSome (Operations.two op a b) }
    ensures { Some result ≡ Operations.two op a b }
{
    match op {
        OpTwo::Iadd => Value::Int(ints::sum(int_of(a), int_of(b))),
        OpTwo::Ladd => Value::Long(longs::sum(long_of(a), long_of(b))),
        OpTwo::Isub => Value::Int(ints::difference(int_of(a), int_of(b))),
        OpTwo::Lsub => Value::Long(longs::difference(long_of(a), long_of(b))),
        OpTwo::Imul => Value::Int(ints::product(int_of(a), int_of(b))),
        OpTwo::Lmul => Value::Long(longs::product(long_of(a), long_of(b))),
        OpTwo::Ishl => Value::Int(ints::shifted_left(int_of(a), by_int(int_of(b)))),
        OpTwo::Lshl => Value::Long(longs::shifted_left(long_of(a), by_long(int_of(b)))),
        OpTwo::Ishr => Value::Int(int_of(a) >> by_int(int_of(b))),
        OpTwo::Lshr => Value::Long(long_of(a) >> by_long(int_of(b))),
        OpTwo::Iushr => {
            let bits = int_of(a).cast_unsigned() >> by_int(int_of(b));
            Value::Int(bits.cast_signed())
        }
        OpTwo::Lushr => {
            let bits = long_of(a).cast_unsigned() >> by_long(int_of(b));
            Value::Long(bits.cast_signed())
        }
        OpTwo::Iand => Value::Int(int_of(a) & int_of(b)),
        OpTwo::Land => Value::Long(long_of(a) & long_of(b)),
        OpTwo::Ior => Value::Int(int_of(a) | int_of(b)),
        OpTwo::Lor => Value::Long(long_of(a) | long_of(b)),
        OpTwo::Ixor => Value::Int(int_of(a) ^ int_of(b)),
        OpTwo::Lxor => Value::Long(long_of(a) ^ long_of(b)),
        OpTwo::Lcmp => Value::Int(order(long_of(a), long_of(b))),
    }
}
