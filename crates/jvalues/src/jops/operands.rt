ghost use Rattle.std.specs.Prelude.{◌≡◌};
ghost use Rattle.jvalues.specs.jops.Operations.{IsInt, IsLong};

use crate::jops::value::Value;

/// The number that an int is.
#[inline]
pub(crate) fn int_of(value: Value) -> i32
    requires { IsInt value }
    ensures { value ≡ Value.Int result }
{
    match value {
        Value::Int(x) => x,
        _ => unreachable!(),
    }
}

/// The number that a long is.
#[inline]
pub(crate) fn long_of(value: Value) -> i64
    requires { IsLong value }
    ensures { value ≡ Value.Long result }
{
    match value {
        Value::Long(x) => x,
        _ => unreachable!(),
    }
}
