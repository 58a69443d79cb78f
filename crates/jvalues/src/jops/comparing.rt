ghost use Rattle.std.specs.Prelude.{◌≡◌, Some, IsSome};
ghost use Rattle.jvalues.specs.jops.Operations;
ghost use Rattle.jvalues.specs.jops.Operations.{same};

use crate::jnames::Compare;
use crate::jops::operands::int_of;
use crate::jops::value::Value;

#[inline]
fn same(a: Value, b: Value) -> bool
    requires { IsSome (same a b) }
    ensures { Some result ≡ same a b }
{
    match (a, b) {
        (Value::Int(x), Value::Int(y)) => x == y,
        (Value::Ref(x), Value::Ref(y)) => x == y,
        _ => unreachable!(),
    }
}

/// Whether a branch is taken that compares two ints, or two references for `Eq` and `Ne` (JVMS 6.5); `b` is the newer operand.
/// A branch that tests against zero or null is given `Int(0)` or `Ref(0)` as `b`. Both are ints, or both references where that is
/// allowed.
#[inline]
pub fn test(c: Compare, a: Value, b: Value) -> bool
    requires { IsSome (Operations.test c a b) }
    ensures { Some result ≡ Operations.test c a b }
{
    match c {
        Compare::Eq => same(a, b),
        Compare::Ne => !same(a, b),
        Compare::Lt => int_of(a) < int_of(b),
        Compare::Ge => int_of(a) >= int_of(b),
        Compare::Gt => int_of(a) > int_of(b),
        Compare::Le => int_of(a) <= int_of(b),
    }
}
