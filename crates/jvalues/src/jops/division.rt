ghost use Rattle.std.specs.Prelude.{◌≡◌, Some, IsSome, is_err};
ghost use Rattle.jvalues.specs.jops.Operations;
ghost use Rattle.jvalues.specs.ProofNames;
ghost use Rattle.jvalues.specs.jops.Operations.{is_zero};

use crate::jnames::Division;
use crate::jops::operands::{int_of, long_of};
use crate::jops::value::{DivideByZero, Value};
use crate::jops::{ints, longs};

#[inline]
fn int_quotient(x: i32, y: i32) -> Result<Value, DivideByZero>
    ensures { result ≡ ProofNames.int_quotient x y }
{
    if y == 0 {
        return Err(DivideByZero);
    }
    Ok(Value::Int(ints::quotient(x, y)))
}

#[inline]
fn int_remainder(x: i32, y: i32) -> Result<Value, DivideByZero>
    ensures { result ≡ ProofNames.int_remainder x y }
{
    if y == 0 {
        return Err(DivideByZero);
    }
    Ok(Value::Int(x.wrapping_rem(y)))
}

#[inline]
fn long_quotient(x: i64, y: i64) -> Result<Value, DivideByZero>
    ensures { result ≡ ProofNames.long_quotient x y }
{
    if y == 0 {
        return Err(DivideByZero);
    }
    Ok(Value::Long(longs::quotient(x, y)))
}

#[inline]
fn long_remainder(x: i64, y: i64) -> Result<Value, DivideByZero>
    ensures { result ≡ ProofNames.long_remainder x y }
{
    if y == 0 {
        return Err(DivideByZero);
    }
    Ok(Value::Long(x.wrapping_rem(y)))
}

/// What a division gives (JVMS 6.5); `b` is the divisor. A quotient is rounded toward zero, and a remainder has the sign of `a`.
/// The least int or long divided by -1 is itself, and its remainder is 0. The operands are of the kinds that the instruction
/// takes.
///
/// # Errors
///
/// DivideByZero exactly where `b` is 0.
#[inline]
#[tactic(auto, unfolding(crate::specs::jops::Operations::divide))]
pub fn divide(op: Division, a: Value, b: Value) -> Result<Value, DivideByZero>
    requires { IsSome (Operations.divide op a b) }
    ensures value { Some result ≡ Operations.divide op a b }
    ensures by_zero { is_err result ≡ is_zero b }
{
    match op {
        Division::Idiv => int_quotient(int_of(a), int_of(b)),
        Division::Irem => int_remainder(int_of(a), int_of(b)),
        Division::Ldiv => long_quotient(long_of(a), long_of(b)),
        Division::Lrem => long_remainder(long_of(a), long_of(b)),
    }
}
