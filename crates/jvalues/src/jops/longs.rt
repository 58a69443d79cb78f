ghost use Rattle.std.specs.Prelude.{◌≡◌, ◌^◌, ◌<◌, pos, ◌+ℤ◌, ◌-ℤ◌, ◌*ℤ◌, neg_ℤ, int_div, ◌≢◌};
ghost use Rattle.std.specs.Int.{int_wrap, w32, w64};

#[inline]
pub(crate) fn sum(x: i64, y: i64) -> i64
    ensures { result ≡ int_wrap w64 (x +ℤ y) }
{
    x.wrapping_add(y)
}

#[inline]
pub(crate) fn difference(x: i64, y: i64) -> i64
    ensures { result ≡ int_wrap w64 (x -ℤ y) }
{
    x.wrapping_sub(y)
}

#[inline]
pub(crate) fn product(x: i64, y: i64) -> i64
    ensures { result ≡ int_wrap w64 (x *ℤ y) }
{
    x.wrapping_mul(y)
}

#[inline]
pub(crate) fn negative(x: i64) -> i64
    ensures { result ≡ int_wrap w64 (neg_ℤ x) }
{
    x.wrapping_neg()
}

/// The quotient, rounded toward zero.
#[inline]
pub(crate) fn quotient(x: i64, y: i64) -> i64
    requires { y ≢ pos 0 }
    ensures { result ≡ int_wrap w64 (int_div x y) }
{
    x.wrapping_div(y)
}

/// `x` times a power of two.
#[inline]
pub(crate) fn shifted_left(x: i64, by: u32) -> i64
    requires { by < 64 }
    ensures { result ≡ int_wrap w64 (x *ℤ pos (2 ^ by)) }
{
    x << by
}

/// The low 32 bits, as an int.
#[inline]
pub(crate) fn low_32(x: i64) -> i32
    ensures { result ≡ int_wrap w32 x }
{
    (x.rem_euclid(0x1_0000_0000) as u32).cast_signed()
}
