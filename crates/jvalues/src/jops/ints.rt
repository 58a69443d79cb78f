ghost use Rattle.std.specs.Prelude.{◌≡◌, ◌^◌, ◌<◌, pos, ◌+ℤ◌, ◌-ℤ◌, ◌*ℤ◌, neg_ℤ, int_div, ◌≢◌};
ghost use Rattle.std.specs.Int.{int_wrap, w8, w16, w32};

#[inline]
pub(crate) fn sum(x: i32, y: i32) -> i32
    ensures { result ≡ int_wrap w32 (x +ℤ y) }
{
    x.wrapping_add(y)
}

#[inline]
pub(crate) fn difference(x: i32, y: i32) -> i32
    ensures { result ≡ int_wrap w32 (x -ℤ y) }
{
    x.wrapping_sub(y)
}

#[inline]
pub(crate) fn product(x: i32, y: i32) -> i32
    ensures { result ≡ int_wrap w32 (x *ℤ y) }
{
    x.wrapping_mul(y)
}

#[inline]
pub(crate) fn negative(x: i32) -> i32
    ensures { result ≡ int_wrap w32 (neg_ℤ x) }
{
    x.wrapping_neg()
}

/// The quotient, rounded toward zero.
#[inline]
pub(crate) fn quotient(x: i32, y: i32) -> i32
    requires { y ≢ pos 0 }
    ensures { result ≡ int_wrap w32 (int_div x y) }
{
    x.wrapping_div(y)
}

/// `x` times a power of two.
#[inline]
pub(crate) fn shifted_left(x: i32, by: u32) -> i32
    requires { by < 32 }
    ensures { result ≡ int_wrap w32 (x *ℤ pos (2 ^ by)) }
{
    x << by
}

/// The low 8 bits, as a number with a sign.
#[inline]
pub(crate) fn low_8(x: i32) -> i32
    ensures { result ≡ int_wrap w8 x }
{
    (x.rem_euclid(0x100) as u8).cast_signed() as i32
}

/// The low 16 bits, as a number with a sign.
#[inline]
pub(crate) fn low_16(x: i32) -> i32
    ensures { result ≡ int_wrap w16 x }
{
    (x.rem_euclid(0x1_0000) as u16).cast_signed() as i32
}
