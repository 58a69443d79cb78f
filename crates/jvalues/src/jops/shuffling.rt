ghost use Rattle.std.specs.Prelude.{◌≡◌, ◌≤◌, [], ◌∷◌, Some, IsSome};
ghost use Rattle.jvalues.specs.declared.jnames.names.Shuffle.TheVariants.{Pop2, DupX2, Dup2, Dup2X1, Dup2X2};
ghost use Rattle.jvalues.specs.jops.Shuffles;
ghost use Rattle.jvalues.specs.jops.Shuffles.{item, items, moved, moves};

use crate::jnames::Shuffle;
use crate::jops::value::Value;

/// What becomes of the newest items of a stack: the newest `taken` go, and the first `put` of `values` come, the last of them
/// newest.
#[derive(Clone, Copy, Debug, PartialEq, Eq)]
pub struct Shuffled {
    pub taken: u32,
    pub put: u32,
    pub values: [Value; 6],
}

/// What stands in `values` behind those that come.
const FREE: Value = Value::Int(0);

#[inline]
fn is_long(value: Value) -> bool
    ensures { result ≡ Shuffles.is_long value }
{
    match value {
        Value::Long(_) => true,
        _ => false,
    }
}

#[inline]
fn put_none(taken: u32) -> Shuffled
    ensures { moved result ≡ moves taken [] }
{
    let values = [FREE, FREE, FREE, FREE, FREE, FREE];
    Shuffled {
        taken,
        put: 0,
        values,
    }
}

#[inline]
fn put_2(taken: u32, a: Value, b: Value) -> Shuffled
    ensures { moved result ≡ moves taken (b ∷ a ∷ []) }
{
    let values = [a, b, FREE, FREE, FREE, FREE];
    Shuffled {
        taken,
        put: 2,
        values,
    }
}

#[inline]
fn put_3(taken: u32, a: Value, b: Value, c: Value) -> Shuffled
    ensures { moved result ≡ moves taken (c ∷ b ∷ a ∷ []) }
{
    let values = [a, b, c, FREE, FREE, FREE];
    Shuffled {
        taken,
        put: 3,
        values,
    }
}

#[inline]
fn put_4(taken: u32, a: Value, b: Value, c: Value, d: Value) -> Shuffled
    ensures { moved result ≡ moves taken (d ∷ c ∷ b ∷ a ∷ []) }
{
    let values = [a, b, c, d, FREE, FREE];
    Shuffled {
        taken,
        put: 4,
        values,
    }
}

#[inline]
fn put_5(taken: u32, a: Value, b: Value, c: Value, d: Value, e: Value) -> Shuffled
    ensures { moved result ≡ moves taken (e ∷ d ∷ c ∷ b ∷ a ∷ []) }
{
    let values = [a, b, c, d, e, FREE];
    Shuffled {
        taken,
        put: 5,
        values,
    }
}

#[inline]
fn put_6(taken: u32, a: Value, b: Value, c: Value, d: Value, e: Value, f: Value) -> Shuffled
    ensures moved { moved result ≡ moves taken (f ∷ e ∷ d ∷ c ∷ b ∷ a ∷ []) }
    ensures put { result.put ≡ 6 }
{
    let values = [a, b, c, d, e, f];
    Shuffled {
        taken,
        put: 6,
        values,
    }
}

#[inline]
#[tactic(auto, unfolding(crate::specs::jops::Shuffles::shuffle))]
fn pop2(a: Value, b: Value, c: Value, d: Value) -> Shuffled
    requires { IsSome (Shuffles.shuffle Pop2 (item a ∷ item b ∷ item c ∷ item d ∷ [])) }
    ensures { Some (moved result) ≡ Shuffles.shuffle Pop2 (item a ∷ item b ∷ item c ∷ item d ∷ []) }
{
    if is_long(a) {
        return put_none(1);
    }
    put_none(2)
}

#[inline]
#[tactic(auto, unfolding(crate::specs::jops::Shuffles::shuffle))]
fn dup_x2(a: Value, b: Value, c: Value, d: Value) -> Shuffled
    requires { IsSome (Shuffles.shuffle DupX2 (item a ∷ item b ∷ item c ∷ item d ∷ [])) }
    ensures { Some (moved result) ≡ Shuffles.shuffle DupX2 (item a ∷ item b ∷ item c ∷ item d ∷ []) }
{
    if is_long(b) {
        return put_3(2, a, b, a);
    }
    put_4(3, a, c, b, a)
}

#[inline]
#[tactic(auto, unfolding(crate::specs::jops::Shuffles::shuffle))]
fn dup2(a: Value, b: Value, c: Value, d: Value) -> Shuffled
    requires { IsSome (Shuffles.shuffle Dup2 (item a ∷ item b ∷ item c ∷ item d ∷ [])) }
    ensures { Some (moved result) ≡ Shuffles.shuffle Dup2 (item a ∷ item b ∷ item c ∷ item d ∷ []) }
{
    if is_long(a) {
        return put_2(1, a, a);
    }
    put_4(2, b, a, b, a)
}

#[inline]
#[tactic(auto, unfolding(crate::specs::jops::Shuffles::shuffle))]
fn dup2_x1(a: Value, b: Value, c: Value, d: Value) -> Shuffled
    requires { IsSome (Shuffles.shuffle Dup2X1 (item a ∷ item b ∷ item c ∷ item d ∷ [])) }
    ensures { Some (moved result) ≡ Shuffles.shuffle Dup2X1 (item a ∷ item b ∷ item c ∷ item d ∷ []) }
{
    if is_long(a) {
        return put_3(2, a, b, a);
    }
    put_5(3, b, a, c, b, a)
}

#[inline]
#[tactic(auto, unfolding(crate::specs::jops::Shuffles::shuffle))]
fn dup2_x2(a: Value, b: Value, c: Value, d: Value) -> Shuffled
    requires { IsSome (Shuffles.shuffle Dup2X2 (item a ∷ item b ∷ item c ∷ item d ∷ [])) }
    ensures moved { Some (moved result) ≡ Shuffles.shuffle Dup2X2 (item a ∷ item b ∷ item c ∷ item d ∷ []) }
    ensures put { result.put ≤ 6 }
{
    if is_long(a) {
        if is_long(b) {
            return put_3(2, a, b, a);
        }
        return put_4(3, a, c, b, a);
    }
    if is_long(c) {
        return put_5(3, b, a, c, b, a);
    }
    put_6(4, b, a, d, c, b, a)
}

/// What an instruction that moves the newest items of the stack does (JVMS 6.5). `top` holds the four newest items, the newest
/// last, with `Int(0)` in the older places that aren't there. An item is one place of `top` also where it is a long, which the
/// instructions count as two slots: `Pop2` takes one long or two other items, and so on. One of the instruction's forms fits the
/// items.
#[inline]
#[tactic(auto, unfolding(crate::specs::jops::Shuffles::shuffle))]
pub fn shuffle(s: Shuffle, top: [Value; 4]) -> Shuffled
    requires { IsSome (Shuffles.shuffle s (items top)) }
    ensures moved { Some (moved result) ≡ Shuffles.shuffle s (items top) }
    ensures taken { result.taken ≤ 4 }
    ensures put { result.put ≤ 6 }
{
    let [d, c, b, a] = top;
    match s {
        Shuffle::Pop => put_none(1),
        Shuffle::Pop2 => pop2(a, b, c, d),
        Shuffle::Dup => put_2(1, a, a),
        Shuffle::DupX1 => put_3(2, a, b, a),
        Shuffle::DupX2 => dup_x2(a, b, c, d),
        Shuffle::Dup2 => dup2(a, b, c, d),
        Shuffle::Dup2X1 => dup2_x1(a, b, c, d),
        Shuffle::Dup2X2 => dup2_x2(a, b, c, d),
        Shuffle::Swap => put_2(2, a, b),
    }
}
