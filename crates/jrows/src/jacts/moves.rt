ghost use Rattle.std.specs.Prelude.{◌≡◌, ◌<◌, ◌∷◌, List, IfSome, option_map, ℕ};
ghost use Rattle.jvalues.specs.declared.jops.value.Value.{Value as Operand};
ghost use Rattle.jvalues.specs.declared.jnames.names.Shuffle.TheVariants.{Pop, Pop2, Dup, DupX1, DupX2, Dup2, Dup2X1, Dup2X2, Swap};
ghost use Rattle.jvalues.specs.jops.Shuffles;
ghost use Rattle.jvalues.specs.jops.Shuffles.{Item};
ghost use Rattle.jrows.specs.jacts.StackMoves.{four, laid, on};

use jvalues::jnames::Shuffle;
use jvalues::jops::Value;

/// One of the newest items of a stack, where it is there: one that is no long, or a long (JVMS 2.11.1).
#[derive(Clone, Copy)]
pub(crate) enum Top {
    None,
    One(Value),
    Two(Value),
}

/// How many of the newest operands go, and what comes in their place, the newest first.
#[derive(Clone, Copy)]
pub(crate) enum Laid {
    Gone(usize),
    Two(usize, Value, Value),
    Three(usize, Value, Value, Value),
    Four(usize, Value, Value, Value, Value),
    Five(usize, Value, Value, Value, Value, Value),
    Six(usize, Value, Value, Value, Value, Value, Value),
}

#[inline]
#[tactic(auto, unfolding(jvalues::specs::jops::Shuffles::shuffle))]
fn pop(a: Top) -> Option<Laid>
    ensures moves { (below : List (Item (Operand ℕ))) → option_map laid result ≡ Shuffles.shuffle Pop (on a below) }
    ensures some { IfSome result (λ l. 0 < (laid l).taken) }
{
    match a {
        Top::One(_) => Some(Laid::Gone(1)),
        Top::Two(_) => None,
        Top::None => None,
    }
}

#[inline]
#[tactic(auto, unfolding(jvalues::specs::jops::Shuffles::shuffle))]
fn pop2(a: Top, b: Top) -> Option<Laid>
    ensures moves { (below : List (Item (Operand ℕ))) → option_map laid result ≡ Shuffles.shuffle Pop2 (on a (on b below)) }
    ensures some { IfSome result (λ l. 0 < (laid l).taken) }
{
    match a {
        Top::One(_) => match b {
            Top::One(_) => Some(Laid::Gone(2)),
            Top::Two(_) => None,
            Top::None => None,
        },
        Top::Two(_) => Some(Laid::Gone(1)),
        Top::None => None,
    }
}

#[inline]
#[tactic(auto, unfolding(jvalues::specs::jops::Shuffles::shuffle))]
fn dup(a: Top) -> Option<Laid>
    ensures moves { (below : List (Item (Operand ℕ))) → option_map laid result ≡ Shuffles.shuffle Dup (on a below) }
    ensures some { IfSome result (λ l. 0 < (laid l).taken) }
{
    match a {
        Top::One(x) => Some(Laid::Two(1, x, x)),
        Top::Two(_) => None,
        Top::None => None,
    }
}

#[inline]
#[tactic(auto, unfolding(jvalues::specs::jops::Shuffles::shuffle))]
fn dup_x1(a: Top, b: Top) -> Option<Laid>
    ensures moves { (below : List (Item (Operand ℕ))) → option_map laid result ≡ Shuffles.shuffle DupX1 (on a (on b below)) }
    ensures some { IfSome result (λ l. 0 < (laid l).taken) }
{
    match a {
        Top::One(x) => match b {
            Top::One(y) => Some(Laid::Three(2, x, y, x)),
            Top::Two(_) => None,
            Top::None => None,
        },
        Top::Two(_) => None,
        Top::None => None,
    }
}

#[inline]
#[tactic(auto, unfolding(jvalues::specs::jops::Shuffles::shuffle))]
fn dup_x2(a: Top, b: Top, c: Top) -> Option<Laid>
    ensures moves { (below : List (Item (Operand ℕ))) → option_map laid result ≡ Shuffles.shuffle DupX2 (on a (on b (on c below))) }
    ensures some { IfSome result (λ l. 0 < (laid l).taken) }
{
    match a {
        Top::One(x) => match b {
            Top::One(y) => match c {
                Top::One(z) => Some(Laid::Four(3, x, y, z, x)),
                Top::Two(_) => None,
                Top::None => None,
            },
            Top::Two(y) => Some(Laid::Three(2, x, y, x)),
            Top::None => None,
        },
        Top::Two(_) => None,
        Top::None => None,
    }
}

#[inline]
#[tactic(auto, unfolding(jvalues::specs::jops::Shuffles::shuffle))]
fn dup2(a: Top, b: Top) -> Option<Laid>
    ensures moves { (below : List (Item (Operand ℕ))) → option_map laid result ≡ Shuffles.shuffle Dup2 (on a (on b below)) }
    ensures some { IfSome result (λ l. 0 < (laid l).taken) }
{
    match a {
        Top::One(x) => match b {
            Top::One(y) => Some(Laid::Four(2, x, y, x, y)),
            Top::Two(_) => None,
            Top::None => None,
        },
        Top::Two(x) => Some(Laid::Two(1, x, x)),
        Top::None => None,
    }
}

#[inline]
#[tactic(auto, unfolding(jvalues::specs::jops::Shuffles::shuffle))]
fn dup2_x1(a: Top, b: Top, c: Top) -> Option<Laid>
    ensures moves { (below : List (Item (Operand ℕ))) → option_map laid result ≡ Shuffles.shuffle Dup2X1 (on a (on b (on c below))) }
    ensures some { IfSome result (λ l. 0 < (laid l).taken) }
{
    match a {
        Top::One(x) => match b {
            Top::One(y) => match c {
                Top::One(z) => Some(Laid::Five(3, x, y, z, x, y)),
                Top::Two(_) => None,
                Top::None => None,
            },
            Top::Two(_) => None,
            Top::None => None,
        },
        Top::Two(x) => match b {
            Top::One(y) => Some(Laid::Three(2, x, y, x)),
            Top::Two(_) => None,
            Top::None => None,
        },
        Top::None => None,
    }
}

/// The forms of dup2_x2 whose newest item is a long.
#[inline]
#[tactic(auto, unfolding(jvalues::specs::jops::Shuffles::shuffle))]
fn dup_long_x2(x: Value, b: Top, c: Top) -> Option<Laid>
    ensures moves { (below : List (Item (Operand ℕ))) → option_map laid result ≡ Shuffles.shuffle Dup2X2 (Shuffles.Two x ∷ on b (on c below)) }
    ensures some { IfSome result (λ l. 0 < (laid l).taken) }
{
    match b {
        Top::One(y) => match c {
            Top::One(z) => Some(Laid::Four(3, x, y, z, x)),
            Top::Two(_) => None,
            Top::None => None,
        },
        Top::Two(y) => Some(Laid::Three(2, x, y, x)),
        Top::None => None,
    }
}

/// The forms of dup2_x2 whose newest item is no long.
#[inline]
#[tactic(auto, unfolding(jvalues::specs::jops::Shuffles::shuffle))]
fn dup_two_x2(x: Value, b: Top, c: Top, d: Top) -> Option<Laid>
    ensures moves { (below : List (Item (Operand ℕ))) → option_map laid result ≡ Shuffles.shuffle Dup2X2 (Shuffles.One x ∷ on b (on c (on d below))) }
    ensures some { IfSome result (λ l. 0 < (laid l).taken) }
{
    match b {
        Top::One(y) => match c {
            Top::One(z) => match d {
                Top::One(v) => Some(Laid::Six(4, x, y, z, v, x, y)),
                Top::Two(_) => None,
                Top::None => None,
            },
            Top::Two(z) => Some(Laid::Five(3, x, y, z, x, y)),
            Top::None => None,
        },
        Top::Two(_) => None,
        Top::None => None,
    }
}

#[inline]
#[tactic(auto, unfolding(jvalues::specs::jops::Shuffles::shuffle))]
fn dup2_x2(a: Top, b: Top, c: Top, d: Top) -> Option<Laid>
    ensures moves { (below : List (Item (Operand ℕ))) → option_map laid result ≡ Shuffles.shuffle Dup2X2 (on a (on b (on c (on d below)))) }
    ensures some { IfSome result (λ l. 0 < (laid l).taken) }
{
    match a {
        Top::One(x) => dup_two_x2(x, b, c, d),
        Top::Two(x) => dup_long_x2(x, b, c),
        Top::None => None,
    }
}

#[inline]
#[tactic(auto, unfolding(jvalues::specs::jops::Shuffles::shuffle))]
fn swap(a: Top, b: Top) -> Option<Laid>
    ensures moves { (below : List (Item (Operand ℕ))) → option_map laid result ≡ Shuffles.shuffle Swap (on a (on b below)) }
    ensures some { IfSome result (λ l. 0 < (laid l).taken) }
{
    match a {
        Top::One(x) => match b {
            Top::One(y) => Some(Laid::Two(2, y, x)),
            Top::Two(_) => None,
            Top::None => None,
        },
        Top::Two(_) => None,
        Top::None => None,
    }
}

/// What an instruction that moves the newest items makes of them, where one of its forms fits.
#[inline]
#[tactic(auto, unfolding(jvalues::specs::jops::Shuffles::shuffle))]
pub(crate) fn moves_of(op: Shuffle, a: Top, b: Top, c: Top, d: Top) -> Option<Laid>
    ensures moves { option_map laid result ≡ Shuffles.shuffle op (four a b c d) }
    ensures some { IfSome result (λ l. 0 < (laid l).taken) }
{
    match op {
        Shuffle::Pop => pop(a),
        Shuffle::Pop2 => pop2(a, b),
        Shuffle::Dup => dup(a),
        Shuffle::DupX1 => dup_x1(a, b),
        Shuffle::DupX2 => dup_x2(a, b, c),
        Shuffle::Dup2 => dup2(a, b),
        Shuffle::Dup2X1 => dup2_x1(a, b, c),
        Shuffle::Dup2X2 => dup2_x2(a, b, c, d),
        Shuffle::Swap => swap(a, b),
    }
}
