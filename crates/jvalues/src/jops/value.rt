ghost use Rattle.std.specs.Prelude.{◌≡◌};
ghost use Rattle.jvalues.specs.jops.ValueKinds.{is_of};

use crate::jnames::Kind;

/// A value of the machine: what a local, an item of a stack, a field or an element of an array holds. `K` stands for a security
/// context: its number in a machine, and in a definition what the number stands for.
#[derive(Clone, Copy, Debug, PartialEq, Eq)]
pub enum Value<K = u64> {
    /// An int, or a boolean, byte, char or short, which are ints as values.
    Int(i32),
    Long(i64),
    /// An object or an array, by its number; 0 is null.
    Ref(u32),
    /// A security context.
    Ctx(K),
}

/// The divisor of an integer division or remainder is 0.
#[derive(Clone, Copy, Debug, PartialEq, Eq)]
pub struct DivideByZero;

impl Value {
    /// Whether the value is of a kind, as far as it says itself: every reference may be one to an array.
    #[inline]
    pub fn is_of(self, kind: Kind) -> bool
        ensures { result ≡ is_of kind self }
    {
        match (kind, self) {
            (Kind::Int, Value::Int(_)) => true,
            (Kind::Long, Value::Long(_)) => true,
            (Kind::Null, Value::Ref(n)) => n == 0,
            (Kind::Ref | Kind::Array | Kind::Held, Value::Ref(_)) => true,
            (Kind::Held, Value::Ctx(_)) => true,
            _ => false,
        }
    }
}
