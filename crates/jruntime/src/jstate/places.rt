ghost use Rattle.std.specs.Prelude.{◌≡◌};
ghost use Rattle.jvalues.specs.jops.Shuffles;
ghost use Rattle.jsemantics.specs.jmachine.BasicInstructions.{places};

use jstacks::Spread;
use jvalues::jops::Value;

/// How values lie in locals: a long takes two, and the second holds nothing (JVMS 2.6.1).
pub(crate) struct Places;

#[inline]
pub(crate) fn is_long(value: Value) -> bool
    ensures { result ≡ Shuffles.is_long value }
{
    matches!(value, Value::Long(_))
}

impl Spread<Value, Option<Value>> for Places {
    ghost spread = { places };

    #[inline]
    fn parts(value: Value) -> (Option<Value>, Option<Option<Value>>) {
        if is_long(value) {
            return (Some(value), Some(None));
        }
        (Some(value), None)
    }
}
