ghost use Rattle.std.specs.Prelude.{◌≡◌};
ghost use Rattle.jresolution.specs.jprogram.UnsupportedTypes;

use jparts::jpool::FieldType;

/// Whether a type is the class of security contexts, or an array of it.
pub fn is_context(one: &FieldType) -> bool
    ensures { result ≡ UnsupportedTypes.is_context one.now }
{
    one.class.as_slice() == b"sps/Ctx".as_slice()
}

/// Whether a type is a float or a double, or an array of them (JVMS 4.3.2).
pub fn is_floating(one: &FieldType) -> bool
    ensures { result ≡ UnsupportedTypes.is_floating one.now }
{
    one.base == b'F' || one.base == b'D'
}
