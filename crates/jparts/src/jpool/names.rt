ghost use Rattle.std.specs.Prelude.{◌≡◌};
ghost use Rattle.jparts.specs.jpool.ClassNames;

fn is_name_byte(b: u8) -> bool
    ensures { result ≡ ClassNames.is_name_byte b }
{
    b != b'.' && b != b';' && b != b'['
}

/// Whether a text is a class name: one or more parts joined by `/`, each of one or more bytes other than `.`, `;` and `[`
/// (JVMS 4.2.1).
pub fn is_class_name(text: &[u8]) -> bool
    ensures { result ≡ ClassNames.is_class_name text.now }
{
    let mut begun = false;
    for b in text {
        if *b == b'/' {
            if !begun {
                return false;
            }
            begun = false;
        } else {
            if !is_name_byte(*b) {
                return false;
            }
            begun = true;
        }
    }
    begun
}
