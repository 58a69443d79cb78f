ghost use Rattle.std.specs.Prelude.{◌≡◌};
ghost use Rattle.std.specs.Char.{to_ascii_lowercase};
ghost use Rattle.jground.specs.jtext.Texts;

/// Whether a text's units are a word's bytes, where ASCII letter case doesn't count on either side.
pub fn same_ignoring_case(text: &[u16], word: &[u8]) -> bool
    ensures { result ≡ Texts.same_ignoring_case text.now word.now }
{
    if text.len() != word.len() {
        return false;
    }
    for (i, unit) in text.iter().enumerate() {
        if lower(*unit) != lower(u16::from(word[i])) {
            return false;
        }
    }
    true
}

/// The lower-case unit of an ASCII letter; any other unit itself.
fn lower(unit: u16) -> u16
    ensures { result ≡ to_ascii_lowercase unit }
{
    if unit >= b'A' as u16 && unit <= b'Z' as u16 {
        unit + 32
    } else {
        unit
    }
}
