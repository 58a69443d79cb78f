ghost use Rattle.std.specs.Prelude.{◌≡◌};
ghost use Rattle.jpolicy.specs.Characters.{ends_line, is_mark, is_octal, is_word_character, is_gap};

/// Whether a character separates tokens: a blank or a control.
pub fn is_gap(c: char) -> bool
    ensures { result ≡ is_gap c }
{
    c <= ' '
}

/// Whether a line ends at a character.
pub fn ends_line(c: char) -> bool
    ensures { result ≡ ends_line c }
{
    c == '\n' || c == '\r'
}

/// Whether a character may stand in a word.
pub fn is_word_character(c: char) -> bool
    ensures { result ≡ is_word_character c }
{
    c.is_ascii_alphanumeric() || c == '.' || c == '_' || c == '$' || '\u{a0}' <= c
}

/// Whether a character is a token by itself.
pub fn is_mark(c: char) -> bool
    ensures { result ≡ is_mark c }
{
    c == '{' || c == '}' || c == ',' || c == ';' || c == '*'
}

/// Whether a character is an octal digit.
pub fn is_octal(c: char) -> bool
    ensures { result ≡ is_octal c }
{
    '0' <= c && c <= '7'
}
