use jground::jtext::Units;

/// A token of a policy file.
#[derive(Debug, Drop)]
pub enum Token {
    /// A run of letters, digits, `.`, `_`, `$` and characters from U+00A0 on.
    Word(Units),
    /// The text of a string, with each escape as what it stands for.
    Text(Units),
    /// `{`, `}`, `,`, `;` or `*`.
    Mark(char),
    /// A string or a comment that isn't closed, a string with an octal escape, or a character that begins no token.
    Bad,
}

/// A token and its place: `left` is the number of characters from its first one to the end of the text.
#[rattlefmt::skip]
#[derive(Debug, Drop)]
pub struct Placed { pub left: usize, pub token: Token }
