ghost use Rattle.std.specs.Prelude.{◌≡◌, IfOk};
ghost use Rattle.jground.specs.jbase.MemoryFailures.{Gives};
ghost use Rattle.jpolicy.specs.Productions.{behind, is_keyword, is_mark, is_text, keyword_at, mark_at, names_principal, next, text_at, with_one, word_at};
ghost use Rattle.jpolicy.specs.ProofNames.{is_word};

use crate::expanding::{expanded, expands_itself};
use crate::fault::{PolicyFault, fault};
use crate::keyword::Keyword;
use crate::token::{Placed, Token};
use jground::jbase::Seq;
use jground::jformat::ReadError;
use jground::jtext::{Units, same_ignoring_case};
use std::alloc::{AllocError, Global};

/// The tokens behind the next one.
pub fn behind(tokens: &[Placed]) -> &[Placed]
    ensures { result.now ≡ behind tokens.now }
{
    match tokens {
        [] => tokens,
        [_, rest @ ..] => rest,
    }
}

fn is_mark(mark: char, token: &Token) -> bool
    ensures { result ≡ is_mark mark token.now }
{
    match token {
        Token::Mark(c) => *c == mark,
        _ => false,
    }
}

/// Whether the next token is a mark.
pub fn next_is(mark: char, tokens: &[Placed]) -> bool
    ensures { result ≡ next (is_mark mark) tokens.now }
{
    match tokens {
        [] => false,
        [t, ..] => is_mark(mark, &t.token),
    }
}

fn is_keyword(keyword: Keyword, token: &Token) -> bool
    ensures { result ≡ is_keyword keyword token.now }
{
    match token {
        Token::Word(units) => same_ignoring_case(units.as_slice(), keyword.spelling()),
        _ => false,
    }
}

/// Whether the next token is a keyword.
pub fn next_says(keyword: Keyword, tokens: &[Placed]) -> bool
    ensures { result ≡ next (is_keyword keyword) tokens.now }
{
    match tokens {
        [] => false,
        [t, ..] => is_keyword(keyword, &t.token),
    }
}

/// Whether the next token is a string.
pub fn next_is_text(tokens: &[Placed]) -> bool
    ensures { result ≡ next is_text tokens.now }
{
    match tokens {
        [] => false,
        [t, ..] => matches!(&t.token, Token::Text(_)),
    }
}

/// Whether the next token is a word.
pub fn next_is_word(tokens: &[Placed]) -> bool
    ensures { result ≡ next is_word tokens.now }
{
    match tokens {
        [] => false,
        [t, ..] => matches!(&t.token, Token::Word(_)),
    }
}

/// Whether the next token is a string or `*`.
pub fn next_names_principal(tokens: &[Placed]) -> bool
    ensures { result ≡ next names_principal tokens.now }
{
    match tokens {
        [] => false,
        [t, ..] => match &t.token {
            Token::Text(_) => true,
            Token::Mark(c) => *c == '*',
            _ => false,
        },
    }
}

/// What is behind a mark.
pub fn mark_of(mark: char, tokens: &[Placed]) -> Result<&[Placed], ReadError<PolicyFault>>
    ensures { Gives (λ x. (tt, x.now)) result (mark_at mark tokens.now) }
{
    if next_is(mark, tokens) {
        return Ok(behind(tokens));
    }
    Err(fault(PolicyFault::Syntax, tokens))
}

/// What is behind a keyword.
pub fn keyword_of(keyword: Keyword, tokens: &[Placed]) -> Result<&[Placed], ReadError<PolicyFault>>
    ensures { Gives (λ x. (tt, x.now)) result (keyword_at keyword tokens.now) }
{
    if next_says(keyword, tokens) {
        return Ok(behind(tokens));
    }
    Err(fault(PolicyFault::Syntax, tokens))
}

/// A word.
pub fn word_of(
    alloc: Global,
    tokens: &[Placed],
) -> Result<(Units, &[Placed]), ReadError<PolicyFault>>
    ensures { Gives (λ x. (x.0, x.1.now)) result (word_at tokens.now) }
{
    match tokens {
        [] => Err(fault(PolicyFault::Syntax, tokens)),
        [t, rest @ ..] => match &t.token {
            Token::Word(units) => Ok((units.copy(alloc)?, rest)),
            _ => Err(fault(PolicyFault::Syntax, tokens)),
        },
    }
}

/// A string with its properties expanded, or none where one is missing.
#[tactic(auto, unfolding(crate::specs::Productions::text_at))]
pub fn text_of<'a>(
    alloc: Global,
    properties: &[(Units, Units)],
    tokens: &'a [Placed],
) -> Result<(Option<Units>, &'a [Placed]), ReadError<PolicyFault>>
    ensures { Gives (λ x. (x.0, x.1.now)) result (text_at properties.now tokens.now) }
{
    match tokens {
        [] => Err(fault(PolicyFault::Syntax, tokens)),
        [t, rest @ ..] => match &t.token {
            Token::Text(units) => {
                if expands_itself(units.as_slice()) {
                    return Err(fault(PolicyFault::SelfExpansion, tokens));
                }
                Ok((expanded(alloc, properties, units.as_slice())?, rest))
            }
            _ => Err(fault(PolicyFault::Syntax, tokens)),
        },
    }
}

/// One more behind others, where there is one.
pub fn with_one<T: Drop>(items: Seq<T>, one: Option<T>) -> Result<Seq<T>, AllocError>
    ensures { IfOk result (λ all. all ≡ with_one items one) }
{
    let mut items = items;
    match one {
        Some(one) => {
            items.push(one)?;
            Ok(items)
        }
        None => Ok(items),
    }
}
