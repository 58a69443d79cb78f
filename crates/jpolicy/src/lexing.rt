ghost use Rattle.std.specs.Prelude.{◌≡◌, ◌≤◌, ◌∷◌, IfOk, MatchOption, None, Some, length};
ghost use Rattle.std.specs.List.{flat_map, prefix_len, position_or_len};
ghost use Rattle.std.specs.Char.Escape.{encode_utf16};
ghost use Rattle.jground.specs.jbase.MemoryFailures.{Gives};
ghost use Rattle.jpolicy.specs.Characters.{ends_line, is_word_character};
ghost use Rattle.jpolicy.specs.Strings.{string_at};
ghost use Rattle.jpolicy.specs.Tokens.{behind_comment, comment_at, lexeme_at, more_at, tokens, with_lexeme, word_at};
ghost use Rattle.jpolicy.specs.ProofNames.{quoted};
ghost use Rattle.jpolicy.specs.ListWalks.{none_left};

use crate::character::{ends_line, is_gap, is_mark, is_word_character};
use crate::quoted::string_of;
use crate::token::{Placed, Token};
use crate::walk::{Walk, walk_of};
use jground::jbase::{FaultOrMemory, Seq};
use jground::jtext::Units;
use std::alloc::{AllocError, Global};

/// The UTF-16 units of some characters.
fn units_of(alloc: Global, text: &[char]) -> Result<Units, AllocError>
    ensures { IfOk result (λ u. u ≡ flat_map encode_utf16 text.now) }
{
    let mut units = Vec::new(alloc);
    for c in text {
        let mut pair = [0, 0];
        units.extend_from_slice(c.encode_utf16(&mut pair))?;
    }
    Ok(Units::from_vec(units))
}

fn word_len(text: &[char]) -> usize
    ensures count { result ≡ prefix_len is_word_character text.now }
    ensures within { result ≤ length text.now }
{
    text.iter().take_while(|c| is_word_character(**c)).count()
}

fn line_len(text: &[char]) -> usize
    ensures count { result ≡ position_or_len ends_line text.now }
    ensures within { result ≤ length text.now }
{
    text.iter().take_while(|c| !ends_line(**c)).count()
}

fn word_of(alloc: Global, text: &[char]) -> Result<(Option<Token>, &[char]), AllocError>
    ensures { IfOk result (λ x. (x.0, x.1.now) ≡ word_at text.now) }
{
    let (word, rest) = text.split_at(word_len(text));
    Ok((Some(Token::Word(units_of(alloc, word)?)), rest))
}

/// What lies behind the end of a comment, if it ends.
#[tactic(auto, unfolding(crate::specs::Tokens::behind_comment))]
fn behind_comment(text: &[char]) -> Option<&[char]>
    ensures { MatchOption result (behind_comment text.now ≡ None) (λ rest. behind_comment text.now ≡ Some rest.now) }
{
    let mut rest = text;
    while let [c, after @ ..] = rest {
        if let [d, behind @ ..] = after {
            if *c == '*' && *d == '/' {
                return Some(behind);
            }
        }
        rest = after;
    }
    None
}

/// A comment, behind its first slash.
#[tactic(auto, unfolding(crate::specs::Tokens::comment_at))]
fn comment_of(text: &[char]) -> (Option<Token>, &[char])
    ensures { (result.0, result.1.now) ≡ comment_at text.now }
{
    match text {
        [] => (Some(Token::Bad), &[]),
        [c, rest @ ..] => {
            if *c == '/' {
                let (_, behind) = rest.split_at(line_len(rest));
                return (None, behind);
            }
            if *c == '*' {
                return match behind_comment(rest) {
                    Some(behind) => (None, behind),
                    None => (Some(Token::Bad), &[]),
                };
            }
            (Some(Token::Bad), &[])
        }
    }
}

fn quoted_of(alloc: Global, text: &[char]) -> Result<(Option<Token>, &[char]), AllocError>
    ensures { IfOk result (λ x. (x.0, x.1.now) ≡ quoted (string_at text.now)) }
{
    match string_of(alloc, text) {
        Ok((units, rest)) => Ok((Some(Token::Text(units)), rest)),
        Err(FaultOrMemory::Memory) => Err(AllocError),
        Err(FaultOrMemory::Fault(())) => Ok((Some(Token::Bad), &[])),
    }
}

/// A token or a separator at the front of a text that begins with the character `c`.
#[tactic(auto, unfolding(crate::specs::Tokens::lexeme_at))]
fn lexeme_of<'a>(
    alloc: Global,
    text: &'a [char],
    c: char,
    rest: &'a [char],
) -> Result<(Option<Token>, &'a [char]), AllocError>
    requires { text.now ≡ c ∷ rest.now }
    ensures { IfOk result (λ x. (x.0, x.1.now) ≡ lexeme_at c rest.now) }
{
    if is_gap(c) {
        return Ok((None, rest));
    }
    if is_mark(c) {
        return Ok((Some(Token::Mark(c)), rest));
    }
    if is_word_character(c) {
        return word_of(alloc, text);
    }
    if c == '"' {
        return quoted_of(alloc, rest);
    }
    if c == '/' {
        return Ok(comment_of(rest));
    }
    Ok((Some(Token::Bad), &[]))
}

fn with_lexeme<'a>(
    tokens: Seq<Placed>,
    left: usize,
    one: Option<Token>,
    rest: &'a [char],
) -> Result<(Seq<Placed>, &'a [char]), FaultOrMemory<()>>
    ensures { Gives (λ x. (x.0, x.1.now)) result (with_lexeme tokens left (one, rest.now)) }
{
    let mut tokens = tokens;
    match one {
        None => Ok((tokens, rest)),
        Some(token) => {
            tokens.push(Placed { left, token })?;
            Ok((tokens, rest))
        }
    }
}

fn more_of(
    alloc: Global,
    tokens: Seq<Placed>,
    text: &[char],
) -> Result<(Seq<Placed>, &[char]), FaultOrMemory<()>>
    ensures { Gives (λ x. (x.0, x.1.now)) result (more_at tokens text.now) }
{
    match text {
        [] => Ok((tokens, text)),
        [c, rest @ ..] => {
            let (one, after) = lexeme_of(alloc, text, *c, rest)?;
            with_lexeme(tokens, text.len(), one, after)
        }
    }
}

struct Lexer;

impl Walk for Lexer {
    type Item = char;

    type State = Seq<Placed>;

    type Fault = ();

    ghost ends = { λ _. none_left };

    ghost goes = { λ _. more_at };

    fn is_over(&self, text: &[char]) -> bool {
        text.is_empty()
    }

    fn step<'a>(
        &self,
        alloc: Global,
        tokens: Seq<Placed>,
        text: &'a [char],
    ) -> Result<(Seq<Placed>, &'a [char]), FaultOrMemory<()>> {
        more_of(alloc, tokens, text)
    }
}

/// All tokens of a text in order. One that is bad is the last: nothing behind it is looked at.
#[tactic(auto, unfolding(crate::specs::Tokens::tokens))]
pub fn tokens_of(alloc: Global, text: &[char]) -> Result<Seq<Placed>, AllocError>
    ensures { IfOk result (λ ts. ts ≡ tokens text.now) }
{
    match walk_of(alloc, &Lexer, Seq::new(alloc), text) {
        Ok((tokens, _)) => Ok(tokens),
        Err(FaultOrMemory::Memory) => Err(AllocError),
        Err(FaultOrMemory::Fault(())) => Ok(Seq::new(alloc)),
    }
}
