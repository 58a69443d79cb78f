ghost use Rattle.std.specs.Prelude.{◌≡◌};
ghost use Rattle.std.specs.Str.{byte};
ghost use Rattle.jground.specs.jbase.MemoryFailures.{Gives};
ghost use Rattle.jpolicy.specs.Productions.{clause_at, clauses_at, is_mark, next, no_clauses, one_clause};
ghost use Rattle.jpolicy.specs.Productions.{principal_at, principal_name_at, with_code_base, with_principal, with_signers};
ghost use Rattle.jpolicy.specs.ProofNames.{skip_comma};

use crate::fault::{PolicyFault, fault};
use crate::keyword::Keyword;
use crate::parts::{behind, next_is, next_is_word, next_names_principal, next_says, text_of};
use crate::stated::Stated;
use crate::token::Placed;
use crate::walk::{Walk, walk_of};
use jground::jformat::ReadError;
use jground::jtext::Units;
use std::alloc::Global;

/// What the clauses of a grant say.
#[derive(Debug, Drop)]
pub struct Clauses {
    pub code_base: Stated,
    pub signers: Stated,
    /// Whether there is a principal.
    pub has_principals: bool,
    /// Whether a property is missing in the name of a principal.
    pub lacks_principal: bool,
}

impl Clauses {
    fn none() -> Clauses
        ensures { result ≡ no_clauses }
    {
        Clauses {
            code_base: Stated::Absent,
            signers: Stated::Absent,
            has_principals: false,
            lacks_principal: false,
        }
    }

    fn with_code_base(self, text: Option<Units>) -> Clauses
        ensures { result ≡ with_code_base self text }
    {
        Clauses {
            code_base: Stated::given(text),
            signers: self.signers,
            has_principals: self.has_principals,
            lacks_principal: self.lacks_principal,
        }
    }

    fn with_signers(self, text: Option<Units>) -> Clauses
        ensures { result ≡ with_signers self text }
    {
        Clauses {
            code_base: self.code_base,
            signers: Stated::given(text),
            has_principals: self.has_principals,
            lacks_principal: self.lacks_principal,
        }
    }

    fn with_principal(self, lacks: bool) -> Clauses
        ensures { result ≡ with_principal self lacks }
    {
        Clauses {
            code_base: self.code_base,
            signers: self.signers,
            has_principals: true,
            lacks_principal: self.lacks_principal || lacks,
        }
    }
}

/// The string or `*` that names a principal: whether a property is missing in it.
fn principal_name_of<'a>(
    alloc: Global,
    properties: &[(Units, Units)],
    tokens: &'a [Placed],
) -> Result<(bool, &'a [Placed]), ReadError<PolicyFault>>
    ensures { Gives (λ x. (x.0, x.1.now)) result (principal_name_at properties.now tokens.now) }
{
    if next_is('*', tokens) {
        return Ok((false, behind(tokens)));
    }
    let (text, rest) = text_of(alloc, properties, tokens)?;
    Ok((text.is_none(), rest))
}

/// What is behind `principal`: whether a property is missing in it.
fn principal_of<'a>(
    alloc: Global,
    properties: &[(Units, Units)],
    tokens: &'a [Placed],
) -> Result<(bool, &'a [Placed]), ReadError<PolicyFault>>
    ensures { Gives (λ x. (x.0, x.1.now)) result (principal_at properties.now tokens.now) }
{
    if next_is_word(tokens) {
        return principal_name_of(alloc, properties, behind(tokens));
    }
    if next_is('*', tokens) {
        if next_names_principal(behind(tokens)) {
            return principal_name_of(alloc, properties, behind(tokens));
        }
    }
    principal_name_of(alloc, properties, tokens)
}

/// A clause behind others: `codeBase` and `signedBy` come once each.
#[tactic(auto, unfolding(crate::specs::Productions::clause_at))]
fn clause_of<'a>(
    alloc: Global,
    properties: &[(Units, Units)],
    clauses: Clauses,
    tokens: &'a [Placed],
) -> Result<(Clauses, &'a [Placed]), ReadError<PolicyFault>>
    ensures { Gives (λ x. (x.0, x.1.now)) result (clause_at properties.now clauses tokens.now) }
{
    if next_says(Keyword::CodeBase, tokens) && clauses.code_base.is_absent() {
        let (text, rest) = text_of(alloc, properties, behind(tokens))?;
        return Ok((clauses.with_code_base(text), rest));
    }
    if next_says(Keyword::SignedBy, tokens) && clauses.signers.is_absent() {
        let (text, rest) = text_of(alloc, properties, behind(tokens))?;
        return Ok((clauses.with_signers(text), rest));
    }
    if next_says(Keyword::Principal, tokens) {
        let (lacks, rest) = principal_of(alloc, properties, behind(tokens))?;
        return Ok((clauses.with_principal(lacks), rest));
    }
    Err(fault(PolicyFault::Syntax, tokens))
}

/// What is behind a comma, if one stands there.
fn skip_comma(tokens: &[Placed]) -> &[Placed]
    ensures { result.now ≡ skip_comma tokens.now }
{
    if next_is(',', tokens) {
        return behind(tokens);
    }
    tokens
}

fn one_clause<'a>(
    alloc: Global,
    properties: &[(Units, Units)],
    clauses: Clauses,
    tokens: &'a [Placed],
) -> Result<(Clauses, &'a [Placed]), ReadError<PolicyFault>>
    ensures { Gives (λ x. (x.0, x.1.now)) result (one_clause properties.now clauses tokens.now) }
{
    let (clauses, rest) = clause_of(alloc, properties, clauses, tokens)?;
    Ok((clauses, skip_comma(rest)))
}

#[derive(Drop)]
struct ClauseWalk<'p> {
    properties: &'p [(Units, Units)],
}

impl<'p> Walk for ClauseWalk<'p> {
    type Item = Placed;

    type State = Clauses;

    type Fault = jground::jformat::Fault<PolicyFault>;

    ghost ends = { λ _. next (is_mark (byte "{")) };

    ghost goes = { λ w. one_clause w.properties.now };

    fn is_over(&self, tokens: &[Placed]) -> bool {
        next_is('{', tokens)
    }

    fn step<'a>(
        &self,
        alloc: Global,
        clauses: Clauses,
        tokens: &'a [Placed],
    ) -> Result<(Clauses, &'a [Placed]), ReadError<PolicyFault>> {
        one_clause(alloc, self.properties, clauses, tokens)
    }
}

/// Clauses up to a brace that opens.
#[tactic(auto, unfolding(crate::specs::Productions::clauses_at))]
pub fn clauses_of<'a>(
    alloc: Global,
    properties: &[(Units, Units)],
    tokens: &'a [Placed],
) -> Result<(Clauses, &'a [Placed]), ReadError<PolicyFault>>
    ensures { Gives (λ x. (x.0, x.1.now)) result (clauses_at properties.now tokens.now) }
{
    walk_of(alloc, &ClauseWalk { properties }, Clauses::none(), tokens)
}
