ghost use Rattle.std.specs.Prelude.{◌≡◌};
ghost use Rattle.jground.specs.jbase.MemoryFailures.{Gives};
ghost use Rattle.jpolicy.specs.Productions.{another_at, grant_at, grant_of, keystore_at, one_item, others_at, password_at, policy_at};
ghost use Rattle.jpolicy.specs.ProofNames.{one_more_grant};
ghost use Rattle.jpolicy.specs.ListWalks.{none_left};

use crate::clauses::{Clauses, clauses_of};
use crate::entry::entries_of;
use crate::fault::{PolicyFault, fault};
use crate::grant::{Grant, GrantEntry};
use crate::keyword::Keyword;
use crate::parts::{behind, keyword_of, mark_of, next_is, next_says, text_of, with_one};
use crate::token::Placed;
use crate::walk::{Walk, walk_of};
use jground::jbase::Seq;
use jground::jformat::ReadError;
use jground::jtext::Units;
use std::alloc::Global;

/// The grant of its clauses and entries, or none where a property is missing in a clause.
fn grant_of(clauses: Clauses, entries: Seq<GrantEntry>) -> Option<Grant>
    ensures { result ≡ grant_of clauses entries }
{
    let asks_more = !clauses.signers.is_absent() || clauses.has_principals;
    if clauses.signers.is_missing() || clauses.lacks_principal {
        return None;
    }
    let Some(code_base) = clauses.code_base.kept() else {
        return None;
    };
    Some(Grant {
        code_base,
        asks_more,
        entries,
    })
}

/// A grant, or none where a property is missing in a clause.
#[tactic(auto, unfolding(crate::specs::Productions::grant_at))]
fn one_grant_of<'a>(
    alloc: Global,
    properties: &[(Units, Units)],
    tokens: &'a [Placed],
) -> Result<(Option<Grant>, &'a [Placed]), ReadError<PolicyFault>>
    ensures { Gives (λ x. (x.0, x.1.now)) result (grant_at properties.now tokens.now) }
{
    let rest = keyword_of(Keyword::Grant, tokens)?;
    let (clauses, rest) = clauses_of(alloc, properties, rest)?;
    let rest = mark_of('{', rest)?;
    let (entries, rest) = entries_of(alloc, properties, rest)?;
    let rest = mark_of('}', rest)?;
    let rest = mark_of(';', rest)?;
    Ok((grant_of(clauses, entries), rest))
}

/// What is behind a comma and a string, if a comma stands there.
fn another_of<'a>(
    alloc: Global,
    properties: &[(Units, Units)],
    tokens: &'a [Placed],
) -> Result<&'a [Placed], ReadError<PolicyFault>>
    ensures { Gives (λ x. (tt, x.now)) result (another_at properties.now tokens.now) }
{
    if next_is(',', tokens) {
        let (_, rest) = text_of(alloc, properties, behind(tokens))?;
        return Ok(rest);
    }
    Ok(tokens)
}

/// What is behind a comma and a string, and another one behind it, if they stand there.
fn others_of<'a>(
    alloc: Global,
    properties: &[(Units, Units)],
    tokens: &'a [Placed],
) -> Result<&'a [Placed], ReadError<PolicyFault>>
    ensures { Gives (λ x. (tt, x.now)) result (others_at properties.now tokens.now) }
{
    if next_is(',', tokens) {
        let (_, rest) = text_of(alloc, properties, behind(tokens))?;
        return another_of(alloc, properties, rest);
    }
    Ok(tokens)
}

/// What is behind a keystore.
#[tactic(auto, unfolding(crate::specs::Productions::keystore_at))]
fn behind_keystore<'a>(
    alloc: Global,
    properties: &[(Units, Units)],
    tokens: &'a [Placed],
) -> Result<&'a [Placed], ReadError<PolicyFault>>
    ensures { Gives (λ x. (tt, x.now)) result (keystore_at properties.now tokens.now) }
{
    let rest = keyword_of(Keyword::Keystore, tokens)?;
    let (_, rest) = text_of(alloc, properties, rest)?;
    let rest = others_of(alloc, properties, rest)?;
    let rest = mark_of(';', rest)?;
    Ok(rest)
}

/// What is behind the place of a keystore's password.
#[tactic(auto, unfolding(crate::specs::Productions::password_at))]
fn behind_password<'a>(
    alloc: Global,
    properties: &[(Units, Units)],
    tokens: &'a [Placed],
) -> Result<&'a [Placed], ReadError<PolicyFault>>
    ensures { Gives (λ x. (tt, x.now)) result (password_at properties.now tokens.now) }
{
    let rest = keyword_of(Keyword::PasswordUrl, tokens)?;
    let (_, rest) = text_of(alloc, properties, rest)?;
    let rest = mark_of(';', rest)?;
    Ok(rest)
}

fn with_grant<'a>(
    alloc: Global,
    properties: &[(Units, Units)],
    grants: Seq<Grant>,
    tokens: &'a [Placed],
) -> Result<(Seq<Grant>, &'a [Placed]), ReadError<PolicyFault>>
    ensures { Gives (λ x. (x.0, x.1.now)) result (one_more_grant properties.now grants tokens.now) }
{
    let (grant, rest) = one_grant_of(alloc, properties, tokens)?;
    let grants = with_one(grants, grant)?;
    Ok((grants, rest))
}

/// One item more.
fn one_item<'a>(
    alloc: Global,
    properties: &[(Units, Units)],
    grants: Seq<Grant>,
    tokens: &'a [Placed],
) -> Result<(Seq<Grant>, &'a [Placed]), ReadError<PolicyFault>>
    ensures { Gives (λ x. (x.0, x.1.now)) result (one_item properties.now grants tokens.now) }
{
    if next_says(Keyword::Keystore, tokens) {
        let rest = behind_keystore(alloc, properties, tokens)?;
        return Ok((grants, rest));
    }
    if next_says(Keyword::PasswordUrl, tokens) {
        let rest = behind_password(alloc, properties, tokens)?;
        return Ok((grants, rest));
    }
    with_grant(alloc, properties, grants, tokens)
}

#[derive(Drop)]
struct Items<'p> {
    properties: &'p [(Units, Units)],
}

impl<'p> Walk for Items<'p> {
    type Item = Placed;

    type State = Seq<Grant>;

    type Fault = jground::jformat::Fault<PolicyFault>;

    ghost ends = { λ _. none_left };

    ghost goes = { λ w. one_item w.properties.now };

    fn is_over(&self, tokens: &[Placed]) -> bool {
        tokens.is_empty()
    }

    fn step<'a>(
        &self,
        alloc: Global,
        grants: Seq<Grant>,
        tokens: &'a [Placed],
    ) -> Result<(Seq<Grant>, &'a [Placed]), ReadError<PolicyFault>> {
        one_item(alloc, self.properties, grants, tokens)
    }
}

/// The grants of all items that some tokens spell, or the first token that isn't allowed. Grants with a missing property in a clause are
/// left out.
#[tactic(auto, unfolding(crate::specs::Productions::policy_at))]
pub fn grants_of(
    alloc: Global,
    properties: &[(Units, Units)],
    tokens: &[Placed],
) -> Result<Seq<Grant>, ReadError<PolicyFault>>
    ensures { Gives (λ x. x) result (policy_at properties.now tokens.now) }
{
    let (grants, rest) = walk_of(alloc, &Items { properties }, Seq::new(alloc), tokens)?;
    if rest.is_empty() {
        return Ok(grants);
    }
    Err(fault(PolicyFault::Syntax, rest))
}
