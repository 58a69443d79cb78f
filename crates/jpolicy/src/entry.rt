ghost use Rattle.std.specs.Prelude.{◌≡◌};
ghost use Rattle.std.specs.Str.{byte};
ghost use Rattle.jground.specs.jbase.MemoryFailures.{Gives};
ghost use Rattle.jpolicy.specs.Productions.{behind_actions, behind_comma, behind_name, entries_at, entry_at, entry_of, is_mark, name_at, next, one_entry, signer_at};

use crate::fault::PolicyFault;
use crate::grant::GrantEntry;
use crate::keyword::Keyword;
use crate::parts::{
    behind, keyword_of, mark_of, next_is, next_is_text, next_says, text_of, with_one, word_of,
};
use crate::stated::Stated;
use crate::token::Placed;
use crate::walk::{Walk, walk_of};
use jground::jbase::Seq;
use jground::jformat::ReadError;
use jground::jtext::Units;
use std::alloc::Global;

/// `signedBy` and a string.
#[tactic(auto, unfolding(crate::specs::Productions::signer_at))]
fn signer_of<'a>(
    alloc: Global,
    properties: &[(Units, Units)],
    tokens: &'a [Placed],
) -> Result<(Stated, &'a [Placed]), ReadError<PolicyFault>>
    ensures { Gives (λ x. (x.0, x.1.now)) result (signer_at properties.now tokens.now) }
{
    let rest = keyword_of(Keyword::SignedBy, tokens)?;
    let (text, rest) = text_of(alloc, properties, rest)?;
    Ok((Stated::given(text), rest))
}

/// Optionally a comma and the signers.
fn behind_actions<'a>(
    alloc: Global,
    properties: &[(Units, Units)],
    tokens: &'a [Placed],
) -> Result<(Stated, &'a [Placed]), ReadError<PolicyFault>>
    ensures { Gives (λ x. (x.0, x.1.now)) result (behind_actions properties.now tokens.now) }
{
    if next_is(',', tokens) {
        return signer_of(alloc, properties, behind(tokens));
    }
    Ok((Stated::Absent, tokens))
}

/// The actions and what is behind them, or the signers alone.
fn behind_comma<'a>(
    alloc: Global,
    properties: &[(Units, Units)],
    tokens: &'a [Placed],
) -> Result<((Stated, Stated), &'a [Placed]), ReadError<PolicyFault>>
    ensures { Gives (λ x. (x.0, x.1.now)) result (behind_comma properties.now tokens.now) }
{
    if next_is_text(tokens) {
        let (actions, rest) = text_of(alloc, properties, tokens)?;
        let (signers, rest) = behind_actions(alloc, properties, rest)?;
        return Ok(((Stated::given(actions), signers), rest));
    }
    let (signers, rest) = signer_of(alloc, properties, tokens)?;
    Ok(((Stated::Absent, signers), rest))
}

/// Optionally a string.
fn name_of<'a>(
    alloc: Global,
    properties: &[(Units, Units)],
    tokens: &'a [Placed],
) -> Result<(Stated, &'a [Placed]), ReadError<PolicyFault>>
    ensures { Gives (λ x. (x.0, x.1.now)) result (name_at properties.now tokens.now) }
{
    if next_is_text(tokens) {
        let (name, rest) = text_of(alloc, properties, tokens)?;
        return Ok((Stated::given(name), rest));
    }
    Ok((Stated::Absent, tokens))
}

/// Actions and signers behind the name, if they are there.
fn behind_name<'a>(
    alloc: Global,
    properties: &[(Units, Units)],
    name: &Stated,
    tokens: &'a [Placed],
) -> Result<((Stated, Stated), &'a [Placed]), ReadError<PolicyFault>>
    ensures { Gives (λ x. (x.0, x.1.now)) result (behind_name properties.now name.now tokens.now) }
{
    if next_is(',', tokens) {
        return behind_comma(alloc, properties, behind(tokens));
    }
    if name.is_absent() {
        if next_says(Keyword::SignedBy, tokens) {
            let (signers, rest) = signer_of(alloc, properties, tokens)?;
            return Ok(((Stated::Absent, signers), rest));
        }
    }
    Ok(((Stated::Absent, Stated::Absent), tokens))
}

/// The entry of its parts, or none where a property is missing in one.
fn entry_of(class: Units, name: Stated, actions: Stated, signers: Stated) -> Option<GrantEntry>
    ensures { result ≡ entry_of class name actions signers }
{
    let Some(name) = name.kept() else {
        return None;
    };
    let Some(actions) = actions.kept() else {
        return None;
    };
    let Some(signers) = signers.kept() else {
        return None;
    };
    Some(GrantEntry {
        class,
        name,
        actions,
        signed: signers.is_some(),
    })
}

/// A permission entry, or none where a property is missing in it.
#[tactic(auto, unfolding(crate::specs::Productions::entry_at))]
fn one_entry_of<'a>(
    alloc: Global,
    properties: &[(Units, Units)],
    tokens: &'a [Placed],
) -> Result<(Option<GrantEntry>, &'a [Placed]), ReadError<PolicyFault>>
    ensures { Gives (λ x. (x.0, x.1.now)) result (entry_at properties.now tokens.now) }
{
    let rest = keyword_of(Keyword::Permission, tokens)?;
    let (class, rest) = word_of(alloc, rest)?;
    let (name, rest) = name_of(alloc, properties, rest)?;
    let ((actions, signers), rest) = behind_name(alloc, properties, &name, rest)?;
    let rest = mark_of(';', rest)?;
    Ok((entry_of(class, name, actions, signers), rest))
}

fn one_entry<'a>(
    alloc: Global,
    properties: &[(Units, Units)],
    entries: Seq<GrantEntry>,
    tokens: &'a [Placed],
) -> Result<(Seq<GrantEntry>, &'a [Placed]), ReadError<PolicyFault>>
    ensures { Gives (λ x. (x.0, x.1.now)) result (one_entry properties.now entries tokens.now) }
{
    let (entry, rest) = one_entry_of(alloc, properties, tokens)?;
    let entries = with_one(entries, entry)?;
    Ok((entries, rest))
}

#[derive(Drop)]
struct Entries<'p> {
    properties: &'p [(Units, Units)],
}

impl<'p> Walk for Entries<'p> {
    type Item = Placed;

    type State = Seq<GrantEntry>;

    type Fault = jground::jformat::Fault<PolicyFault>;

    ghost ends = { λ _. next (is_mark (byte "}")) };

    ghost goes = { λ w. one_entry w.properties.now };

    fn is_over(&self, tokens: &[Placed]) -> bool {
        next_is('}', tokens)
    }

    fn step<'a>(
        &self,
        alloc: Global,
        entries: Seq<GrantEntry>,
        tokens: &'a [Placed],
    ) -> Result<(Seq<GrantEntry>, &'a [Placed]), ReadError<PolicyFault>> {
        one_entry(alloc, self.properties, entries, tokens)
    }
}

/// Entries up to a brace that closes. Those with a missing property are left out.
#[tactic(auto, unfolding(crate::specs::Productions::entries_at))]
pub fn entries_of<'a>(
    alloc: Global,
    properties: &[(Units, Units)],
    tokens: &'a [Placed],
) -> Result<(Seq<GrantEntry>, &'a [Placed]), ReadError<PolicyFault>>
    ensures { Gives (λ x. (x.0, x.1.now)) result (entries_at properties.now tokens.now) }
{
    walk_of(alloc, &Entries { properties }, Seq::new(alloc), tokens)
}
