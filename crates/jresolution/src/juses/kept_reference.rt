ghost use Rattle.std.specs.Prelude.{◌≡◌, ℕ, IfOk, IfSome, List, OnOk, Some, true};
ghost use Rattle.std.specs.Ordering.{nat_cmp};
ghost use Rattle.std.specs.BTreeMap as tree;
ghost use Rattle.jparts.specs.declared.jpool.entry.Entry.{Entry};
ghost use Rattle.jresolution.specs.jprogram.ProgramClasses.{Program};
ghost use Rattle.jresolution.specs.declared.juses.types.TypeRef.{TypeRef};
ghost use Rattle.jresolution.specs.juses.EntryTextCache.{AreNoted, IsNoted};

use crate::juses::entries::Kept;
use crate::juses::indices::Indices;
use std::alloc::AllocError;
use std::collections::BTreeMap;

/// To what a reference refers, by the kind of its entry.
#[derive(Clone, Copy, Debug)]
pub enum Refers {
    ToField,
    ToMethod,
}

/// What is kept of a reference of these texts.
#[derive(Clone, Copy, Debug)]
pub struct KeptReference {
    pub to: Refers,
    pub at: Indices,
    pub kept: Kept,
}

/// A number by which references are told apart.
fn number_of(to: Refers, at: Indices) -> u64 {
    match to {
        Refers::ToField => at.number(),
        Refers::ToMethod => at.number() + 0x1_0000_0000_0000,
    }
}

fn are_one(a: Refers, b: Refers) -> bool
    ensures { result ≡ true → a ≡ b }
{
    match a {
        Refers::ToField => matches!(b, Refers::ToField),
        Refers::ToMethod => matches!(b, Refers::ToMethod),
    }
}

fn noted_at(references: &BTreeMap<u64, KeptReference>, number: u64) -> Option<KeptReference>
    ensures { result ≡ tree.get nat_cmp references.now number }
{
    references.get(&number).copied()
}

/// What is noted of a reference of these texts, if anything is.
pub fn noted_of(
    references: &BTreeMap<u64, KeptReference>,
    to: Refers,
    at: Indices,
) -> Option<KeptReference>
    ensures { IfSome result (λ n. (n.to ≡ to) × (n.at ≡ at)
        × ((p : Program) (pool : List Entry) (types : List TypeRef) → AreNoted p pool types references.now
        → IsNoted p pool types n)) }
{
    let found = noted_at(references, number_of(to, at))?;
    if !are_one(found.to, to) {
        return None;
    }
    if !found.at.is_same(at) {
        return None;
    }
    Some(found)
}

/// Notes what is kept of a reference.
pub fn note(
    references: &mut BTreeMap<u64, KeptReference>,
    one: KeptReference,
) -> Result<(), AllocError>
    ensures { OnOk result ((p : Program) (pool : List Entry) (types : List TypeRef) → AreNoted p pool types references.old
        → IsNoted p pool types one → AreNoted p pool types references.new) }
{
    references.insert(number_of(one.to, one.at), one)?;
    Ok(())
}
