ghost use Rattle.std.specs.Prelude.{◌≡◌, ◌≤◌, List, IfErr, IfOk, Ok, length};
ghost use Rattle.std.specs.Str.{chars, encode_utf8_all};
ghost use Rattle.jground.specs.jbase.MemoryFailures.{Gives};
ghost use Rattle.jpolicy.specs.declared.grant.Grant.{Grant};
ghost use Rattle.jpolicy.specs.Policies.{IsFault, IsPolicy, place_of, policy, policy_in};

use crate::fault::{PolicyError, PolicyFault};
use crate::grant::Policy;
use crate::items::grants_of;
use crate::lexing::tokens_of;
use jground::jbase::FaultOrMemory;
use jground::jformat::At;
use jground::jtext::Units;
use std::alloc::{AllocError, Global};

/// The characters of a text.
fn characters_of(alloc: Global, text: &str) -> Result<Vec<char>, AllocError>
    ensures { IfOk result (λ cs. cs.items ≡ chars text.now) }
{
    text.chars().collect(alloc)
}

/// How many bytes stand in front of the last so many characters.
fn place_of(text: &[char], left: usize) -> usize
    requires { length (encode_utf8_all text.now) ≤ 0x7fff_ffff }
    ensures place { result ≡ place_of text.now left }
    ensures within { result ≤ 0x7fff_ffff }
{
    let (front, _) = text.split_at(text.len().saturating_sub(left));
    let mut bytes = 0;
    for c in front {
        bytes += c.len_utf8();
    }
    bytes
}

fn policy_in(
    alloc: Global,
    text: &str,
    properties: &[(Units, Units)],
) -> Result<Policy, PolicyError>
    requires { length text.now ≤ 0x7fff_ffff }
    ensures { Gives (λ x. x) result (policy_in properties.now (chars text.now)) }
{
    let characters = characters_of(alloc, text)?;
    let tokens = tokens_of(alloc, characters.as_slice())?;
    match grants_of(alloc, properties, tokens.as_slice()) {
        Ok(grants) => Ok(grants),
        Err(FaultOrMemory::Memory) => Err(FaultOrMemory::Memory),
        Err(FaultOrMemory::Fault(found)) => Err(FaultOrMemory::Fault(At {
            at: place_of(characters.as_slice(), found.left) as u32,
            kind: found.kind,
        })),
    }
}

fn policy_of(
    alloc: Global,
    bytes: &[u8],
    properties: &[(Units, Units)],
) -> Result<Policy, PolicyError>
    requires { length bytes.now ≤ 0x7fff_ffff }
    ensures { Gives (λ x. x) result (policy properties.now bytes.now) }
{
    match str::from_utf8(bytes) {
        Ok(text) => policy_in(alloc, text, properties),
        Err(found) => Err(FaultOrMemory::Fault(At {
            at: found.valid_up_to() as u32,
            kind: PolicyFault::NotUtf8,
        })),
    }
}

/// The grants of a policy file, of at most 2,147,483,647 bytes, with the strings expanded by the properties (policy file documentation).
pub fn read_policy(
    alloc: Global,
    bytes: &[u8],
    props: &[(Units, Units)],
) -> Result<Policy, PolicyError>
    requires { length bytes.now ≤ 0x7fff_ffff }
    // What is read is derived by the grammar.
    ensures found { IfOk result (λ grants. IsPolicy props.now bytes.now grants) }
    // What the grammar derives is read, unless memory runs out.
    ensures only { (grants : List Grant) → IsPolicy props.now bytes.now grants → Gives (λ x. x) result (Ok grants) }
    // Which fault it is: the first ill-formed group of bytes, else the first token that isn't allowed.
    ensures exact { Gives (λ x. x) result (policy props.now bytes.now) }
    // The tokens in front of that one begin a policy of the grammar, and with it none begins; it is a self-expansion exactly where it is
    // a string with `${{` and another string is allowed there.
    ensures first { IfErr result (λ e. IsFault props.now bytes.now e) }
{
    policy_of(alloc, bytes, props)
}
