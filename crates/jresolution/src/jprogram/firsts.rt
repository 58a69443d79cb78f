ghost use Rattle.std.specs.Prelude.{◌≡◌, IfOk, OnOk};
ghost use Rattle.jresolution.specs.jprogram.MemberDigests;
ghost use Rattle.jresolution.specs.jprogram.MemberDigests.{AreFirst, AreFirsts, AreTold, IsKey, Tells};

use crate::jprogram::part::CodePart;
use crate::jprogram::parts::{member_desc, member_name};
use jclass::{ClassParts, MemberInfo};
use std::alloc::{AllocError, Global};
use std::collections::BTreeMap;

/// The places of a class's first method and of its first field of each digest.
#[derive(Drop)]
pub struct Firsts {
    pub methods: BTreeMap<u64, usize>,
    pub fields: BTreeMap<u64, usize>,
}

// ---- digests

/// A number by which most texts are told apart, on from that of what stands in front.
#[tactic(auto, unfolding(crate::specs::jprogram::MemberDigests::digest_from))]
fn digest_from(front: u64, text: &[u8]) -> u64
    ensures { result ≡ MemberDigests.digest_from front text.now }
{
    let mut sum = front;
    for b in text {
        sum = sum.wrapping_mul(257).wrapping_add(u64::from(*b));
    }
    sum
}

/// The same, of the ends of a text alone where it is long, so that many references may name it.
#[tactic(auto, unfolding(crate::specs::jprogram::MemberDigests::digest_text))]
pub fn digest_text(front: u64, text: &[u8]) -> u64
    ensures { result ≡ MemberDigests.digest_text front text.now }
{
    if 1024 < text.len() {
        let (begin, _) = text.split_at(512);
        let (_, end) = text.split_at(text.len() - 512);
        return digest_from(digest_from(front, begin), end);
    }
    digest_from(front, text)
}

fn digest(name: &[u8], desc: &[u8]) -> u64
    ensures { result ≡ MemberDigests.digest name.now desc.now }
{
    digest_text(digest_text(0, name), desc)
}

/// A name and a descriptor with their digest, so that it is taken once where several classes are asked for them.
#[derive(Clone, Copy)]
pub struct Key<'a> {
    pub name: &'a [u8],
    pub desc: &'a [u8],
    pub sum: u64,
}

/// A name and a descriptor, with their digest.
pub fn key_of<'a>(name: &'a [u8], desc: &'a [u8]) -> Key<'a>
    ensures name { result.name.now ≡ name.now }
    ensures desc { result.desc.now ≡ desc.now }
    ensures key { IsKey result }
{
    Key {
        name,
        desc,
        sum: digest(name, desc),
    }
}

fn digest_of(class: &ClassParts, member: &MemberInfo) -> u64
    ensures { result ≡ MemberDigests.digest_of class.now member.now }
{
    digest(member_name(class, member), member_desc(class, member))
}

// ---- tables

/// Gives a digest a place, unless it has one already.
fn tell(places: &mut BTreeMap<u64, usize>, sum: u64, k: usize) -> Result<(), AllocError>
    ensures { OnOk result (Tells sum k places.old places.new) }
{
    if places.contains_key(&sum) {
        return Ok(());
    }
    places.insert(sum, k)?;
    Ok(())
}

/// The places of the first members of each digest.
fn firsts_among(
    alloc: Global,
    class: &ClassParts,
    members: &[MemberInfo],
) -> Result<BTreeMap<u64, usize>, AllocError>
    ensures { IfOk result (λ places. AreFirst class.now members.now places) }
{
    let mut places = BTreeMap::new(alloc);
    for (k, one) in members.iter().enumerate() {
        tell(&mut places, digest_of(class, one), k)?;
    }
    Ok(places)
}

fn firsts_of(alloc: Global, class: &ClassParts) -> Result<Firsts, AllocError>
    ensures { IfOk result (λ firsts. AreFirsts class.now firsts) }
{
    let methods = firsts_among(alloc, class, class.methods.as_slice())?;
    let fields = firsts_among(alloc, class, class.fields.as_slice())?;
    Ok(Firsts { methods, fields })
}

/// The tables of each part.
pub fn firsts_in(alloc: Global, parts: &[CodePart]) -> Result<Vec<Firsts>, AllocError>
    ensures { IfOk result (λ all. AreTold parts.now all.items) }
{
    let mut all = Vec::new(alloc);
    for (i, part) in parts.iter().enumerate() {
        let firsts = firsts_of(alloc, part.class.parts())?;
        all.push(firsts)?;
    }
    Ok(all)
}

/// The place of the first member of a digest.
pub fn first_at(places: &BTreeMap<u64, usize>, sum: u64) -> Option<usize>
    ensures { result ≡ MemberDigests.first_at places.now sum }
{
    places.get(&sum).copied()
}
