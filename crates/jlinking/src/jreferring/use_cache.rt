ghost use Rattle.std.specs.Prelude.{◌≡◌, ℕ, IfOk, IfSome, List, OnOk, true};
ghost use Rattle.std.specs.Ordering.{nat_cmp};
ghost use Rattle.std.specs.BTreeMap as tree;
ghost use Rattle.jparts.specs.declared.jpool.entry.Entry.{Entry};
ghost use Rattle.jresolution.specs.jprogram.ProgramClasses.{Program};
ghost use Rattle.jresolution.specs.jprogram.InterfaceSearch.{IsLayered};
ghost use Rattle.jresolution.specs.jprogram.ClassFileParts.{text};
ghost use Rattle.jlinking.specs.jreferring.PoolTextCache as noting;
ghost use Rattle.jlinking.specs.jreferring.PoolTextCache.{AreClasses, AreDescs, AreKnown, AreNoted, AreOwners, IsNoted};
ghost use Rattle.jlinking.specs.jreferring.MemberLookUp;
ghost use Rattle.jlinking.specs.jreferring.ClassEntryUses;
ghost use Rattle.jlinking.specs.jreferring.ReferenceUses;

use crate::jreferring::judged::{ClassUse, DescUse, MemberUse, OwnerUse, Sort};
use crate::jreferring::operands::class_use;
use crate::jreferring::references::{Texts, desc_use, member_use, owner_use};
use jparts::jpool::Pool;
use jresolution::jprogram::{Member, NamedProgram, text_at};
use jresolution::juses::Indices;
use std::alloc::{AllocError, Global};
use std::collections::BTreeMap;

/// A class from which entries are seen, by its name and its pool, in its program.
#[derive(Clone, Copy)]
pub struct Home<'a> {
    pub program: &'a NamedProgram,
    pub from: &'a [u8],
    pub pool: &'a Pool,
}

/// What a reference of these texts may be used for.
#[derive(Clone, Copy, Debug)]
pub struct CachedMember {
    pub sort: Sort,
    pub at: Indices,
    pub one: MemberUse,
}

/// What was found out of the texts of a pool, each once, however many entries name it.
#[derive(Drop)]
pub struct UseCache {
    /// By the index of a text that a Class entry names.
    pub classes: BTreeMap<u16, ClassUse>,
    /// By the index of a text that the class of a reference names.
    pub owners: BTreeMap<u16, OwnerUse>,
    /// By the index of a text that a reference has as its descriptor.
    pub descs: BTreeMap<u16, DescUse>,
    /// References, by a number of their indices.
    pub references: BTreeMap<u64, CachedMember>,
}

/// Nothing is known.
pub fn nothing(alloc: Global) -> UseCache
    ensures { (p : Program) (from : List ℕ) (pool : List Entry) → AreKnown p from pool result }
{
    let classes = BTreeMap::new(alloc);
    let owners = BTreeMap::new(alloc);
    let descs = BTreeMap::new(alloc);
    let references = BTreeMap::new(alloc);
    UseCache {
        classes,
        owners,
        descs,
        references,
    }
}

// ---- by the index of a text

fn class_noted(classes: &BTreeMap<u16, ClassUse>, i: u16) -> Option<ClassUse>
    ensures { result ≡ tree.get nat_cmp classes.now i }
{
    classes.get(&i).copied()
}

/// What a Class entry may be used for that names the text at an index.
pub fn class_at(
    alloc: Global,
    home: Home<'_>,
    classes: &mut BTreeMap<u16, ClassUse>,
    i: u16,
) -> Result<ClassUse, AllocError>
    requires { AreClasses home.program.now home.from.now home.pool.now classes.old }
    ensures value { IfOk result (λ u. u ≡ ClassEntryUses.class_use home.entry.program.now home.entry.from.now (text home.entry.pool.now i)) }
    ensures kept { OnOk result (AreClasses home.entry.program.now home.entry.from.now home.entry.pool.now classes.new) }
{
    if let Some(one) = class_noted(classes, i) {
        return Ok(one);
    }
    let one = class_use(alloc, home.program, home.from, text_at(home.pool, i))?;
    classes.insert(i, one)?;
    Ok(one)
}

fn owner_noted(owners: &BTreeMap<u16, OwnerUse>, i: u16) -> Option<OwnerUse>
    ensures { result ≡ tree.get nat_cmp owners.now i }
{
    owners.get(&i).copied()
}

/// What the class of a reference may be used for, whose name stands at an index.
fn owner_at(
    alloc: Global,
    home: Home<'_>,
    owners: &mut BTreeMap<u16, OwnerUse>,
    i: u16,
) -> Result<OwnerUse, AllocError>
    requires { AreOwners home.program.now home.from.now home.pool.now owners.old }
    ensures value { IfOk result (λ u. u ≡ ReferenceUses.owner_use home.entry.program.now home.entry.from.now (text home.entry.pool.now i)) }
    ensures kept { OnOk result (AreOwners home.entry.program.now home.entry.from.now home.entry.pool.now owners.new) }
{
    if let Some(one) = owner_noted(owners, i) {
        return Ok(one);
    }
    let one = owner_use(alloc, home.program, home.from, text_at(home.pool, i))?;
    owners.insert(i, one)?;
    Ok(one)
}

fn desc_noted(descs: &BTreeMap<u16, DescUse>, i: u16) -> Option<DescUse>
    ensures { result ≡ tree.get nat_cmp descs.now i }
{
    descs.get(&i).copied()
}

/// What the descriptor of a reference may be used for, which stands at an index.
fn desc_at(
    alloc: Global,
    home: Home<'_>,
    descs: &mut BTreeMap<u16, DescUse>,
    i: u16,
) -> Result<DescUse, AllocError>
    requires { AreDescs home.program.now home.from.now home.pool.now descs.old }
    ensures value { IfOk result (λ u. u ≡ ReferenceUses.desc_use home.entry.program.now home.entry.from.now (text home.entry.pool.now i)) }
    ensures kept { OnOk result (AreDescs home.entry.program.now home.entry.from.now home.entry.pool.now descs.new) }
{
    if let Some(one) = desc_noted(descs, i) {
        return Ok(one);
    }
    let one = desc_use(alloc, home.program, home.from, text_at(home.pool, i))?;
    descs.insert(i, one)?;
    Ok(one)
}

// ---- by the indices of a reference's texts

/// The member that a reference stands for, which has these texts.
pub fn resolved(
    alloc: Global,
    program: &NamedProgram,
    sort: Sort,
    texts: Texts<'_>,
) -> Result<Option<Member>, AllocError>
    requires { IsLayered program.now }
    ensures { IfOk result (λ m. m ≡ MemberLookUp.look_by program.now sort texts.entry.owner.now texts.entry.name.now texts.entry.desc.now) }
{
    match sort {
        Sort::Field => program.resolve_field(alloc, texts.owner, texts.name, texts.desc),
        Sort::Method => program.resolve_method(alloc, texts.owner, texts.name, texts.desc),
        Sort::InterfaceMethod => {
            program.resolve_method(alloc, texts.owner, texts.name, texts.desc)
        }
    }
}

/// A number by which references are told apart.
fn number_of(sort: Sort, at: Indices) -> u64 {
    match sort {
        Sort::Field => at.number(),
        Sort::Method => at.number() + 0x1_0000_0000_0000,
        Sort::InterfaceMethod => at.number() + 0x2_0000_0000_0000,
    }
}

fn are_one(a: Sort, b: Sort) -> bool
    ensures { result ≡ true → a ≡ b }
{
    match a {
        Sort::Field => matches!(b, Sort::Field),
        Sort::Method => matches!(b, Sort::Method),
        Sort::InterfaceMethod => matches!(b, Sort::InterfaceMethod),
    }
}

fn noted_at(references: &BTreeMap<u64, CachedMember>, number: u64) -> Option<CachedMember>
    ensures { result ≡ tree.get nat_cmp references.now number }
{
    references.get(&number).copied()
}

/// What is noted of a reference of these texts, if anything is.
fn noted_of(
    references: &BTreeMap<u64, CachedMember>,
    sort: Sort,
    at: Indices,
) -> Option<CachedMember>
    ensures { IfSome result (λ n. (n.sort ≡ sort) × (n.at ≡ at)
        × ((p : Program) (from : List ℕ) (pool : List Entry) → AreNoted p from pool references.now → IsNoted p from pool n)) }
{
    let found = noted_at(references, number_of(sort, at))?;
    if !are_one(found.sort, sort) {
        return None;
    }
    if !found.at.is_same(at) {
        return None;
    }
    Some(found)
}

/// What a reference may be used for of which nothing is noted.
#[tactic(auto, unfolding(crate::specs::jreferring::MemberLookUp::named_use))]
fn new_use(
    alloc: Global,
    home: Home<'_>,
    owners: &mut BTreeMap<u16, OwnerUse>,
    descs: &mut BTreeMap<u16, DescUse>,
    sort: Sort,
    at: Indices,
) -> Result<MemberUse, AllocError>
    requires layered { IsLayered home.program.now }
    requires owners { AreOwners home.program.now home.from.now home.pool.now owners.old }
    requires descs { AreDescs home.program.now home.from.now home.pool.now descs.old }
    ensures value { IfOk result (λ u. u ≡ noting.named_at home.entry.program.now home.entry.from.now home.entry.pool.now sort at) }
    ensures owners { OnOk result (AreOwners home.entry.program.now home.entry.from.now home.entry.pool.now owners.new) }
    ensures descs { OnOk result (AreDescs home.entry.program.now home.entry.from.now home.entry.pool.now descs.new) }
{
    let texts = Texts {
        owner: text_at(home.pool, at.owner),
        name: text_at(home.pool, at.name),
        desc: text_at(home.pool, at.desc),
    };
    let member = resolved(alloc, home.program, sort, texts)?;
    let owner = owner_at(alloc, home, owners, at.owner)?;
    let desc = desc_at(alloc, home, descs, at.desc)?;
    Ok(member_use(home.program, home.from, sort, member, texts, owner, desc))
}

/// Notes what a reference may be used for.
fn note(references: &mut BTreeMap<u64, CachedMember>, one: CachedMember) -> Result<(), AllocError>
    ensures { OnOk result ((p : Program) (from : List ℕ) (pool : List Entry) → AreNoted p from pool references.old
        → IsNoted p from pool one → AreNoted p from pool references.new) }
{
    references.insert(number_of(one.sort, one.at), one)?;
    Ok(())
}

/// What a reference may be used for that has the texts at these indices.
pub fn named_at(
    alloc: Global,
    home: Home<'_>,
    known: &mut UseCache,
    sort: Sort,
    at: Indices,
) -> Result<MemberUse, AllocError>
    requires layered { IsLayered home.program.now }
    requires known { AreKnown home.program.now home.from.now home.pool.now known.old }
    ensures value { IfOk result (λ u. u ≡ noting.named_at home.entry.program.now home.entry.from.now home.entry.pool.now sort at) }
    ensures kept { OnOk result (AreKnown home.entry.program.now home.entry.from.now home.entry.pool.now known.new) }
{
    if let Some(found) = noted_of(&known.references, sort, at) {
        return Ok(found.one);
    }
    let one = new_use(alloc, home, &mut known.owners, &mut known.descs, sort, at)?;
    note(&mut known.references, CachedMember { sort, at, one })?;
    Ok(one)
}
