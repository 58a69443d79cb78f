ghost use Rattle.std.specs.Prelude.{◌≡◌, ℕ, IfOk, List, OnOk, Some, option_map};
ghost use Rattle.std.specs.Ordering.{nat_cmp};
ghost use Rattle.std.specs.BTreeMap as tree;
ghost use Rattle.jparts.specs.declared.jpool.entry.Entry.{Entry};
ghost use Rattle.jresolution.specs.jprogram.ProgramClasses.{Program};
ghost use Rattle.jresolution.specs.jprogram.InterfaceSearch.{IsLayered};
ghost use Rattle.jresolution.specs.declared.juses.types.TypeRef.{TypeRef};
ghost use Rattle.jresolution.specs.juses.InstructionMeanings.{AField, AMethod, call_as, field_as};
ghost use Rattle.jresolution.specs.juses.EntryTextCache;
ghost use Rattle.jresolution.specs.juses.EntryTextCache.{AreClasses, AreKnown, AreNoted};
ghost use Rattle.jresolution.specs.juses.PoolTables.{AreDescs, AreKept, DescWithin, Grows, KeptIs, KeptWithin, desc_named, kept_named, member_of};
ghost use Rattle.jresolution.specs.juses.InternedTypes.{class_named};

use crate::jprogram::{ClassRef, Member, NamedProgram, class_text, text_at};
use crate::juses::descriptors::{DescUse, desc_at, descs_of};
use crate::juses::indices::Indices;
use crate::juses::kept_reference::{KeptReference, Refers, note, noted_of};
use crate::juses::meaning::{CallUse, Constant, FieldUse};
use crate::juses::types::TypeRef;
use crate::juses::typing::{class_there, class_type};
use jground::jbase::Seq;
use jparts::jpool::{Entry, Pool};
use std::alloc::{AllocError, Global};
use std::collections::BTreeMap;

const INIT: &[u8] = b"<init>";

/// What is kept of an entry of a pool.
#[derive(Clone, Copy, Debug)]
pub(crate) enum Kept {
    Nothing,
    Constant(Constant),
    Class(TypeRef),
    /// What its descriptor names isn't there.
    Member(Member),
    Field(FieldUse),
    /// Whether it is an `<init>`.
    Method(bool, CallUse),
}

// What is kept of an entry takes 56 bytes of memory.
const _: () = prove!(size_of::<Kept>() == 56);

impl Kept {
    /// The member for which the entry stands.
    pub(crate) fn member(self) -> Option<Member>
        ensures { result ≡ member_of self }
    {
        match self {
            Kept::Member(member) => Some(member),
            Kept::Field(field) => Some(field.member),
            Kept::Method(_, call) => Some(call.member),
            _ => None,
        }
    }
}

/// The pool of a part, and what its texts say as descriptors: the types of parameters stand among `types`.
#[derive(Clone, Copy)]
struct Texts<'a> {
    pool: &'a Pool,
    descs: &'a [DescUse],
    types: &'a [TypeRef],
}

// ---- references

fn field_kept(owner: ClassRef, member: Option<Member>, desc: DescUse) -> Kept
    ensures named { (p : Program) (pool : List Entry) (types : List TypeRef)
        → kept_named p pool types result ≡ option_map AField (field_as (class_named p owner) member (desc_named p types desc)) }
    ensures member { member_of result ≡ member }
    ensures within { (n : ℕ) → KeptWithin n result }
{
    let Some(member) = member else {
        return Kept::Nothing;
    };
    match desc {
        DescUse::Held(held) => Kept::Field(FieldUse {
            owner,
            held,
            member,
        }),
        _ => Kept::Member(member),
    }
}

fn method_kept(is_init: bool, owner: ClassRef, member: Option<Member>, desc: DescUse) -> Kept
    ensures named { (p : Program) (pool : List Entry) (types : List TypeRef)
        → kept_named p pool types result
        ≡ option_map (AMethod is_init) (call_as (class_named p owner) member (desc_named p types desc)) }
    ensures member { member_of result ≡ member }
    ensures within { (n : ℕ) → DescWithin n desc → KeptWithin n result }
{
    let Some(member) = member else {
        return Kept::Nothing;
    };
    match desc {
        DescUse::Called(params, ret) => Kept::Method(
            is_init,
            CallUse {
                owner,
                params,
                ret,
                member,
            },
        ),
        _ => Kept::Member(member),
    }
}

/// What a Fieldref stands for.
fn field_entry(
    alloc: Global,
    p: &NamedProgram,
    texts: Texts<'_>,
    class: u16,
    both: u16,
) -> Result<Kept, AllocError>
    requires layered { IsLayered p.now }
    requires descs { AreDescs p.now texts.types.now texts.pool.now texts.descs.now }
    ensures { IfOk result (λ k. KeptIs p.now texts.entry.pool.now texts.entry.types.now k (Some (Entry.Field class both))) }
{
    let Some((name, desc)) = texts.pool.name_and_type(both) else {
        return Ok(Kept::Nothing);
    };
    let class = class_text(texts.pool, class);
    let Some(owner) = class_there(p, class) else {
        return Ok(Kept::Nothing);
    };
    let member = p.resolve_field(
        alloc,
        class,
        text_at(texts.pool, name),
        text_at(texts.pool, desc),
    )?;
    Ok(field_kept(owner, member, desc_at(texts.descs, desc)))
}

/// What a Methodref or an InterfaceMethodref stands for.
fn method_entry(
    alloc: Global,
    p: &NamedProgram,
    texts: Texts<'_>,
    class: u16,
    both: u16,
) -> Result<Kept, AllocError>
    requires layered { IsLayered p.now }
    requires descs { AreDescs p.now texts.types.now texts.pool.now texts.descs.now }
    ensures { IfOk result (λ k. KeptIs p.now texts.entry.pool.now texts.entry.types.now k (Some (Entry.Method class both))) }
{
    let Some((name, desc)) = texts.pool.name_and_type(both) else {
        return Ok(Kept::Nothing);
    };
    let class = class_text(texts.pool, class);
    let Some(owner) = class_there(p, class) else {
        return Ok(Kept::Nothing);
    };
    let name = text_at(texts.pool, name);
    let member = p.resolve_method(alloc, class, name, text_at(texts.pool, desc))?;
    let is_init = name == INIT;
    Ok(method_kept(is_init, owner, member, desc_at(texts.descs, desc)))
}

// ---- entries

fn class_entry(
    alloc: Global,
    p: &NamedProgram,
    texts: Texts<'_>,
    name: u16,
) -> Result<Kept, AllocError>
    ensures { IfOk result (λ k. KeptIs p.now texts.entry.pool.now texts.entry.types.now k (Some (Entry.Class name))) }
{
    let Some(text) = texts.pool.utf8(name) else {
        return Ok(Kept::Nothing);
    };
    let Some(class) = class_type(alloc, p, text)? else {
        return Ok(Kept::Nothing);
    };
    Ok(Kept::Class(class))
}

fn class_kept(classes: &BTreeMap<u16, Kept>, name: u16) -> Option<Kept>
    ensures { result ≡ tree.get nat_cmp classes.now name }
{
    classes.get(&name).copied()
}

/// The same for all class entries that name one text.
fn class_once(
    alloc: Global,
    p: &NamedProgram,
    texts: Texts<'_>,
    classes: &mut BTreeMap<u16, Kept>,
    name: u16,
) -> Result<Kept, AllocError>
    requires { AreClasses p.now texts.pool.now texts.types.now classes.old }
    ensures value { IfOk result (λ k. KeptIs p.now texts.entry.pool.now texts.entry.types.now k (Some (Entry.Class name))) }
    ensures kept { OnOk result (AreClasses p.now texts.entry.pool.now texts.entry.types.now classes.new) }
{
    if let Some(one) = class_kept(classes, name) {
        return Ok(one);
    }
    let one = class_entry(alloc, p, texts, name)?;
    classes.insert(name, one)?;
    Ok(one)
}

/// What a reference stands for.
fn reference_entry(
    alloc: Global,
    p: &NamedProgram,
    texts: Texts<'_>,
    to: Refers,
    class: u16,
    both: u16,
) -> Result<Kept, AllocError>
    requires layered { IsLayered p.now }
    requires descs { AreDescs p.now texts.types.now texts.pool.now texts.descs.now }
    ensures { IfOk result (λ k. KeptIs p.now texts.entry.pool.now texts.entry.types.now k (Some (EntryTextCache.entry_of to class both))) }
{
    match to {
        Refers::ToField => field_entry(alloc, p, texts, class, both),
        Refers::ToMethod => method_entry(alloc, p, texts, class, both),
    }
}

/// The same for all references that name the same texts: it is resolved once.
fn reference_once(
    alloc: Global,
    p: &NamedProgram,
    texts: Texts<'_>,
    references: &mut BTreeMap<u64, KeptReference>,
    to: Refers,
    class: u16,
    both: u16,
) -> Result<Kept, AllocError>
    requires layered { IsLayered p.now }
    requires descs { AreDescs p.now texts.types.now texts.pool.now texts.descs.now }
    requires noted { AreNoted p.now texts.pool.now texts.types.now references.old }
    ensures value { IfOk result (λ k. KeptIs p.now texts.entry.pool.now texts.entry.types.now k (Some (EntryTextCache.entry_of to class both))) }
    ensures kept { OnOk result (AreNoted p.now texts.entry.pool.now texts.entry.types.now references.new) }
{
    let Some(at) = Indices::of(texts.pool, class, both) else {
        return reference_entry(alloc, p, texts, to, class, both);
    };
    if let Some(found) = noted_of(references, to, at) {
        return Ok(found.kept);
    }
    let kept = reference_entry(alloc, p, texts, to, class, both)?;
    note(references, KeptReference { to, at, kept })?;
    Ok(kept)
}

#[tactic(auto, unfolding(crate::specs::juses::InstructionMeanings::entry_meant))]
fn entry_of(
    alloc: Global,
    p: &NamedProgram,
    texts: Texts<'_>,
    classes: &mut BTreeMap<u16, Kept>,
    references: &mut BTreeMap<u64, KeptReference>,
    entry: &Entry,
) -> Result<Kept, AllocError>
    requires layered { IsLayered p.now }
    requires descs { AreDescs p.now texts.types.now texts.pool.now texts.descs.now }
    requires known { AreKnown p.now texts.pool.now texts.types.now classes.old references.old }
    ensures value { IfOk result (λ k. KeptIs p.now texts.entry.pool.now texts.entry.types.now k (Some entry.now)) }
    ensures kept { OnOk result (AreKnown p.now texts.entry.pool.now texts.entry.types.now classes.new references.new) }
{
    match entry {
        Entry::Integer(n) => Ok(Kept::Constant(Constant::Int(*n))),
        Entry::Long(n) => Ok(Kept::Constant(Constant::Long(*n))),
        Entry::Str(text) => Ok(Kept::Constant(Constant::Text(*text))),
        Entry::Class(name) => class_once(alloc, p, texts, classes, *name),
        Entry::Field(class, both) => {
            reference_once(alloc, p, texts, references, Refers::ToField, *class, *both)
        }
        Entry::Method(class, both) => {
            reference_once(alloc, p, texts, references, Refers::ToMethod, *class, *both)
        }
        Entry::InterfaceMethod(class, both) => {
            reference_once(alloc, p, texts, references, Refers::ToMethod, *class, *both)
        }
        _ => Ok(Kept::Nothing),
    }
}

fn entries_by(
    alloc: Global,
    p: &NamedProgram,
    pool: &Pool,
    descs: &[DescUse],
    types: &[TypeRef],
) -> Result<Seq<Kept>, AllocError>
    requires layered { IsLayered p.now }
    requires descs { AreDescs p.now types.now pool.now descs.now }
    ensures { IfOk result (λ all. AreKept p.now pool.now types.now pool.now all) }
{
    let texts = Texts { pool, descs, types };
    let mut classes = BTreeMap::new(alloc);
    let mut references = BTreeMap::new(alloc);
    let mut all = Seq::new(alloc);
    for entry in pool.entries() {
        let one = entry_of(alloc, p, texts, &mut classes, &mut references, entry)?;
        all.push(one)?;
    }
    Ok(all)
}

/// What the entries of a pool stand for. Those that name the same texts are looked at once. The types of parameters are put behind others.
pub(crate) fn entries_of(
    alloc: Global,
    p: &NamedProgram,
    types: &mut Seq<TypeRef>,
    pool: &Pool,
) -> Result<Seq<Kept>, AllocError>
    requires { IsLayered p.now }
    ensures { IfOk result (λ all. AreKept p.now pool.now types.new pool.now all × Grows types.old types.new) }
{
    let descs = descs_of(alloc, p, types, pool.entries())?;
    entries_by(alloc, p, pool, descs.as_slice(), types.as_slice())
}
