ghost use Rattle.std.specs.Prelude.{◌≡◌, [], None, IfOk, OnOk, map};
ghost use Rattle.jresolution.specs.jprogram.InterfaceSearch.{IsLayered};
ghost use Rattle.jresolution.specs.jprogram.ClassFileParts;
ghost use Rattle.jlinking.specs.jreferring.PoolEntryMeanings;
ghost use Rattle.jlinking.specs.jreferring.PoolTextCache.{AreKnown};
ghost use Rattle.jlinking.specs.jreferring.MemberLookUp;
ghost use Rattle.jlinking.specs.jreferring.ClassEntryUses.{class_use};
ghost use Rattle.jlinking.specs.jreferring.ReferenceUses;

use crate::jreferring::judged::{Judged, MemberUse, Sort};
use crate::jreferring::references::{Texts, desc_use, member_use, owner_use};
use crate::jreferring::use_cache::{Home, UseCache, class_at, named_at, nothing, resolved};
use jclass::ClassParts;
use jparts::jpool::Entry;
use jresolution::jprogram::{Member, NamedProgram, class_text, text_at, this_name};
use jresolution::juses::Indices;
use std::alloc::{AllocError, Global};

/// What a reference that has these texts, and stands for this member, may be used for.
fn use_by_texts(
    alloc: Global,
    home: Home<'_>,
    sort: Sort,
    member: Option<Member>,
    texts: Texts<'_>,
) -> Result<MemberUse, AllocError>
    ensures { IfOk result (λ u. u ≡ ReferenceUses.member_use home.entry.program.now home.entry.from.now sort member
        texts.entry.owner.now texts.entry.name.now texts.entry.desc.now) }
{
    let owner = owner_use(alloc, home.program, home.from, texts.owner)?;
    let desc = desc_use(alloc, home.program, home.from, texts.desc)?;
    Ok(member_use(home.program, home.from, sort, member, texts, owner, desc))
}

/// What a reference may be used for that has no name and type.
fn nameless_use(
    alloc: Global,
    home: Home<'_>,
    sort: Sort,
    owner: &[u8],
) -> Result<MemberUse, AllocError>
    ensures { IfOk result (λ u. u ≡ ReferenceUses.member_use home.entry.program.now home.entry.from.now sort None owner.now [] []) }
{
    let texts = Texts {
        owner,
        name: &[],
        desc: &[],
    };
    use_by_texts(alloc, home, sort, None, texts)
}

/// What a reference may be used for that has these texts.
#[tactic(auto, unfolding(crate::specs::jreferring::MemberLookUp::named_use))]
fn named_use(
    alloc: Global,
    home: Home<'_>,
    sort: Sort,
    texts: Texts<'_>,
) -> Result<MemberUse, AllocError>
    requires { IsLayered home.program.now }
    ensures { IfOk result (λ u. u
        ≡ MemberLookUp.named_use home.entry.program.now home.entry.from.now sort texts.entry.owner.now texts.entry.name.now texts.entry.desc.now) }
{
    let member = resolved(alloc, home.program, sort, texts)?;
    use_by_texts(alloc, home, sort, member, texts)
}

/// What a reference may be used for that isn't one to a Class entry and a NameAndType entry.
#[tactic(auto, using(crate::proofs::JreferringProofs::IndexedReferences::reference_named, crate::proofs::JreferringProofs::IndexedReferences::reference_nameless,),)]
fn odd_reference(
    alloc: Global,
    home: Home<'_>,
    sort: Sort,
    class: u16,
    both: u16,
) -> Result<MemberUse, AllocError>
    requires { IsLayered home.program.now }
    ensures { IfOk result (λ u. u ≡ PoolEntryMeanings.reference home.entry.program.now home.entry.from.now home.entry.pool.now sort class both) }
{
    let owner = class_text(home.pool, class);
    let Some((name, desc)) = home.pool.name_and_type(both) else {
        return nameless_use(alloc, home, sort, owner);
    };
    let texts = Texts {
        owner,
        name: text_at(home.pool, name),
        desc: text_at(home.pool, desc),
    };
    named_use(alloc, home, sort, texts)
}

/// What a reference may be used for, by the indices of its class and of its name and type.
#[tactic(auto, using(crate::proofs::JreferringProofs::IndexedReferences::reference_at))]
fn reference(
    alloc: Global,
    home: Home<'_>,
    known: &mut UseCache,
    sort: Sort,
    class: u16,
    both: u16,
) -> Result<MemberUse, AllocError>
    requires layered { IsLayered home.program.now }
    requires known { AreKnown home.program.now home.from.now home.pool.now known.old }
    ensures value { IfOk result
        (λ u. u ≡ PoolEntryMeanings.reference home.entry.program.now home.entry.from.now home.entry.pool.now sort class both) }
    ensures kept { OnOk result (AreKnown home.entry.program.now home.entry.from.now home.entry.pool.now known.new) }
{
    let Some(at) = Indices::of(home.pool, class, both) else {
        return odd_reference(alloc, home, sort, class, both);
    };
    named_at(alloc, home, known, sort, at)
}

fn member(
    alloc: Global,
    home: Home<'_>,
    known: &mut UseCache,
    sort: Sort,
    class: u16,
    both: u16,
) -> Result<Judged, AllocError>
    requires layered { IsLayered home.program.now }
    requires known { AreKnown home.program.now home.from.now home.pool.now known.old }
    ensures value { IfOk result (λ j. j
        ≡ Judged.Member (PoolEntryMeanings.reference home.entry.program.now home.entry.from.now home.entry.pool.now sort class both)) }
    ensures kept { OnOk result (AreKnown home.entry.program.now home.entry.from.now home.entry.pool.now known.new) }
{
    let one = reference(alloc, home, known, sort, class, both)?;
    Ok(Judged::Member(one))
}

fn class(
    alloc: Global,
    home: Home<'_>,
    known: &mut UseCache,
    name: u16,
) -> Result<Judged, AllocError>
    requires { AreKnown home.program.now home.from.now home.pool.now known.old }
    ensures value { IfOk result (λ j. j
        ≡ Judged.Class (class_use home.entry.program.now home.entry.from.now (ClassFileParts.text home.entry.pool.now name))) }
    ensures kept { OnOk result (AreKnown home.entry.program.now home.entry.from.now home.entry.pool.now known.new) }
{
    let one = class_at(alloc, home, &mut known.classes, name)?;
    Ok(Judged::Class(one))
}

/// What an entry stands for.
#[tactic(auto, unfolding(crate::specs::jreferring::PoolEntryMeanings::judge))]
fn judge(
    alloc: Global,
    home: Home<'_>,
    known: &mut UseCache,
    one: &Entry,
) -> Result<Judged, AllocError>
    requires layered { IsLayered home.program.now }
    requires known { AreKnown home.program.now home.from.now home.pool.now known.old }
    ensures value { IfOk result (λ j. j ≡ PoolEntryMeanings.judge home.entry.program.now home.entry.from.now home.entry.pool.now one.now) }
    ensures kept { OnOk result (AreKnown home.entry.program.now home.entry.from.now home.entry.pool.now known.new) }
{
    match one {
        Entry::Integer(_) => Ok(Judged::Constant),
        Entry::Str(_) => Ok(Judged::Constant),
        Entry::Long(_) => Ok(Judged::LongConstant),
        Entry::Class(name) => class(alloc, home, known, *name),
        Entry::Field(of, both) => member(alloc, home, known, Sort::Field, *of, *both),
        Entry::Method(of, both) => member(alloc, home, known, Sort::Method, *of, *both),
        Entry::InterfaceMethod(of, both) => {
            member(alloc, home, known, Sort::InterfaceMethod, *of, *both)
        }
        _ => Ok(Judged::Other),
    }
}

fn judge_all(alloc: Global, home: Home<'_>, entries: &[Entry]) -> Result<Vec<Judged>, AllocError>
    requires { IsLayered home.program.now }
    ensures { IfOk result
        (λ table. table.items ≡ map (PoolEntryMeanings.judge home.entry.program.now home.entry.from.now home.entry.pool.now) entries.now) }
{
    let mut known = nothing(alloc);
    let mut table = Vec::new(alloc);
    for one in entries {
        let judged = judge(alloc, home, &mut known, one)?;
        table.push(judged)?;
    }
    Ok(table)
}

/// What the entries of a class's pool stand for, by their indices. Each text is looked at once as what entries name it for, and references
/// of the same texts are resolved once.
pub fn judge_pool(
    alloc: Global,
    program: &NamedProgram,
    class: &ClassParts,
) -> Result<Vec<Judged>, AllocError>
    requires { IsLayered program.now }
    ensures { IfOk result (λ table. table.items ≡ PoolEntryMeanings.judge_pool program.now class.now) }
{
    let home = Home {
        program,
        from: this_name(class),
        pool: &class.pool,
    };
    judge_all(alloc, home, class.pool.entries())
}
