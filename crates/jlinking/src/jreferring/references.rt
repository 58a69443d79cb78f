ghost use Rattle.std.specs.Prelude.{◌≡◌, IfOk, option_map};
ghost use Rattle.std.specs.List.{list_any};
ghost use Rattle.jground.specs.jbase.FirstFaults.{or_else};
ghost use Rattle.jresolution.specs.jprogram.MemberResolution;
ghost use Rattle.jlinking.specs.jreferring.ReferenceUses;
ghost use Rattle.jlinking.specs.ProofNames;

use crate::jreferring::judged::{DescUse, MemberFacts, MemberUse, OwnerUse, Sort};
use crate::jreferring::names::{desc_test, descriptor_in, is_array, type_named, type_test};
use jparts::jpool::{Descriptor, FieldType, method_slots};
use jresolution::jprogram::{LinkKind, Member, NamedProgram, Reach, is_context};
use std::alloc::{AllocError, Global};

/// The texts of a reference: the name of its class, its own name, and its descriptor.
#[derive(Clone, Copy)]
pub struct Texts<'a> {
    pub owner: &'a [u8],
    pub name: &'a [u8],
    pub desc: &'a [u8],
}

const INIT: &[u8] = b"<init>";

const RT: &[u8] = b"sps/Rt";

const ENTER: &[u8] = b"enter";

const ENTER_DESC: &[u8] = b"(Lsps/Ctx;I)Lsps/Ctx;";

// ---- contexts in descriptors

/// Whether this is the one method that returns a context.
fn is_enter(texts: Texts<'_>) -> bool
    ensures { result ≡ ReferenceUses.is_enter texts.entry.owner.now texts.entry.name.now texts.entry.desc.now }
{
    texts.owner == RT && texts.name == ENTER && texts.desc == ENTER_DESC
}

fn has_contexts(one: &FieldType) -> bool
    ensures { result ≡ ReferenceUses.has_contexts one.now }
{
    is_array(one) && is_context(one)
}

fn take_contexts(params: &[FieldType]) -> bool
    ensures { result ≡ list_any ReferenceUses.has_contexts params.now }
{
    params.iter().any(|one| has_contexts(one))
}

fn gives_context(ret: &Option<FieldType>) -> bool
    ensures { result ≡ ReferenceUses.gives_context ret.now }
{
    match ret {
        Some(one) => is_context(one),
        None => false,
    }
}

/// Whether a descriptor has a context where none may stand.
fn misplaces_context(enter: bool, desc: &Option<Descriptor>) -> bool
    ensures { result ≡ ReferenceUses.misplaces_context enter desc.now }
{
    match desc {
        Some(Descriptor::Field(one)) => is_context(one),
        Some(Descriptor::Method { params, ret }) => {
            take_contexts(params.as_slice()) || (!enter && gives_context(ret))
        }
        None => false,
    }
}

// ---- a reference

fn is_of_interface(sort: Sort) -> bool
    ensures { result ≡ ProofNames.is_of_interface sort }
{
    matches!(sort, Sort::InterfaceMethod)
}

fn is_crossed(sort: Sort, interface: bool) -> bool
    ensures { result ≡ ReferenceUses.is_crossed sort interface }
{
    match sort {
        Sort::Field => false,
        Sort::Method => interface,
        Sort::InterfaceMethod => !interface,
    }
}

fn is_private(reach: Reach) -> bool
    ensures { result ≡ MemberResolution.is_private reach }
{
    matches!(reach, Reach::Private)
}

fn facts_of(program: &NamedProgram, from: &[u8], member: Member) -> MemberFacts
    ensures { result ≡ ReferenceUses.facts_of program.now from.now member }
{
    MemberFacts {
        allowed: program.may_use(from, member),
        fixed: program.is_final(member) && program.owner_of(member) != from,
        is_static: program.is_static(member),
        is_private: is_private(program.reach_of(member)),
    }
}

fn facts_in(program: &NamedProgram, from: &[u8], member: Option<Member>) -> Option<MemberFacts>
    ensures { result ≡ option_map (ReferenceUses.facts_of program.now from.now) member }
{
    match member {
        Some(member) => Some(facts_of(program, from, member)),
        None => None,
    }
}

fn names_test(owner: &OwnerUse, desc: &DescUse) -> Option<LinkKind>
    ensures { result ≡ or_else owner.now.names desc.now.names }
{
    if let Some(kind) = owner.names {
        return Some(kind);
    }
    desc.names
}

/// Whether a reference is of an array, or has a context where none may stand.
fn is_barred(owner: &OwnerUse, enter: bool, desc: &DescUse) -> bool
    ensures { result ≡ ReferenceUses.is_barred_by owner.now enter desc.now }
{
    if owner.array {
        return true;
    }
    if enter {
        return desc.misplaced_at_enter;
    }
    desc.misplaced
}

/// What the class that a reference names may be used for.
pub fn owner_use(
    alloc: Global,
    program: &NamedProgram,
    from: &[u8],
    owner: &[u8],
) -> Result<OwnerUse, AllocError>
    ensures { IfOk result (λ u. u ≡ ReferenceUses.owner_use program.now from.now owner.now) }
{
    let one = type_named(alloc, owner)?;
    Ok(OwnerUse {
        names: type_test(program, from, &one),
        array: is_array(&one),
        interface: program.is_interface(owner),
        upward: program.extends(from, owner),
    })
}

/// What the descriptor that a reference names may be used for.
pub fn desc_use(
    alloc: Global,
    program: &NamedProgram,
    from: &[u8],
    text: &[u8],
) -> Result<DescUse, AllocError>
    ensures { IfOk result (λ u. u ≡ ReferenceUses.desc_use program.now from.now text.now) }
{
    let desc = descriptor_in(alloc, text)?;
    Ok(DescUse {
        names: desc_test(program, from, &desc),
        misplaced: misplaces_context(false, &desc),
        misplaced_at_enter: misplaces_context(true, &desc),
        slots: method_slots(text),
    })
}

/// What a reference may be used for, which has these texts and stands for this member: by what its class and its descriptor may be.
pub fn member_use(
    program: &NamedProgram,
    from: &[u8],
    sort: Sort,
    member: Option<Member>,
    texts: Texts<'_>,
    owner: OwnerUse,
    desc: DescUse,
) -> MemberUse
    requires owner { owner ≡ ReferenceUses.owner_use program.now from.now texts.owner.now }
    requires desc { desc ≡ ReferenceUses.desc_use program.now from.now texts.desc.now }
    ensures { result ≡ ReferenceUses.member_use program.now from.now sort member texts.entry.owner.now texts.entry.name.now texts.entry.desc.now }
{
    let enter = is_enter(texts);
    MemberUse {
        names: names_test(&owner, &desc),
        barred: is_barred(&owner, enter, &desc),
        of_interface: is_of_interface(sort),
        crossed: is_crossed(sort, owner.interface),
        upward: owner.upward,
        init: texts.name == INIT,
        slots: desc.slots,
        member: facts_in(program, from, member),
    }
}
