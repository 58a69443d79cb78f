ghost use Rattle.std.specs.Prelude.{◌≡◌, ◌≤◌, ◌++◌, ◌∷◌, [], List, IfOk, length};
ghost use Rattle.jclass.specs.declared.class.MemberInfo.{MemberInfo as Info};
ghost use Rattle.jlinking.specs.jmembers.MemberDeclarations;
ghost use Rattle.jlinking.specs.ProofNames;
ghost use Rattle.jlinking.specs.jmembers.MemberSets.{HasMet};

use crate::jmembers::class_texts::ClassTexts;
use jclass::{ClassFile, MemberInfo};
use jresolution::jprogram::{LinkFault, LinkKind, NamedProgram};
use std::alloc::{AllocError, Global};
use std::collections::BTreeSet;

fn method_test(
    alloc: Global,
    texts: &ClassTexts<'_>,
    met: &mut BTreeSet<(usize, usize)>,
    k: u32,
    method: &MemberInfo,
) -> Result<Option<LinkKind>, AllocError>
    ensures { (before : List Info) → HasMet texts.now.class before met.old
        → IfOk result (λ o. (o ≡ MemberDeclarations.method_test texts.now.program texts.now.place texts.now.class before k method.now)
        × HasMet texts.now.class (before ++ method.now ∷ []) met.new) }
{
    if let Some(kind) = texts.again_test(met, method)? {
        return Ok(Some(kind));
    }
    if let Some(kind) = texts.method_left_out_test(method) {
        return Ok(Some(kind));
    }
    if let Some(kind) = texts.types_test(method) {
        return Ok(Some(kind));
    }
    if let Some(kind) = texts.library_test(method) {
        return Ok(Some(kind));
    }
    let last = texts.final_test(alloc, k, method)?;
    Ok(last)
}

fn field_test(
    texts: &ClassTexts<'_>,
    met: &mut BTreeSet<(usize, usize)>,
    field: &MemberInfo,
) -> Result<Option<LinkKind>, AllocError>
    ensures { (before : List Info) → HasMet texts.now.class before met.old
        → IfOk result (λ o. (o ≡ MemberDeclarations.field_test texts.now.program texts.now.class before field.now)
        × HasMet texts.now.class (before ++ field.now ∷ []) met.new) }
{
    if let Some(kind) = texts.again_test(met, field)? {
        return Ok(Some(kind));
    }
    if let Some(kind) = texts.field_left_out_test(field) {
        return Ok(Some(kind));
    }
    Ok(texts.types_test(field))
}

/// A fault of the member of a number.
fn at_member(class: u32, member: u32, kind: Option<LinkKind>) -> Option<LinkFault>
    ensures { result ≡ MemberDeclarations.at_member class member kind }
{
    match kind {
        Some(kind) => Some(LinkFault {
            class,
            member: Some(member),
            kind,
        }),
        None => None,
    }
}

fn method_fault(
    alloc: Global,
    texts: &ClassTexts<'_>,
    met: &mut BTreeSet<(usize, usize)>,
    k: u32,
    method: &MemberInfo,
) -> Result<Option<LinkFault>, AllocError>
    ensures { (before : List Info) → HasMet texts.now.class before met.old
        → IfOk result (λ o. (o ≡ MemberDeclarations.at_member texts.now.place k
        (MemberDeclarations.method_test texts.now.program texts.now.place texts.now.class before k method.now))
        × HasMet texts.now.class (before ++ method.now ∷ []) met.new) }
{
    let kind = method_test(alloc, texts, met, k, method)?;
    Ok(at_member(texts.place(), k, kind))
}

fn field_fault(
    texts: &ClassTexts<'_>,
    met: &mut BTreeSet<(usize, usize)>,
    member: u32,
    field: &MemberInfo,
) -> Result<Option<LinkFault>, AllocError>
    ensures { (before : List Info) → HasMet texts.now.class before met.old
        → IfOk result (λ o. (o ≡ MemberDeclarations.at_member texts.now.place member
        (MemberDeclarations.field_test texts.now.program texts.now.class before field.now))
        × HasMet texts.now.class (before ++ field.now ∷ []) met.new) }
{
    let kind = field_test(texts, met, field)?;
    Ok(at_member(texts.place(), member, kind))
}

#[tactic(auto, unfolding(crate::specs::jmembers::MemberDeclarations::methods_fault))]
fn methods_fault(alloc: Global, texts: &ClassTexts<'_>) -> Result<Option<LinkFault>, AllocError>
    requires { length texts.now.class.methods ≤ 0xffff }
    ensures { IfOk result (λ o. o ≡ MemberDeclarations.methods_fault texts.now.program texts.now.place texts.now.class) }
{
    let mut met = BTreeSet::new(alloc);
    let methods = texts.class().methods.as_slice();
    for (k, method) in methods.iter().enumerate() {
        if let Some(fault) = method_fault(alloc, texts, &mut met, k as u32, method)? {
            return Ok(Some(fault));
        }
    }
    Ok(None)
}

#[tactic(auto, unfolding(crate::specs::jmembers::MemberDeclarations::fields_fault))]
fn fields_fault(alloc: Global, texts: &ClassTexts<'_>) -> Result<Option<LinkFault>, AllocError>
    requires methods { length texts.now.class.methods ≤ 0xffff }
    requires fields { length texts.now.class.fields ≤ 0xffff }
    ensures { IfOk result (λ o. o ≡ MemberDeclarations.fields_fault texts.now.program texts.now.place texts.now.class) }
{
    let mut met = BTreeSet::new(alloc);
    let first = texts.class().methods.as_slice().len();
    let fields = texts.class().fields.as_slice();
    for (k, field) in fields.iter().enumerate() {
        if let Some(fault) = field_fault(texts, &mut met, (first + k) as u32, field)? {
            return Ok(Some(fault));
        }
    }
    Ok(None)
}

fn class_fault(
    alloc: Global,
    program: &NamedProgram,
    place: u32,
    class: &ClassFile,
) -> Result<Option<LinkFault>, AllocError>
    ensures { IfOk result (λ o. o ≡ ProofNames.class_fault program.now place class.now) }
{
    let texts = ClassTexts::of(alloc, program, place, class.parts())?;
    if let Some(fault) = methods_fault(alloc, &texts)? {
        return Ok(Some(fault));
    }
    fields_fault(alloc, &texts)
}

/// The first member that a class of a program may not declare: the place of its class, and its own among the methods, or past them among
/// the fields. A class's methods come first, and of a member the first of these:
/// - `Twice`: an earlier method, or an earlier field, has its name and descriptor;
/// - `LeftOut`: the machine doesn't have it (class initializers, native and synchronized methods, methods of interfaces that have code,
///   instance fields of interfaces, floating-point types, contexts elsewhere than as parameters, descriptors too long for a context);
/// - `NoClass`: its descriptor names a class that isn't there;
/// - `OverridesLibrary`: the library doesn't let a class have such a method;
/// - `FinalMethod`: it overrides a final method (JVMS 5.4.5).
#[tactic(auto, unfolding(jground::specs::jbase::FirstFaults::first_along, crate::specs::jmembers::MemberDeclarations::members_fault))]
pub fn members_fault(alloc: Global, program: &NamedProgram) -> Result<Option<LinkFault>, AllocError>
    ensures { IfOk result (λ o. o ≡ MemberDeclarations.members_fault program.now) }
{
    let parts = program.parts();
    for (i, part) in parts.iter().enumerate() {
        if let Some(fault) = class_fault(alloc, program, i as u32, &part.class)? {
            return Ok(Some(fault));
        }
    }
    Ok(None)
}
