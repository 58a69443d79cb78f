ghost use Rattle.std.specs.Prelude.{◌≡◌, ◌||◌, [], ℕ, List, IfOk, OnOk};
ghost use Rattle.jresolution.specs.jprogram.ProgramClasses;
ghost use Rattle.jresolution.specs.jprogram.MemberDigests.{IsKey};
ghost use Rattle.jresolution.specs.jprogram.MemberResolution;
ghost use Rattle.jresolution.specs.jprogram.ClassFileParts;
ghost use Rattle.jresolution.specs.jprogram.OverrideChains;
ghost use Rattle.jlinking.specs.jmembers.MemberDeclarations;
ghost use Rattle.jlinking.specs.jmembers.FinalOverrides.{Looks, bars, has, shows};

use crate::jmembers::class_texts::ClassTexts;
use crate::jmembers::numbers::note;
use jclass::MemberInfo;
use jresolution::jprogram::{
    Key, LinkKind, Member, MethodId, NamedProgram, Reach, key_of, member_desc, member_name,
    package_of, same_package, super_name,
};
use std::alloc::{AllocError, Global};
use std::collections::BTreeMap;

fn is_shown(reach: Reach) -> bool
    ensures { result ≡ OverrideChains.is_shown reach }
{
    matches!(reach, Reach::Public | Reach::Protected)
}

fn is_private(reach: Reach) -> bool
    ensures { result ≡ MemberResolution.is_private reach }
{
    matches!(reach, Reach::Private)
}

/// Whether a method is an instance method and isn't private.
fn is_instance(program: &NamedProgram, method: Member) -> bool
    ensures { result ≡ OverrideChains.is_instance program.now method }
{
    if program.is_static(method) {
        return false;
    }
    !is_private(program.reach_of(method))
}

/// Whether a method is a final instance method.
fn is_sealed(program: &NamedProgram, method: Member) -> bool
    ensures { result ≡ MemberDeclarations.is_sealed program.now method }
{
    program.is_final(method) && !program.is_static(method)
}

/// Whether a method overrides one above it, where it is known in which packages those between are shown.
#[tactic(auto, unfolding(jresolution::specs::jprogram::OverrideChains::overrides_by))]
fn overrides(
    program: &NamedProgram,
    below: Member,
    shown: &BTreeMap<Vec<u8>, usize>,
    above: Member,
) -> bool
    ensures { result ≡ OverrideChains.overrides_by program.now below
        (has shown.now (ClassFileParts.package_of (MemberResolution.owner_of program.now above))) above }
{
    if !is_instance(program, below) {
        return false;
    }
    match program.reach_of(above) {
        Reach::Public => true,
        Reach::Protected => true,
        Reach::Package => {
            if same_package(program.owner_of(below), program.owner_of(above)) {
                return true;
            }
            shown.contains_key(package_of(program.owner_of(above)))
        }
        Reach::Private => false,
    }
}

/// Keeps the package of a method that is shown beyond it, with the step at which the walk met it.
fn show(
    alloc: Global,
    program: &NamedProgram,
    shown: &mut BTreeMap<Vec<u8>, usize>,
    method: Member,
    step: usize,
) -> Result<(), AllocError>
    ensures { OnOk result ((q : List ℕ) → has shown.new q ≡ (has shown.old q || shows program.now method q)) }
{
    if !is_instance(program, method) {
        return Ok(());
    }
    if !is_shown(program.reach_of(method)) {
        return Ok(());
    }
    note(alloc, shown, package_of(program.owner_of(method)), step)
}

/// Looks at the method of a class above, if there is one: whether it is final and overridden. If not, it is between from now on.
fn look_at(
    alloc: Global,
    program: &NamedProgram,
    below: Member,
    shown: &mut BTreeMap<Vec<u8>, usize>,
    above: Option<Member>,
    step: usize,
) -> Result<bool, AllocError>
    ensures { IfOk result (Looks program.now below above shown.old shown.new) }
{
    let Some(above) = above else {
        return Ok(false);
    };
    if is_sealed(program, above) && overrides(program, below, shown, above) {
        return Ok(true);
    }
    show(alloc, program, shown, above, step)?;
    Ok(false)
}

/// Whether a method overrides a final one of its name and descriptor in a class or above it. The walk upwards is made once: of the
/// methods that it went through it keeps the packages in which they are shown.
fn overrides_final(
    alloc: Global,
    program: &NamedProgram,
    below: Member,
    key: Key<'_>,
    from: &[u8],
) -> Result<bool, AllocError>
    requires { IsKey key }
    ensures { IfOk result (λ b. b ≡ MemberDeclarations.overrides_final program.now below []
        (MemberResolution.methods_along program.now key.entry.name.now key.entry.desc.now (ProgramClasses.up program.now from.now))) }
{
    let mut shown = BTreeMap::new(alloc);
    let mut at = program.at(from);
    let steps = program.most_steps();
    for step in 0..steps {
        let above = program.method_here(key, at);
        if look_at(alloc, program, below, &mut shown, above, step)? {
            return Ok(true);
        }
        match program.above_at(at) {
            None => return Ok(false),
            Some(above) => at = above,
        }
    }
    Ok(false)
}

impl<'a> ClassTexts<'a> {
    /// FinalMethod where an instance method, constructors aside, overrides a final instance method of a class above. The method is told
    /// by its place too.
    #[tactic(auto, unfolding(crate::specs::jmembers::MemberDeclarations::final_test, crate::specs::jmembers::MemberDeclarations::overrides_final))]
    pub fn final_test(
        &self,
        alloc: Global,
        k: u32,
        method: &MemberInfo,
    ) -> Result<Option<LinkKind>, AllocError>
        ensures { IfOk result (λ o. o ≡ MemberDeclarations.final_test self.now.program self.now.place self.now.class k method.now) }
    {
        let class = self.class();
        let name = member_name(class, method);
        if name == b"<init>".as_slice() {
            return Ok(None);
        }
        let Some(above) = super_name(class) else {
            return Ok(None);
        };
        let below = Member::Method(MethodId {
            class: self.place(),
            method: k,
        });
        let key = key_of(name, member_desc(class, method));
        if overrides_final(alloc, self.program(), below, key, above)? {
            return Ok(Some(LinkKind::FinalMethod));
        }
        Ok(None)
    }
}
