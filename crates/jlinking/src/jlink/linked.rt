ghost use Rattle.std.specs.Prelude.{◌≡◌, IfErr, IfOk, MatchBool, MatchResult, None, Some, option_map};
ghost use Rattle.jresolution.specs.jprogram.ProgramClasses;
ghost use Rattle.jresolution.specs.jprogram.ProgramClasses.{program};
ghost use Rattle.jresolution.specs.jprogram.MemberResolution;
ghost use Rattle.jlinking.specs.jlink.LinkedPrograms;
ghost use Rattle.jlinking.specs.jlink.LinkedPrograms.{AreParts, LinkErrorIs, Links};
ghost use Rattle.jlinking.specs.jlink.CodeReferences.{IsReferred};
ghost use Rattle.jresolution.specs.declared.jprogram.part.ClassRef.TheVariants as refs;
ghost use Rattle.jresolution.specs.jprogram.ImplementedInterfaces.{AreInterfaces};
ghost use Rattle.jresolution.specs.juses.EntryUses.{AreUses};

use crate::jlink::error::LinkError;
use crate::jlink::phases::link_fault;
use jlib::Side;
use jresolution::jprogram::{
    CallKind, ClassId, ClassRef, CodePart, Interfaces, Member, MethodId, NamedProgram, Selected,
};
use jresolution::juses::Uses;
use jtypes::Name;
use std::alloc::{AllocError, AllocFailed, Global};
use std::marker::Model;

/// A program that links: no rule of linking is broken in it (JVMS 5.4). Only [`link`] and [`link_or_return`] make one. Contracts see it as
/// its side and its parts.
#[derive(Drop)]
pub struct LinkedProgram {
    program: NamedProgram,
    /// Which interfaces its classes implement.
    interfaces: Interfaces,
    /// What the entries of its pools stand for.
    uses: Uses,
}

impl Model for LinkedProgram {
    ghost use Rattle.jresolution.specs.jprogram.ProgramClasses.{Program};
    ghost use Rattle.jlinking.specs.jlink.LinkedPrograms.{Links};
    ghost use Rattle.jresolution.specs.jprogram.ImplementedInterfaces.{AreInterfaces};
    ghost use Rattle.jresolution.specs.juses.EntryUses.{AreUses};

    ghost Value = { Program };

    ghost view = { λ p. p.program };

    ghost invariant = { λ p. Links p.program × (AreInterfaces p.program p.interfaces × AreUses p.program p.uses) };
}

#[tactic(auto, unfolding(crate::specs::jlink::LinkedPrograms::domains_rise))]
fn domains_rise(parts: &[CodePart]) -> bool
    ensures { result ≡ LinkedPrograms.domains_rise 0 parts.now }
{
    let mut least: u32 = 0;
    for part in parts {
        if part.domain < least {
            return false;
        }
        if 4096 <= part.domain {
            return false;
        }
        least = part.domain;
    }
    true
}

/// Whether parts may be linked: their domains don't fall and are below 4,096, and there are at most 65,535 of them.
pub fn are_parts(parts: &[CodePart]) -> bool
    ensures { MatchBool result (AreParts parts.now) (AreParts parts.now → ⊥) }
{
    if 0xffff < parts.len() {
        return false;
    }
    domains_rise(parts)
}

/// The table of what the entries of a program's pools stand for, where it links.
#[tactic(auto, using(crate::proofs::JlinkProofs::PhaseOrder::linked_layered))]
fn uses_of(alloc: Global, program: &NamedProgram) -> Result<Uses, AllocError>
    requires { LinkedPrograms.link_fault program.now ≡ None }
    ensures { IfOk result (λ uses. AreUses program.now uses) }
{
    Uses::of(alloc, program)
}

/// The table of the interfaces that a program's classes implement, where it links.
fn interfaces_of(alloc: Global, program: &NamedProgram) -> Result<Interfaces, AllocError>
    requires { LinkedPrograms.link_fault program.now ≡ None }
    ensures { IfOk result (λ interfaces. AreInterfaces program.now interfaces) }
{
    Interfaces::of(alloc, program)
}

/// Both tables of a program that links.
fn tables_of(alloc: Global, program: &NamedProgram) -> Result<(Interfaces, Uses), AllocError>
    requires { LinkedPrograms.link_fault program.now ≡ None }
    ensures { IfOk result (λ t. AreInterfaces program.now t.0 × AreUses program.now t.1) }
{
    let interfaces = interfaces_of(alloc, program)?;
    let uses = uses_of(alloc, program)?;
    Ok((interfaces, uses))
}

/// A program in which no rule is broken. An error, which says that no memory was left, hands its parts back.
fn linked(alloc: Global, program: NamedProgram) -> Result<LinkedProgram, AllocFailed<Vec<CodePart>>>
    requires parts { AreParts program.parts }
    requires rules { LinkedPrograms.link_fault program ≡ None }
    ensures ok { IfOk result (λ p. p ≡ program) }
    ensures err { IfErr result (λ e. e.value.items ≡ program.parts) }
{
    match tables_of(alloc, &program) {
        Ok((interfaces, uses)) => Ok(LinkedProgram {
            program,
            interfaces,
            uses,
        }),
        Err(_) => Err(AllocFailed {
            value: program.into_parts(),
        }),
    }
}

/// The program of parts that are known to link against a side's library, as those of a program that was moved: no rule is tested. An error,
/// which says that no memory was left, hands them back.
pub fn link_known(
    alloc: Global,
    parts: Vec<CodePart>,
    side: Side,
) -> Result<LinkedProgram, AllocFailed<Vec<CodePart>>>
    requires { Links (program side parts.items) }
    ensures ok { IfOk result (λ p. p ≡ program side parts.items) }
    ensures err { IfErr result (λ e. e.value.items ≡ parts.items) }
{
    let program = NamedProgram::of(alloc, parts, side)?;
    linked(alloc, program)
}

/// Links parts against a side's library, and hands them back with the error where they don't link: the first broken rule, in the order of
/// the four phases, or that no memory was left.
///
/// The domains of the parts may not fall and are below 4,096; there are at most 65,535 parts.
pub fn link_or_return(
    alloc: Global,
    parts: Vec<CodePart>,
    side: Side,
) -> Result<LinkedProgram, (Vec<CodePart>, LinkError)>
    requires { AreParts parts.items }
    ensures { MatchResult result
        (λ p. (p ≡ program side parts.items) × (LinkedPrograms.link_fault p ≡ None))
        (λ e. (e.0.items ≡ parts.items) × LinkErrorIs (LinkedPrograms.link_fault (program side parts.items)) e.1) }
{
    let program = match NamedProgram::of(alloc, parts, side) {
        Ok(program) => program,
        Err(AllocFailed { value }) => return Err((value, LinkError::Memory)),
    };
    match link_fault(alloc, &program) {
        Ok(None) => match linked(alloc, program) {
            Ok(program) => Ok(program),
            Err(AllocFailed { value }) => Err((value, LinkError::Memory)),
        },
        Ok(Some(fault)) => Err((program.into_parts(), LinkError::At(fault))),
        Err(_) => Err((program.into_parts(), LinkError::Memory)),
    }
}

/// Links parts against a side's library, as [`link_or_return`] does; an error doesn't hand them back.
pub fn link(alloc: Global, parts: Vec<CodePart>, side: Side) -> Result<LinkedProgram, LinkError>
    requires { AreParts parts.items }
    ensures { MatchResult result
        (λ p. (p ≡ program side parts.items) × (LinkedPrograms.link_fault p ≡ None))
        (LinkErrorIs (LinkedPrograms.link_fault (program side parts.items))) }
{
    match link_or_return(alloc, parts, side) {
        Ok(program) => Ok(program),
        Err((_, error)) => Err(error),
    }
}

impl LinkedProgram {
    /// The side of its library.
    pub fn side(&self) -> Side
        ensures { result ≡ self.now.side }
    {
        self.program.side()
    }

    /// Its parts, in their order.
    pub fn parts(&self) -> &[CodePart]
        ensures same { result.now ≡ self.now.parts }
        ensures links { Links self.now }
    {
        self.program.parts()
    }

    /// The program without what is known of it, which looks classes and members up by name.
    pub fn named(&self) -> &NamedProgram
        ensures same { result.now ≡ self.now }
        ensures links { Links self.now }
    {
        &self.program
    }

    /// The number of the class of a name: a user's, or else one of the library.
    pub fn class_of(&self, name: &[u8]) -> Option<ClassRef>
        ensures { result ≡ option_map ProgramClasses.ref_of (ProgramClasses.find self.now name.now) }
    {
        self.program.class_of(name)
    }

    /// The name of the class of a number, empty where no part has it.
    pub fn name_of(&self, class: ClassRef) -> &[u8]
        ensures { result.now ≡ ProgramClasses.name_at self.now class }
    {
        self.program.name_of(class)
    }

    /// What the entries of its pools stand for, looked at without memory.
    pub fn uses(&self) -> &Uses
        ensures { AreUses self.now result.now }
    {
        &self.uses
    }

    /// The table of the interfaces that its classes implement.
    pub(crate) fn interfaces(&self) -> &Interfaces
        ensures { AreInterfaces self.now result.now }
    {
        &self.interfaces
    }

    fn member_at(&self, class: u32, pool: u16) -> Option<Member>
        ensures member { result ≡ MemberResolution.resolved self.now class pool }
        ensures links { Links self.now }
    {
        self.uses.member_at(class, pool)
    }

    /// What the field or the method at an index of a part's pool stands for (JVMS 5.4.3), where an instruction of that class names it.
    pub fn resolve(&self, class: u32, pool: u16) -> Member
        requires { IsReferred self.now class pool }
        ensures { Some result ≡ MemberResolution.resolved self.now class pool }
    {
        match self.member_at(class, pool) {
            Some(member) => member,
            None => unreachable!(),
        }
    }

    fn has_interface(&self, class: &[u8], interface: &[u8]) -> bool
        ensures { result ≡ ProgramClasses.implements self.now class.now interface.now }
    {
        self.program.implements(&self.interfaces, class, interface)
    }

    /// Whether an interface is one of the class at a place, or of a class above it, directly or through others. It takes no memory.
    pub fn implements(&self, class: u32, interface: &Name) -> bool
        ensures { result ≡ ProgramClasses.implements self.now (ProgramClasses.name_at self.now (refs.User class)) interface.now.0 }
    {
        let name = self.name_of(ClassRef::User(class));
        self.has_interface(name, interface.0.as_slice())
    }

    /// The method that is selected where a method is called on a class (JVMS 5.4.6).
    pub fn select(&self, on: ClassId, method: Member, call: CallKind) -> Selected
        ensures { result ≡ MemberResolution.select self.now on method call }
    {
        self.program.select(on, method, call)
    }

    /// `main` of the class of a name: public and static, with code and the side's descriptor, declared in that very class.
    pub fn main_of(&self, name: &[u8]) -> Option<MethodId>
        ensures { result ≡ MemberResolution.main_of self.now name.now }
    {
        self.program.main_of(name)
    }
}
