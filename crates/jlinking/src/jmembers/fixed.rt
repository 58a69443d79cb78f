ghost use Rattle.std.specs.Prelude.{◌≡◌};
ghost use Rattle.std.specs.List.{list_any};
ghost use Rattle.jlib.specs.LibraryMembers.{fixes};
ghost use Rattle.jlib.specs.LibraryClasses.{open_classes};
ghost use Rattle.jresolution.specs.jprogram.ProgramClasses;
ghost use Rattle.jlinking.specs.jmembers.MemberDeclarations;
ghost use Rattle.jlinking.specs.ProofNames;

use crate::jmembers::class_texts::ClassTexts;
use bitflags::Flags;
use jclass::{Access, ClassParts, MemberInfo};
use jlib::open_classes;
use jresolution::jprogram::{
    ClassRef, LinkKind, NamedProgram, member_desc, member_name, super_name,
};

/// Whether an open class of the library has a concrete instance method of this name and descriptor.
fn is_fixed_somewhere(name: &[u8], desc: &[u8]) -> bool
    ensures { result ≡ list_any (fixes name.now desc.now) open_classes }
{
    open_classes().iter().any(|class| class.fixes(name, desc))
}

fn is_fixed_at(program: &NamedProgram, name: &[u8], desc: &[u8], class: &[u8]) -> bool
    ensures { result ≡ ProofNames.is_fixed_at program.now name.now desc.now class.now }
{
    match program.class_of(class) {
        Some(ClassRef::Lib(class)) => class.fixes(name, desc),
        _ => false,
    }
}

#[tactic(auto, using(jresolution::proofs::JprogramProofs::Chains::chain_at, jresolution::proofs::JprogramProofs::Chains::chain_end))]
fn is_fixed_upwards(program: &NamedProgram, name: &[u8], desc: &[u8], from: &[u8]) -> bool
    ensures { result ≡ list_any (ProofNames.is_fixed_at program.now name.now desc.now) (ProgramClasses.up program.now from.now) }
{
    let mut at = from;
    let steps = program.most_steps();
    for step in 0..steps {
        if is_fixed_at(program, name, desc, at) {
            return true;
        }
        match program.above_name(at) {
            None => return false,
            Some(above) => at = above,
        }
    }
    false
}

/// Whether the class may not declare a method of this name and descriptor, as it is the library's.
fn is_fixed(program: &NamedProgram, class: &ClassParts, name: &[u8], desc: &[u8]) -> bool
    ensures { result ≡ MemberDeclarations.is_fixed program.now class.now name.now desc.now }
{
    if !is_fixed_somewhere(name, desc) {
        return false;
    }
    if class.flags.contains(Access::INTERFACE) {
        return true;
    }
    match super_name(class) {
        Some(above) => is_fixed_upwards(program, name, desc, above),
        None => false,
    }
}

impl<'a> ClassTexts<'a> {
    /// OverridesLibrary where a method has the name and the descriptor of a concrete instance method of an open class of the library
    /// that stands above its class, or for an interface's method of any open class.
    #[tactic(auto, unfolding(crate::specs::jmembers::MemberDeclarations::library_test))]
    pub fn library_test(&self, method: &MemberInfo) -> Option<LinkKind>
        ensures { result ≡ MemberDeclarations.library_test self.now.program self.now.class method.now }
    {
        let class = self.class();
        let name = member_name(class, method);
        let desc = member_desc(class, method);
        if is_fixed(self.program(), class, name, desc) {
            return Some(LinkKind::OverridesLibrary);
        }
        None
    }
}
