ghost use Rattle.std.specs.Prelude.{◌≡◌, ◌<◌, IfSome, length};
ghost use Rattle.std.specs.List.{position};
ghost use Rattle.jresolution.specs.jprogram.ProgramClasses;
ghost use Rattle.jresolution.specs.jprogram.MemberResolution;
ghost use Rattle.jresolution.specs.jprogram.ProofNames;
ghost use Rattle.jresolution.specs.jprogram.ClassFileParts.{is_public_reach};

use crate::jprogram::classes::NamedProgram;
use crate::jprogram::found_class::FoundClass;
use crate::jprogram::member::MethodId;
use crate::jprogram::parts::{has_code, is_called, reach_of};
use crate::jprogram::reach::Reach;
use bitflags::Flags;
use jclass::{Access, ClassFile, ClassParts, MemberInfo};
use jlib::Side;

/// The descriptor of `main`, which on the passing side is given a context.
fn main_desc(side: Side) -> &'static [u8]
    ensures { result.now ≡ MemberResolution.main_desc side }
{
    match side {
        Side::Source => b"([Ljava/lang/String;)V",
        Side::Passing => b"([Ljava/lang/String;Lsps/Ctx;)V",
    }
}

fn is_public(reach: Reach) -> bool
    ensures { result ≡ is_public_reach reach }
{
    matches!(reach, Reach::Public)
}

fn is_main(side: Side, class: &ClassParts, method: &MemberInfo) -> bool
    ensures { result ≡ MemberResolution.is_main side class.now method.now }
{
    if !is_called(class, b"main", main_desc(side), method) {
        return false;
    }
    if !is_public(reach_of(method.flags)) {
        return false;
    }
    method.flags.contains(Access::STATIC) && has_code(method)
}

fn place_of_main(side: Side, class: &ClassParts, methods: &[MemberInfo]) -> Option<usize>
    ensures place { result ≡ position (MemberResolution.is_main side class.now) methods.now }
    ensures within { IfSome result (λ i. i < length methods.now) }
{
    for (i, method) in methods.iter().enumerate() {
        if is_main(side, class, method) {
            return Some(i);
        }
    }
    None
}

fn main_in(side: Side, i: u32, class: &ClassFile) -> Option<MethodId>
    ensures { result ≡ ProofNames.main_in side (Some (ProgramClasses.User i class.now)) }
{
    let parts = class.parts();
    let place = place_of_main(side, parts, parts.methods.as_slice())?;
    Some(MethodId {
        class: i,
        method: place as u32,
    })
}

impl NamedProgram {
    /// The `main` of the class of a name: its first method that has this name and the side's descriptor and is public and static, with
    /// code. The class itself has to declare it, and needn't be public.
    #[tactic(auto, unfolding(crate::specs::jprogram::MemberResolution::main_of))]
    pub fn main_of(&self, name: &[u8]) -> Option<MethodId>
        ensures { result ≡ MemberResolution.main_of self.now name.now }
    {
        match self.find(name) {
            Some(FoundClass::User(i, class)) => main_in(self.side(), i, class),
            _ => None,
        }
    }
}
