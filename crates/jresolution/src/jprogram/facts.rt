ghost use Rattle.std.specs.Prelude.{◌≡◌, option_map};
ghost use Rattle.jclass.specs.FlagRules.{has_flag};
ghost use Rattle.jresolution.specs.jprogram.MemberResolution;
ghost use Rattle.jresolution.specs.jprogram.MemberResolution.{owner_in};

use crate::jprogram::classes::NamedProgram;
use crate::jprogram::member::{Member, MethodId};
use crate::jprogram::parts::{member_desc, member_name, reach_of, this_name};
use crate::jprogram::reach::Reach;
use bitflags::Flags;
use jclass::{Access, ClassParts, MemberInfo};
use jlib::LibCall;

impl NamedProgram {
    fn field_info(&self, class: u32, field: u32) -> Option<(&ClassParts, &MemberInfo)>
        ensures { option_map (λ x. (x.0.now, x.1.now)) result ≡ MemberResolution.info_of self.now (Member.Field class field) }
    {
        let part = self.parts().get(class as usize)?;
        let parts = part.class.parts();
        let field = parts.fields.as_slice().get(field as usize)?;
        Some((parts, field))
    }

    fn method_info(&self, id: MethodId) -> Option<(&ClassParts, &MemberInfo)>
        ensures { option_map (λ x. (x.0.now, x.1.now)) result ≡ MemberResolution.info_of self.now (Member.Method id) }
    {
        let part = self.parts().get(id.class as usize)?;
        let parts = part.class.parts();
        let method = parts.methods.as_slice().get(id.method as usize)?;
        Some((parts, method))
    }

    /// A user's member, with its class. None where it is the library's, or isn't there.
    pub fn info_of(&self, member: Member) -> Option<(&ClassParts, &MemberInfo)>
        ensures { option_map (λ x. (x.0.now, x.1.now)) result ≡ MemberResolution.info_of self.now member }
    {
        match member {
            Member::Field { class, field } => self.field_info(class, field),
            Member::Method(id) => self.method_info(id),
            Member::LibField => None,
            Member::LibMethod(_) => None,
        }
    }

    fn user_has(&self, member: Member, flag: Access) -> bool
        ensures { result ≡ MemberResolution.user_is (λ one. has_flag flag.0 one.flags) (MemberResolution.info_of self.now member) }
    {
        match self.info_of(member) {
            Some((_, one)) => one.flags.contains(flag),
            None => false,
        }
    }

    /// Whether a member is static.
    #[tactic(auto, unfolding(crate::specs::jprogram::MemberResolution::is_static))]
    pub fn is_static(&self, member: Member) -> bool
        ensures { result ≡ MemberResolution.is_static self.now member }
    {
        match member {
            Member::LibField => true,
            Member::LibMethod(call) => call.is_static(),
            Member::Field { .. } => self.user_has(member, Access::STATIC),
            Member::Method(_) => self.user_has(member, Access::STATIC),
        }
    }

    /// Whether a member is final: a user's where its flag is set, and the library's field.
    #[tactic(auto, unfolding(crate::specs::jprogram::MemberResolution::is_final))]
    pub fn is_final(&self, member: Member) -> bool
        ensures { result ≡ MemberResolution.is_final self.now member }
    {
        match member {
            Member::LibField => true,
            Member::LibMethod(_) => false,
            Member::Field { .. } => self.user_has(member, Access::FINAL),
            Member::Method(_) => self.user_has(member, Access::FINAL),
        }
    }

    /// Whether a method is abstract: a user's where its flag is set, and what the library's interfaces declare.
    #[tactic(auto, unfolding(crate::specs::jprogram::MemberResolution::is_abstract))]
    pub fn is_abstract(&self, member: Member) -> bool
        ensures { result ≡ MemberResolution.is_abstract self.now member }
    {
        match member {
            Member::LibField => false,
            Member::LibMethod(call) => call.owner().is_interface(),
            Member::Field { .. } => self.user_has(member, Access::ABSTRACT),
            Member::Method(_) => self.user_has(member, Access::ABSTRACT),
        }
    }

    fn user_reach(&self, member: Member) -> Reach
        ensures { result ≡ MemberResolution.reach_in (MemberResolution.info_of self.now member) }
    {
        match self.info_of(member) {
            Some((_, one)) => reach_of(one.flags),
            None => Reach::Private,
        }
    }

    /// From where a member may be used. All that the library has is public.
    #[tactic(auto, unfolding(crate::specs::jprogram::MemberResolution::reach_of))]
    pub fn reach_of(&self, member: Member) -> Reach
        ensures { result ≡ MemberResolution.reach_of self.now member }
    {
        match member {
            Member::LibField => Reach::Public,
            Member::LibMethod(_) => Reach::Public,
            Member::Field { .. } => self.user_reach(member),
            Member::Method(_) => self.user_reach(member),
        }
    }

    fn user_name(&self, member: Member) -> &[u8]
        ensures { result.now ≡ MemberResolution.name_in (MemberResolution.info_of self.now member) }
    {
        match self.info_of(member) {
            Some((class, one)) => member_name(class, one),
            None => &[],
        }
    }

    /// A member's name.
    #[tactic(auto, unfolding(crate::specs::jprogram::MemberResolution::name_of))]
    pub fn name_of_member(&self, member: Member) -> &[u8]
        ensures { result.now ≡ MemberResolution.name_of self.now member }
    {
        match member {
            Member::LibField => LibCall::Out.name(),
            Member::LibMethod(call) => call.name(),
            Member::Field { .. } => self.user_name(member),
            Member::Method(_) => self.user_name(member),
        }
    }

    fn user_desc(&self, member: Member) -> &[u8]
        ensures { result.now ≡ MemberResolution.desc_in (MemberResolution.info_of self.now member) }
    {
        match self.info_of(member) {
            Some((class, one)) => member_desc(class, one),
            None => &[],
        }
    }

    /// A member's descriptor.
    #[tactic(auto, unfolding(crate::specs::jprogram::MemberResolution::desc_of))]
    pub fn desc_of_member(&self, member: Member) -> &[u8]
        ensures { result.now ≡ MemberResolution.desc_of self.now member }
    {
        match member {
            Member::LibField => LibCall::Out.desc(),
            Member::LibMethod(call) => call.desc(),
            Member::Field { .. } => self.user_desc(member),
            Member::Method(_) => self.user_desc(member),
        }
    }

    fn user_owner(&self, member: Member) -> &[u8]
        ensures { result.now ≡ owner_in (MemberResolution.info_of self.now member) }
    {
        match self.info_of(member) {
            Some((class, _)) => this_name(class),
            None => &[],
        }
    }

    /// The name of the class that declares a member.
    #[tactic(auto, unfolding(crate::specs::jprogram::MemberResolution::owner_of))]
    pub fn owner_of(&self, member: Member) -> &[u8]
        ensures { result.now ≡ MemberResolution.owner_of self.now member }
    {
        match member {
            Member::LibField => LibCall::Out.owner().name(),
            Member::LibMethod(call) => call.owner().name(),
            Member::Field { .. } => self.user_owner(member),
            Member::Method(_) => self.user_owner(member),
        }
    }
}
