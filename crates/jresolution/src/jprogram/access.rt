ghost use Rattle.std.specs.Prelude.{◌≡◌};
ghost use Rattle.jresolution.specs.jprogram.MemberResolution;
ghost use Rattle.jresolution.specs.jprogram.ProofNames;

use crate::jprogram::classes::NamedProgram;
use crate::jprogram::member::Member;
use crate::jprogram::parts::same_package;
use crate::jprogram::reach::Reach;

impl NamedProgram {
    fn is_public(&self, class: &[u8]) -> bool
        ensures { result ≡ ProofNames.is_public_at self.now class.now }
    {
        match self.find(class) {
            Some(found) => found.is_public(),
            None => false,
        }
    }

    /// Whether a class of the first name may name the class of the second (JVMS 5.4.4): it is public, or of the same package.
    #[tactic(auto, unfolding(crate::specs::jprogram::MemberResolution::may_name))]
    pub fn may_name(&self, from: &[u8], class: &[u8]) -> bool
        ensures { result ≡ MemberResolution.may_name self.now from.now class.now }
    {
        if self.is_public(class) {
            return true;
        }
        same_package(from, class)
    }

    fn is_kin(&self, from: &[u8], owner: &[u8]) -> bool
        ensures { result ≡ MemberResolution.allows self.now Reach.Protected owner.now from.now }
    {
        if same_package(from, owner) {
            return true;
        }
        self.extends(from, owner)
    }

    /// Whether a class of a name may use a member (JVMS 5.4.4), by the member's flags and the class that declares it.
    #[tactic(auto, unfolding(crate::specs::jprogram::MemberResolution::may_use))]
    pub fn may_use(&self, from: &[u8], member: Member) -> bool
        ensures { result ≡ MemberResolution.may_use self.now from.now member }
    {
        let owner = self.owner_of(member);
        match self.reach_of(member) {
            Reach::Public => true,
            Reach::Protected => self.is_kin(from, owner),
            Reach::Package => same_package(from, owner),
            Reach::Private => from == owner,
        }
    }
}
