ghost use Rattle.std.specs.Prelude.{◌≡◌, ◌++◌, ◌∷◌, [], not, List, IfOk};
ghost use Rattle.jclass.specs.declared.class.MemberInfo.{MemberInfo as Info};
ghost use Rattle.jlinking.specs.jmembers.MemberDeclarations;
ghost use Rattle.jlinking.specs.jmembers.MemberSets.{HasMet};

use crate::jmembers::class_texts::ClassTexts;
use jclass::MemberInfo;
use jresolution::jprogram::LinkKind;
use std::alloc::AllocError;
use std::collections::BTreeSet;

impl<'a> ClassTexts<'a> {
    /// Puts a member among those that were met; false where one of its name and descriptor was.
    fn meet(
        &self,
        met: &mut BTreeSet<(usize, usize)>,
        member: &MemberInfo,
    ) -> Result<bool, AllocError>
        ensures { (before : List Info) → HasMet self.now.class before met.old
            → IfOk result (λ b. (MemberDeclarations.is_again self.now.class before member.now ≡ not b)
            × HasMet self.now.class (before ++ member.now ∷ []) met.new) }
    {
        let pair = (self.number(member.name), self.number(member.desc));
        let fresh = met.insert(pair)?;
        Ok(fresh)
    }

    /// Twice where a member of this name and descriptor was met. It is met from now on.
    #[tactic(auto, unfolding(crate::specs::jmembers::MemberDeclarations::again_test))]
    pub fn again_test(
        &self,
        met: &mut BTreeSet<(usize, usize)>,
        member: &MemberInfo,
    ) -> Result<Option<LinkKind>, AllocError>
        ensures { (before : List Info) → HasMet self.now.class before met.old
            → IfOk result (λ o. (o ≡ MemberDeclarations.again_test self.now.class before member.now)
            × HasMet self.now.class (before ++ member.now ∷ []) met.new) }
    {
        if self.meet(met, member)? {
            return Ok(None);
        }
        Ok(Some(LinkKind::Twice))
    }
}
