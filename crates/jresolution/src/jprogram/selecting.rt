ghost use Rattle.std.specs.Prelude.{◌≡◌, option_map};
ghost use Rattle.std.specs.List.{list_any};
ghost use Rattle.jground.specs.jbase.FirstFaults.{first_some};
ghost use Rattle.jresolution.specs.jprogram.ProgramClasses;
ghost use Rattle.jresolution.specs.jprogram.ProgramClasses.{chain};
ghost use Rattle.jresolution.specs.jprogram.MemberResolution;
ghost use Rattle.jresolution.specs.jprogram.MemberResolution.{before, methods_along};
ghost use Rattle.jresolution.specs.jprogram.ClassFileParts;
ghost use Rattle.jresolution.specs.jprogram.OverrideChains;
ghost use Rattle.jresolution.specs.jprogram.OverrideChains.{methods_above};

use crate::jprogram::classes::{NamedProgram, OBJECT};
use crate::jprogram::member::{CallKind, ClassId, Member, Selected};
use crate::jprogram::part::ClassRef;
use crate::jprogram::parts::same_package;
use crate::jprogram::reach::Reach;

fn same_method(a: Member, b: Member) -> bool
    ensures { result ≡ MemberResolution.same_method a b }
{
    match a {
        Member::Method(a) => match b {
            Member::Method(b) => a.class == b.class && a.method == b.method,
            _ => false,
        },
        _ => false,
    }
}

fn is_shown(reach: Reach) -> bool
    ensures { result ≡ OverrideChains.is_shown reach }
{
    matches!(reach, Reach::Public | Reach::Protected)
}

fn is_private(reach: Reach) -> bool
    ensures { result ≡ MemberResolution.is_private reach }
{
    matches!(reach, Reach::Private)
}

impl NamedProgram {
    // ---- overriding

    fn is_instance(&self, method: Member) -> bool
        ensures { result ≡ OverrideChains.is_instance self.now method }
    {
        if self.is_static(method) {
            return false;
        }
        !is_private(self.reach_of(method))
    }

    fn is_near(&self, a: Member, b: Member) -> bool
        ensures { result ≡ ClassFileParts.same_package (MemberResolution.owner_of self.now a) (MemberResolution.owner_of self.now b) }
    {
        same_package(self.owner_of(a), self.owner_of(b))
    }

    /// Whether a method that stands between shows the one above, of its package, to all below.
    #[tactic(auto, unfolding(crate::specs::jprogram::OverrideChains::opens))]
    fn opens(&self, above: Member, between: Member) -> bool
        ensures { result ≡ OverrideChains.opens self.now above between }
    {
        if !self.is_instance(between) {
            return false;
        }
        if !is_shown(self.reach_of(between)) {
            return false;
        }
        self.is_near(between, above)
    }

    #[tactic(auto, unfolding(crate::specs::jprogram::OverrideChains::decided_at))]
    fn decided_at(&self, above: Member, name: &[u8], desc: &[u8], class: &[u8]) -> Option<bool>
        ensures { result ≡ OverrideChains.decided_at self.now above name.now desc.now class.now }
    {
        let between = self.method_in(name, desc, class)?;
        if same_method(between, above) {
            return Some(false);
        }
        if self.opens(above, between) {
            return Some(true);
        }
        None
    }

    /// Whether one of the methods in front of `above` opens it, as far as there are such methods from a class upwards, at most so many
    /// classes.
    #[tactic(auto, using(crate::proofs::JprogramProofs::Chains::chain_at, crate::proofs::JprogramProofs::Chains::chain_end), unfolding(jground::specs::jbase::FirstFaults::first_some),)]
    fn decided_from(
        &self,
        above: Member,
        name: &[u8],
        desc: &[u8],
        from: &[u8],
        left: usize,
    ) -> Option<bool>
        ensures { result ≡ first_some (OverrideChains.decided_at self.now above name.now desc.now) (chain self.now left from.now) }
    {
        let mut at = from;
        for step in 0..left {
            if let Some(decided) = self.decided_at(above, name, desc, at) {
                return Some(decided);
            }
            match self.above_name(at) {
                None => return None,
                Some(above) => at = above,
            }
        }
        None
    }

    #[tactic(auto, using(crate::proofs::JprogramProofs::Choices::opened_is), unfolding(crate::specs::jprogram::MemberResolution::before))]
    fn is_opened(
        &self,
        above: Member,
        name: &[u8],
        desc: &[u8],
        from: Option<&[u8]>,
        left: usize,
    ) -> bool
        ensures { result ≡ list_any (OverrideChains.opens self.now above)
            (before above (methods_above self.now name.now desc.now left (option_map (λ t. t.now) from.entry))) }
    {
        let Some(from) = from else {
            return false;
        };
        match self.decided_from(above, name, desc, from, left) {
            Some(decided) => decided,
            None => false,
        }
    }

    /// Whether a method overrides another one, beside the methods of the classes between, which begin above it.
    #[tactic(auto, using(crate::proofs::JprogramProofs::MethodOverrides::overrides_shortly), unfolding(crate::specs::jprogram::OverrideChains::overrides_by),)]
    fn overrides(
        &self,
        below: Member,
        above: Member,
        name: &[u8],
        desc: &[u8],
        from: Option<&[u8]>,
        left: usize,
    ) -> bool
        ensures { result ≡ MemberResolution.overrides self.now below
            (before above (methods_above self.now name.now desc.now left (option_map (λ t. t.now) from.entry))) above }
    {
        if !self.is_instance(below) {
            return false;
        }
        match self.reach_of(above) {
            Reach::Public => true,
            Reach::Protected => true,
            Reach::Package => {
                if self.is_near(below, above) {
                    return true;
                }
                self.is_opened(above, name, desc, from, left)
            }
            Reach::Private => false,
        }
    }

    // ---- selection

    fn takes_call(
        &self,
        resolved: Member,
        one: Member,
        name: &[u8],
        desc: &[u8],
        from: Option<&[u8]>,
        left: usize,
    ) -> bool
        ensures { result ≡ MemberResolution.takes_call self.now resolved one
            (methods_above self.now name.now desc.now left (option_map (λ t. t.now) from.entry)) }
    {
        if self.is_static(one) {
            return false;
        }
        if same_method(one, resolved) {
            return true;
        }
        self.overrides(one, resolved, name, desc, from, left)
    }

    #[tactic(auto, unfolding(crate::specs::jprogram::OverrideChains::taking_at))]
    fn taking_at(
        &self,
        resolved: Member,
        name: &[u8],
        desc: &[u8],
        left: usize,
        class: &[u8],
    ) -> Option<Member>
        ensures { result ≡ OverrideChains.taking_at self.now resolved name.now desc.now left class.now }
    {
        let one = self.method_in(name, desc, class)?;
        if self.takes_call(resolved, one, name, desc, self.above_name(class), left) {
            return Some(one);
        }
        None
    }

    #[tactic(auto, using(crate::proofs::JprogramProofs::Choices::taking_here, crate::proofs::JprogramProofs::Choices::taking_end), unfolding(crate::specs::jprogram::MemberResolution::first_taking),)]
    fn first_taking(&self, resolved: Member, name: &[u8], desc: &[u8], on: &[u8]) -> Option<Member>
        ensures { result ≡ MemberResolution.first_taking self.now resolved
            (methods_along self.now name.now desc.now (ProgramClasses.up self.now on.now)) }
    {
        let mut at = on;
        let steps = self.most_steps();
        for step in 0..steps {
            if let Some(found) = self.taking_at(resolved, name, desc, steps - (step + 1), at) {
                return Some(found);
            }
            match self.above_name(at) {
                None => return None,
                Some(above) => at = above,
            }
        }
        None
    }

    #[tactic(auto, unfolding(crate::specs::jprogram::OverrideChains::instance_at))]
    fn instance_at(&self, name: &[u8], desc: &[u8], class: &[u8]) -> Option<Member>
        ensures { result ≡ OverrideChains.instance_at self.now name.now desc.now class.now }
    {
        let one = self.method_in(name, desc, class)?;
        if self.is_static(one) {
            return None;
        }
        Some(one)
    }

    #[tactic(auto, using(crate::proofs::JprogramProofs::Chains::chain_at, crate::proofs::JprogramProofs::Chains::chain_end), unfolding(jground::specs::jbase::FirstFaults::first_some),)]
    fn instance_from(&self, name: &[u8], desc: &[u8], on: &[u8]) -> Option<Member>
        ensures { result ≡ first_some (OverrideChains.instance_at self.now name.now desc.now) (ProgramClasses.up self.now on.now) }
    {
        let mut at = on;
        let steps = self.most_steps();
        for step in 0..steps {
            if let Some(found) = self.instance_at(name, desc, at) {
                return Some(found);
            }
            match self.above_name(at) {
                None => return None,
                Some(above) => at = above,
            }
        }
        None
    }

    #[tactic(auto, using(crate::proofs::JprogramProofs::Choices::instance_is))]
    fn first_by(
        &self,
        call: CallKind,
        resolved: Member,
        name: &[u8],
        desc: &[u8],
        on: &[u8],
    ) -> Option<Member>
        ensures { result ≡ MemberResolution.first_by self.now call resolved
            (methods_along self.now name.now desc.now (ProgramClasses.up self.now on.now)) }
    {
        match call {
            CallKind::Virtual => self.first_taking(resolved, name, desc, on),
            CallKind::Interface => self.instance_from(name, desc, on),
            CallKind::Special => self.instance_from(name, desc, on),
        }
    }

    fn by_code(&self, member: Member, coded: Selected) -> Selected
        ensures { result ≡ MemberResolution.by_code self.now member coded }
    {
        if self.is_abstract(member) {
            return Selected::Abstract(member);
        }
        coded
    }

    /// A method as it is, where nothing has to be selected: `invokestatic`, and `invokespecial` of the current class. `Abstract` where it
    /// has no code, `Missing` where it is a field.
    pub fn itself(&self, method: Member) -> Selected
        ensures { result ≡ MemberResolution.as_selected self.now (Some method) }
    {
        match method {
            Member::Method(id) => self.by_code(method, Selected::Method(id)),
            Member::LibMethod(call) => self.by_code(method, Selected::Lib(call)),
            Member::Field { .. } => Selected::Missing,
            Member::LibField => Selected::Missing,
        }
    }

    fn as_selected(&self, found: Option<Member>) -> Selected
        ensures { result ≡ MemberResolution.as_selected self.now found }
    {
        match found {
            Some(method) => self.itself(method),
            None => Selected::Missing,
        }
    }

    fn name_of_id(&self, on: ClassId) -> &[u8]
        ensures { result.now ≡ MemberResolution.name_of_id self.now on }
    {
        match on {
            ClassId::User(i) => self.name_of(ClassRef::User(i)),
            ClassId::Lib(class) => class.name(),
            ClassId::Array => OBJECT,
        }
    }

    /// The method that a call runs which is made on an object of a class and whose reference stands for `method` (JVMS 5.4.6). For
    /// `invokevirtual` it is the first instance method from the class upwards that is this method or overrides it. For
    /// `invokeinterface`, and for `invokespecial` of a class above, it is the first instance method of its name and descriptor, which for
    /// `invokespecial` is looked for from the superclass of the current class upwards; that class is handed in then.
    ///
    /// `Abstract` where what is found has no code, `Missing` where nothing is found.
    #[tactic(auto, unfolding(crate::specs::jprogram::MemberResolution::select))]
    pub fn select(&self, on: ClassId, method: Member, call: CallKind) -> Selected
        ensures { result ≡ MemberResolution.select self.now on method call }
    {
        let name = self.name_of_member(method);
        let desc = self.desc_of_member(method);
        let found = self.first_by(call, method, name, desc, self.name_of_id(on));
        self.as_selected(found)
    }
}
