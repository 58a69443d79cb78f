ghost use Rattle.std.specs.Prelude.{◌≡◌, None, IfOk, IfSome, length, nat_lt, option_and_then};
ghost use Rattle.jground.specs.jbase.FirstFaults.{first_some};
ghost use Rattle.jresolution.specs.jprogram.ProgramClasses;
ghost use Rattle.jresolution.specs.jprogram.MemberDigests.{IsKey};
ghost use Rattle.jresolution.specs.jprogram.InterfaceSearch;
ghost use Rattle.jresolution.specs.jprogram.InterfaceSearch.{AreClosed, IsLayered};
ghost use Rattle.jresolution.specs.jprogram.ClassTables.{IsAt};
ghost use Rattle.jresolution.specs.jprogram.MemberResolution;

use crate::jprogram::classes::NamedProgram;
use crate::jprogram::firsts::{Key, key_of};
use crate::jprogram::library::class_named;
use crate::jprogram::lines::At;
use crate::jprogram::member::Member;
use crate::jprogram::members::{lib_field_in, lib_method_in, user_field, user_method};
use crate::jprogram::searching::Sort;
use jground::jbase::Seq;
use std::alloc::{AllocError, Global};

const INIT: &[u8] = b"<init>";

impl NamedProgram {
    pub(crate) fn method_of(&self, i: u32, key: Key<'_>) -> Option<Member>
        requires { IsKey key }
        ensures { result ≡ option_and_then (λ c. MemberResolution.method_in self.now.side c key.entry.name.now key.entry.desc.now)
            (ProgramClasses.user_at self.now i) }
    {
        let (class, firsts) = self.user(i)?;
        user_method(i, class, firsts, key)
    }

    fn library_method(&self, name: &[u8], desc: &[u8], class: &[u8]) -> Option<Member>
        ensures { result ≡ option_and_then (λ c. MemberResolution.method_in self.now.side c name.now desc.now)
            (ProgramClasses.found_at self.now class.now None) }
    {
        let class = class_named(self.side(), class)?;
        lib_method_in(self.side(), class, name, desc)
    }

    pub(crate) fn field_of(&self, i: u32, key: Key<'_>) -> Option<Member>
        requires { IsKey key }
        ensures { result ≡ option_and_then (λ c. MemberResolution.field_in self.now.side c key.entry.name.now key.entry.desc.now)
            (ProgramClasses.user_at self.now i) }
    {
        let (class, firsts) = self.user(i)?;
        user_field(i, class, firsts, key)
    }

    fn library_field(&self, name: &[u8], desc: &[u8], class: &[u8]) -> Option<Member>
        ensures { result ≡ option_and_then (λ c. MemberResolution.field_in self.now.side c name.now desc.now)
            (ProgramClasses.found_at self.now class.now None) }
    {
        let class = class_named(self.side(), class)?;
        lib_field_in(self.side(), class, name, desc)
    }

    /// The first method of this name and descriptor that the class of a name declares itself (JVMS 4.6). None where there is no such
    /// class.
    #[tactic(auto, unfolding(crate::specs::jprogram::ProgramClasses::find))]
    pub fn method_in(&self, name: &[u8], desc: &[u8], class: &[u8]) -> Option<Member>
        ensures { result ≡ MemberResolution.method_at self.now name.now desc.now class.now }
    {
        match self.place_of(class) {
            Some(i) => self.method_of(i, key_of(name, desc)),
            None => self.library_method(name, desc, class),
        }
    }

    /// The first field of this name and descriptor that the class of a name declares itself (JVMS 4.5). None where there is no such
    /// class.
    #[tactic(auto, unfolding(crate::specs::jprogram::ProgramClasses::find))]
    pub fn field_in(&self, name: &[u8], desc: &[u8], class: &[u8]) -> Option<Member>
        ensures { result ≡ MemberResolution.field_at self.now name.now desc.now class.now }
    {
        match self.place_of(class) {
            Some(i) => self.field_of(i, key_of(name, desc)),
            None => self.library_field(name, desc, class),
        }
    }

    /// The first method of this name and descriptor in the class of a name and in those above it.
    #[tactic(auto, using(crate::proofs::JprogramProofs::Chains::chain_at, crate::proofs::JprogramProofs::Chains::chain_end), unfolding(jground::specs::jbase::FirstFaults::first_some),)]
    fn method_upwards(&self, key: Key<'_>, class: &[u8]) -> Option<Member>
        requires { IsKey key }
        ensures { result ≡ first_some (MemberResolution.method_at self.now key.entry.name.now key.entry.desc.now)
            (ProgramClasses.up self.now class.now) }
    {
        let mut at = self.at(class);
        let steps = self.most_steps();
        for step in 0..steps {
            if let Some(found) = self.method_here(key, at) {
                return Some(found);
            }
            match self.above_at(at) {
                None => return None,
                Some(above) => at = above,
            }
        }
        None
    }

    /// No mark for any part.
    #[tactic(auto, using(crate::proofs::JprogramProofs::Marks::none_closed))]
    fn no_marks(
        &self,
        alloc: Global,
        sort: Sort,
        name: &[u8],
        desc: &[u8],
    ) -> Result<Seq<bool>, AllocError>
        ensures { IfOk result (λ closed. AreClosed self.now (InterfaceSearch.member_at self.now sort name.now desc.now) closed) }
    {
        let marks = vec![in alloc; false; self.parts().len()]?;
        Ok(Seq::from_vec(marks))
    }

    /// The first member of this name and descriptor in a class itself, of fields alone, and in its interfaces.
    #[tactic(auto, unfolding(crate::specs::jprogram::InterfaceSearch::at_and_over))]
    fn at_and_over(
        &self,
        alloc: Global,
        sort: Sort,
        name: &[u8],
        desc: &[u8],
        closed: &mut Seq<bool>,
        class: &[u8],
    ) -> Result<Option<Member>, AllocError>
        requires layered { IsLayered self.now }
        requires closed { AreClosed self.now (InterfaceSearch.member_at self.now sort name.now desc.now) closed.old }
        ensures value { IfOk result (λ m. m ≡ InterfaceSearch.at_and_over self.now sort name.now desc.now class.now) }
        ensures kept { IfOk result (λ m. m ≡ None → AreClosed self.now (InterfaceSearch.member_at self.now sort name.now desc.now) closed.new) }
    {
        if let Some(found) = self.own(sort, name, desc, class) {
            return Ok(Some(found));
        }
        self.search(alloc, sort, name, desc, closed, class)
    }

    fn own(&self, sort: Sort, name: &[u8], desc: &[u8], class: &[u8]) -> Option<Member>
        ensures { result ≡ InterfaceSearch.own self.now sort name.now desc.now class.now }
    {
        match sort {
            Sort::Method => None,
            Sort::Field => self.field_in(name, desc, class),
        }
    }

    /// The first field of this name and descriptor in a class itself, whose class is known.
    fn own_here(&self, sort: Sort, key: Key<'_>, at: At<'_>) -> Option<Member>
        requires key { IsKey key }
        requires at { IsAt self.now at }
        ensures { result ≡ InterfaceSearch.own self.now sort key.entry.name.now key.entry.desc.now at.entry.name.now }
    {
        match sort {
            Sort::Method => None,
            Sort::Field => self.field_here(key, at),
        }
    }

    fn lists_faces(&self, at: At<'_>) -> bool
        requires { IsAt self.now at }
        ensures { result ≡ nat_lt 0 (length (ProgramClasses.face_names self.now at.entry.name.now)) }
    {
        match at.class {
            Some(found) => 0 < found.face_count(),
            None => false,
        }
    }

    /// The first member of this name and descriptor in a class itself, of fields alone, and in its interfaces, where the class has it or
    /// lists none; `None` where interfaces would have to be gone through.
    #[tactic(auto, using(crate::proofs::JprogramProofs::InterfacelessClasses::plain_found, crate::proofs::JprogramProofs::InterfacelessClasses::plain_none,),)]
    fn plainly_at(&self, sort: Sort, key: Key<'_>, at: At<'_>) -> Option<Option<Member>>
        requires key { IsKey key }
        requires at { IsAt self.now at }
        ensures { IfSome result (λ m. m ≡ InterfaceSearch.at_and_over self.now sort key.entry.name.now key.entry.desc.now at.entry.name.now) }
    {
        if let Some(found) = self.own_here(sort, key, at) {
            return Some(Some(found));
        }
        if self.lists_faces(at) {
            return None;
        }
        Some(None)
    }

    /// The first member that is found so, from a class upwards; `None` where interfaces would have to be gone through. It takes no
    /// memory.
    #[tactic(auto, using(crate::proofs::JprogramProofs::Chains::chain_at, crate::proofs::JprogramProofs::Chains::chain_end), unfolding(jground::specs::jbase::FirstFaults::first_some),)]
    fn found_plainly(&self, sort: Sort, key: Key<'_>, class: &[u8]) -> Option<Option<Member>>
        requires { IsKey key }
        ensures { IfSome result
            (λ m. m ≡ first_some (InterfaceSearch.at_and_over self.now sort key.entry.name.now key.entry.desc.now)
            (ProgramClasses.up self.now class.now)) }
    {
        let mut at = self.at(class);
        let steps = self.most_steps();
        for step in 0..steps {
            if let Some(found) = self.plainly_at(sort, key, at)? {
                return Some(Some(found));
            }
            match self.above_at(at) {
                None => return Some(None),
                Some(above) => at = above,
            }
        }
        Some(None)
    }

    /// The first member that is found so, from a class upwards. Marks are made only where interfaces are gone through.
    #[tactic(auto, using(crate::proofs::JprogramProofs::Chains::chain_at, crate::proofs::JprogramProofs::Chains::chain_end), unfolding(jground::specs::jbase::FirstFaults::first_some),)]
    fn found_upwards(
        &self,
        alloc: Global,
        sort: Sort,
        name: &[u8],
        desc: &[u8],
        class: &[u8],
    ) -> Result<Option<Member>, AllocError>
        requires { IsLayered self.now }
        ensures { IfOk result
            (λ m. m ≡ first_some (InterfaceSearch.at_and_over self.now sort name.now desc.now) (ProgramClasses.up self.now class.now)) }
    {
        if let Some(found) = self.found_plainly(sort, key_of(name, desc), class) {
            return Ok(found);
        }
        let mut closed = self.no_marks(alloc, sort, name, desc)?;
        let mut at = class;
        let steps = self.most_steps();
        for step in 0..steps {
            if let Some(found) = self.at_and_over(alloc, sort, name, desc, &mut closed, at)? {
                return Ok(Some(found));
            }
            match self.above_name(at) {
                None => return Ok(None),
                Some(above) => at = above,
            }
        }
        Ok(None)
    }

    /// The method that a class's name, a name and a descriptor stand for (JVMS 5.4.3.3, 5.4.3.4): the first in the class and in those
    /// above it, else the first in the interfaces of these, in order, each followed by its own. A constructor, `<init>`, is looked for in
    /// the class alone. None where there is none.
    ///
    /// No class or interface may stand among its own interfaces. Each interface is gone through once; that takes a mark a part.
    #[tactic(auto, using(crate::proofs::JprogramProofs::Marks::over_methods), unfolding(crate::specs::jprogram::MemberResolution::resolve_method))]
    pub fn resolve_method(
        &self,
        alloc: Global,
        class: &[u8],
        name: &[u8],
        desc: &[u8],
    ) -> Result<Option<Member>, AllocError>
        requires { IsLayered self.now }
        ensures { IfOk result (λ m. m ≡ MemberResolution.resolve_method self.now class.now name.now desc.now) }
    {
        if name == INIT {
            return Ok(self.method_in(name, desc, class));
        }
        if let Some(found) = self.method_upwards(key_of(name, desc), class) {
            return Ok(Some(found));
        }
        self.found_upwards(alloc, Sort::Method, name, desc, class)
    }

    /// The field that a class's name, a name and a descriptor stand for (JVMS 5.4.3.2): the first in the class, then in its interfaces, in
    /// order, each followed by its own, then so in the class above. None where there is none.
    ///
    /// No class or interface may stand among its own interfaces. Each interface is gone through once; that takes a mark a part.
    #[tactic(auto, using(crate::proofs::JprogramProofs::Marks::over_fields), unfolding(crate::specs::jprogram::MemberResolution::resolve_field))]
    pub fn resolve_field(
        &self,
        alloc: Global,
        class: &[u8],
        name: &[u8],
        desc: &[u8],
    ) -> Result<Option<Member>, AllocError>
        requires { IsLayered self.now }
        ensures { IfOk result (λ m. m ≡ MemberResolution.resolve_field self.now class.now name.now desc.now) }
    {
        self.found_upwards(alloc, Sort::Field, name, desc, class)
    }
}
