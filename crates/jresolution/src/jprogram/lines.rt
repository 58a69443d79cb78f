ghost use Rattle.std.specs.Prelude.{◌≡◌, ◌+◌, IfOk, IfSome, Some, length, option_and_then, option_map};
ghost use Rattle.std.specs.List.{list_any};
ghost use Rattle.std.specs.Str.{bytes_eq};
ghost use Rattle.jresolution.specs.jprogram.ProgramClasses;
ghost use Rattle.jresolution.specs.jprogram.MemberDigests.{IsKey};
ghost use Rattle.jresolution.specs.jprogram.ImplementedInterfaces.{IsNumber};
ghost use Rattle.jresolution.specs.jprogram.ClassTables.{AreLines, IsAt, IsLine};
ghost use Rattle.jresolution.specs.jprogram.MemberResolution;
ghost use Rattle.jresolution.specs.jprogram.FoundClasses.{seen};

use crate::jprogram::classes::{NamedProgram, OBJECT};
use crate::jprogram::firsts::Key;
use crate::jprogram::found_class::FoundClass;
use crate::jprogram::member::Member;
use crate::jprogram::members::{lib_field_in, lib_method_in};
use crate::jprogram::part::ClassRef;
use jground::jbase::Seq;
use jlib::LibClass;
use std::alloc::{AllocError, Global};

/// What is kept of a user's class.
#[derive(Clone, Copy, Debug)]
pub struct Line {
    /// The first place of its name.
    pub first: Option<u32>,
    /// The class directly above it.
    pub above: Option<ClassRef>,
}

/// A name on a walk upwards, with the class of this name, so that no step looks for it.
#[derive(Clone, Copy)]
pub struct At<'a> {
    pub name: &'a [u8],
    pub class: Option<FoundClass<'a>>,
}

impl NamedProgram {
    fn line_of(&self, i: u32) -> Line
        ensures { IsLine self.now i result }
    {
        let class = ClassRef::User(i);
        Line {
            first: self.place_of(self.name_of(class)),
            above: self.super_of(class),
        }
    }

    /// What is kept of each user's class.
    pub(crate) fn all_lines(&self, alloc: Global) -> Result<Seq<Line>, AllocError>
        ensures { IfOk result (AreLines self.now) }
    {
        let mut lines = Seq::new(alloc);
        for (i, _) in self.parts().iter().enumerate() {
            lines.push(self.line_of(i as u32))?;
        }
        Ok(lines)
    }

    /// The first place of the name of a user's class.
    fn first_place(&self, i: u32) -> Option<u32>
        ensures { result ≡ ProgramClasses.place_of self.now.parts (ProgramClasses.name_at self.now (ClassRef.User i)) }
    {
        match self.line(i) {
            Some(line) => line.first,
            None => self.place_of(self.name_of(ClassRef::User(i))),
        }
    }

    fn above_user(&self, i: u32) -> Option<ClassRef>
        ensures { result ≡ ProgramClasses.super_at self.now (ClassRef.User i) }
    {
        match self.line(i) {
            Some(line) => line.above,
            None => self.super_of(ClassRef::User(i)),
        }
    }

    // ---- the class of a number

    /// The first class that has the name of the class of a number.
    #[tactic(auto, unfolding(crate::specs::jprogram::ProgramClasses::find))]
    fn found_of(&self, class: ClassRef) -> Option<FoundClass<'_>>
        ensures { option_map seen result ≡ ProgramClasses.find self.now (ProgramClasses.name_at self.now class) }
    {
        match class {
            ClassRef::User(i) => match self.first_place(i) {
                Some(first) => self.user_at(first),
                None => self.library_class(self.name_of(class)),
            },
            ClassRef::Lib(_) => self.find(self.name_of(class)),
        }
    }

    /// Its number.
    fn first_number(&self, class: ClassRef) -> Option<ClassRef>
        ensures { result ≡ option_map ProgramClasses.ref_of (ProgramClasses.find self.now (ProgramClasses.name_at self.now class)) }
    {
        match self.found_of(class) {
            Some(found) => Some(found.number()),
            None => None,
        }
    }

    /// Whether the class of a number's name is an interface.
    pub fn is_interface_at(&self, class: ClassRef) -> bool
        ensures { result ≡ ProgramClasses.holds ProgramClasses.is_interface (ProgramClasses.find self.now (ProgramClasses.name_at self.now class)) }
    {
        match self.found_of(class) {
            Some(found) => found.is_interface(),
            None => false,
        }
    }

    // ---- two classes

    /// Whether two users' classes have one name, where it is known where these names stand first.
    #[tactic(auto, using(crate::proofs::JprogramProofs::NumberedWalks::same_places))]
    fn same_users(&self, i: u32, j: u32) -> Option<bool>
        ensures { IfSome result
            (λ b. b ≡ bytes_eq (ProgramClasses.name_at self.now (ClassRef.User i)) (ProgramClasses.name_at self.now (ClassRef.User j))) }
    {
        let a = self.first_place(i)?;
        let b = self.first_place(j)?;
        Some(a == b)
    }

    fn same_soon(&self, c: ClassRef, d: ClassRef) -> Option<bool>
        ensures { IfSome result (λ b. b ≡ bytes_eq (ProgramClasses.name_at self.now c) (ProgramClasses.name_at self.now d)) }
    {
        let ClassRef::User(i) = c else {
            return None;
        };
        let ClassRef::User(j) = d else {
            return None;
        };
        self.same_users(i, j)
    }

    /// Whether the classes of two numbers have one name. Of two users' classes no name is looked at.
    pub fn same_class(&self, c: ClassRef, d: ClassRef) -> bool
        ensures { result ≡ bytes_eq (ProgramClasses.name_at self.now c) (ProgramClasses.name_at self.now d) }
    {
        match self.same_soon(c, d) {
            Some(same) => same,
            None => self.name_of(c) == self.name_of(d),
        }
    }

    /// The number of the class that declares a member, where this is a user's that is there.
    #[tactic(auto, using(crate::proofs::JprogramProofs::NumberedWalks::field_owner, crate::proofs::JprogramProofs::NumberedWalks::method_owner))]
    fn declaring(&self, member: Member) -> Option<ClassRef>
        ensures { IfSome result (λ c. MemberResolution.owner_of self.now member ≡ ProgramClasses.name_at self.now c) }
    {
        let _ = self.info_of(member)?;
        match member {
            Member::Field { class, .. } => Some(ClassRef::User(class)),
            Member::Method(id) => Some(ClassRef::User(id.class)),
            _ => None,
        }
    }

    /// Whether a member is declared by a class that has the name of the class of a number. Of two users' classes no name is looked at.
    pub fn declares(&self, class: ClassRef, member: Member) -> bool
        ensures { result ≡ bytes_eq (MemberResolution.owner_of self.now member) (ProgramClasses.name_at self.now class) }
    {
        match self.declaring(member) {
            Some(owner) => self.same_class(owner, class),
            None => self.owner_of(member) == self.name_of(class),
        }
    }

    /// Whether two numbers, of which each is that of its name, are one.
    #[tactic(auto, using(crate::proofs::JprogramProofs::NumberedWalks::one_if, crate::proofs::JprogramProofs::NumberedWalks::two_if))]
    fn are_same(&self, c: ClassRef, d: ClassRef) -> bool
        requires first { IsNumber self.now c }
        requires second { IsNumber self.now d }
        ensures { result ≡ bytes_eq (ProgramClasses.name_at self.now d) (ProgramClasses.name_at self.now c) }
    {
        if c == d {
            return true;
        }
        false
    }

    // ---- upwards by number

    fn above_number(&self, class: ClassRef) -> Option<ClassRef>
        ensures { result ≡ ProgramClasses.super_at self.now class }
    {
        match class {
            ClassRef::User(i) => self.above_user(i),
            ClassRef::Lib(_) => self.super_of(class),
        }
    }

    fn is_upwards_by(&self, c: ClassRef, d: ClassRef) -> bool
        requires first { IsNumber self.now c }
        requires second { IsNumber self.now d }
        ensures { result ≡ list_any (bytes_eq (ProgramClasses.name_at self.now d)) (ProgramClasses.up self.now (ProgramClasses.name_at self.now c)) }
    {
        let mut at = c;
        let steps = self.most_steps();
        for step in 0..steps {
            if self.are_same(at, d) {
                return true;
            }
            match self.above_number(at) {
                None => return false,
                Some(above) => at = above,
            }
        }
        false
    }

    #[tactic(auto, unfolding(crate::specs::jprogram::ProgramClasses::extends))]
    fn extends_by(&self, c: ClassRef, d: ClassRef) -> bool
        requires first { IsNumber self.now c }
        requires second { IsNumber self.now d }
        ensures { result ≡ ProgramClasses.extends self.now (ProgramClasses.name_at self.now c) (ProgramClasses.name_at self.now d) }
    {
        if self.name_of(d) == OBJECT {
            return true;
        }
        self.is_upwards_by(c, d)
    }

    #[tactic(auto, using(crate::proofs::JprogramProofs::NumberedWalks::number_there, crate::proofs::JprogramProofs::NumberedWalks::extends_named))]
    fn extends_soon(&self, c: ClassRef, d: ClassRef) -> Option<bool>
        ensures { IfSome result (λ b. b ≡ ProgramClasses.extends self.now (ProgramClasses.name_at self.now c) (ProgramClasses.name_at self.now d)) }
    {
        let below = self.first_number(c)?;
        let above = self.first_number(d)?;
        Some(self.extends_by(below, above))
    }

    /// Whether a class is another one or stands below it (JVMS 4.1), by their numbers. Every class stands below Object. Of users' classes
    /// no name is looked at.
    pub fn extends_at(&self, c: ClassRef, d: ClassRef) -> bool
        ensures { result ≡ ProgramClasses.extends self.now (ProgramClasses.name_at self.now c) (ProgramClasses.name_at self.now d) }
    {
        match self.extends_soon(c, d) {
            Some(below) => below,
            None => self.extends(self.name_of(c), self.name_of(d)),
        }
    }

    // ---- upwards by name and class

    fn numbered(&self, class: Option<ClassRef>) -> Option<FoundClass<'_>>
        ensures { option_map seen result ≡ option_and_then (ProgramClasses.class_at self.now) class }
    {
        match class {
            Some(class) => self.class_at(class),
            None => None,
        }
    }

    fn over_lib(&self, class: LibClass) -> Option<FoundClass<'_>>
        ensures { option_map seen result ≡ option_and_then (ProgramClasses.find self.now) (ProgramClasses.above (ProgramClasses.Lib class)) }
    {
        match class.superclass() {
            Some(above) => self.find(above.name()),
            None => None,
        }
    }

    /// The class above one that has its number.
    #[tactic(auto, using(crate::proofs::JprogramProofs::NumberedWalks::over_user))]
    fn over(&self, class: FoundClass<'_>) -> Option<FoundClass<'_>>
        requires { ProgramClasses.class_at self.now (ProgramClasses.ref_of (seen class)) ≡ Some (seen class) }
        ensures { option_map seen result ≡ option_and_then (ProgramClasses.find self.now) (ProgramClasses.above (seen class.entry)) }
    {
        match class {
            FoundClass::User(i, _) => self.numbered(self.above_user(i)),
            FoundClass::Lib(class) => self.over_lib(class),
        }
    }

    /// A name, with its class.
    pub fn at<'a>(&'a self, name: &'a [u8]) -> At<'a>
        ensures name { result.name.now ≡ name.now }
        ensures at { IsAt self.now result }
    {
        At {
            name,
            class: self.find(name),
        }
    }

    /// The name above a name, with its class. Of a user's class it takes a look at what is kept, and none at names.
    #[tactic(auto, using(crate::proofs::JprogramProofs::NumberedWalks::at_number, crate::proofs::JprogramProofs::NumberedWalks::at_above, crate::proofs::JprogramProofs::NumberedWalks::at_nowhere,),)]
    pub fn above_at<'a>(&'a self, at: At<'a>) -> Option<At<'a>>
        requires { IsAt self.now at }
        ensures name { option_map (λ a. a.name.now) result ≡ ProgramClasses.above_name self.now at.entry.name.now }
        ensures at { IfSome result (IsAt self.now) }
    {
        let class = at.class?;
        let name = class.above()?;
        Some(At {
            name,
            class: self.over(class),
        })
    }

    /// The first method of a name and a descriptor that the class of a name declares itself.
    #[tactic(auto, using(crate::proofs::JprogramProofs::NumberedWalks::here_user))]
    pub fn method_here(&self, key: Key<'_>, at: At<'_>) -> Option<Member>
        requires key { IsKey key }
        requires at { IsAt self.now at }
        ensures { result ≡ MemberResolution.method_at self.now key.entry.name.now key.entry.desc.now at.entry.name.now }
    {
        let Some(found) = at.class else {
            return None;
        };
        match found {
            FoundClass::User(i, _) => self.method_of(i, key),
            FoundClass::Lib(class) => lib_method_in(self.side(), class, key.name, key.desc),
        }
    }

    /// The field of a name and a descriptor, likewise.
    #[tactic(auto, using(crate::proofs::JprogramProofs::NumberedWalks::here_field))]
    pub(crate) fn field_here(&self, key: Key<'_>, at: At<'_>) -> Option<Member>
        requires key { IsKey key }
        requires at { IsAt self.now at }
        ensures { result ≡ MemberResolution.field_at self.now key.entry.name.now key.entry.desc.now at.entry.name.now }
    {
        let Some(found) = at.class else {
            return None;
        };
        match found {
            FoundClass::User(i, _) => self.field_of(i, key),
            FoundClass::Lib(class) => lib_field_in(self.side(), class, key.name, key.desc),
        }
    }
}
