ghost use Rattle.std.specs.Prelude.{◌≡◌, ◌≤◌, ◌+◌, IfErr, IfOk, IfSome, length, option_map, slice_get};
ghost use Rattle.std.specs.List.{list_any};
ghost use Rattle.std.specs.Str.{bytes_eq};
ghost use Rattle.jresolution.specs.jprogram.ProgramClasses;
ghost use Rattle.jresolution.specs.jprogram.MemberDigests.{AreFirsts};
ghost use Rattle.jresolution.specs.jprogram.InterfaceNumbers;
ghost use Rattle.jresolution.specs.jprogram.ClassTables.{AreLines, IsLine};
ghost use Rattle.jresolution.specs.jprogram.FoundClasses.{seen};
ghost use Rattle.jresolution.specs.jprogram.NameSlots;

use crate::jprogram::faces::{face_at, faces_of};
use crate::jprogram::firsts::{Firsts, firsts_in};
use crate::jprogram::found_class::FoundClass;
use crate::jprogram::library::class_named;
use crate::jprogram::lines::Line;
use crate::jprogram::names::places_of;
use crate::jprogram::part::{ClassRef, CodePart};
use crate::jprogram::parts::this_name;
use crate::jprogram::slots::{place_in, slots_of};
use jclass::ClassFile;
use jground::jbase::Seq;
use jlib::{LIBRARY_CLASSES, Side};
use std::alloc::{AllocFailed, Global};
use std::collections::BTreeMap;
use std::marker::Model;

pub(crate) const OBJECT: &[u8] = b"java/lang/Object";

/// A program for a side's library: its parts, whose classes are found by name. Nothing is asked of the parts: classes may be missing,
/// or stand twice, or stand in circles. Contracts see it as its side and its parts.
#[derive(Drop)]
pub struct NamedProgram {
    side: Side,
    parts: Vec<CodePart>,
    /// The first place of each name.
    places: BTreeMap<Vec<u8>, u32>,
    /// The first place of each slot of names.
    slots: Seq<Option<u32>>,
    /// The number of each interface.
    faces: Seq<Option<u32>>,
    /// The first members of each class by their digests.
    firsts: Vec<Firsts>,
    /// What is kept of each class, so that no walk upwards looks at names; of those behind the last nothing is.
    lines: Seq<Line>,
}

impl Model for NamedProgram {
    ghost use Rattle.std.specs.Prelude.{◌≤◌, length};
    ghost use Rattle.jresolution.specs.jprogram.ProgramClasses.{Program, program};
    ghost use Rattle.jresolution.specs.jprogram.MemberDigests.{AreTold};
    ghost use Rattle.jresolution.specs.jprogram.InterfaceNumbers.{AreFaces};
    ghost use Rattle.jresolution.specs.jprogram.ClassTables.{AreLines};
    ghost use Rattle.jresolution.specs.jprogram.NameTable.{ArePlaces};
    ghost use Rattle.jresolution.specs.jprogram.NameSlots.{AreSlots};

    ghost Value = { Program };

    ghost view = { λ p. program p.side p.parts.items };

    ghost invariant = { λ p. ArePlaces p.parts.items p.places
        × (AreSlots p.parts.items p.slots × (AreFaces p.parts.items p.faces × (AreTold p.parts.items p.firsts.items
        × (AreLines (program p.side p.parts.items) p.lines × (length p.parts.items ≤ 0xffff))))) };
}

impl NamedProgram {
    /// The program of parts. An error, which says that no memory was left, hands them back.
    pub fn of(
        alloc: Global,
        parts: Vec<CodePart>,
        side: Side,
    ) -> Result<NamedProgram, AllocFailed<Vec<CodePart>>>
        requires { length parts.items ≤ 0xffff }
        ensures ok { IfOk result (λ p. p ≡ ProgramClasses.program side parts.items) }
        ensures err { IfErr result (λ e. e.value ≡ parts) }
    {
        let Ok(places) = places_of(alloc, parts.as_slice()) else {
            return Err(AllocFailed { value: parts });
        };
        let Ok(slots) = slots_of(alloc, parts.as_slice()) else {
            return Err(AllocFailed { value: parts });
        };
        let Ok(faces) = faces_of(alloc, parts.as_slice()) else {
            return Err(AllocFailed { value: parts });
        };
        let Ok(firsts) = firsts_in(alloc, parts.as_slice()) else {
            return Err(AllocFailed { value: parts });
        };
        let named = NamedProgram {
            side,
            parts,
            places,
            slots,
            faces,
            firsts,
            lines: Seq::new(alloc),
        };
        let Ok(lines) = named.all_lines(alloc) else {
            return Err(AllocFailed { value: named.parts });
        };
        Ok(named.keeping(lines))
    }

    /// The same, with what is kept of its classes.
    fn keeping(self, lines: Seq<Line>) -> NamedProgram
        requires { AreLines self lines }
        ensures { result ≡ self }
    {
        NamedProgram { lines, ..self }
    }

    /// What is kept of a user's class.
    pub(crate) fn line(&self, i: u32) -> Option<Line>
        ensures { IfSome result (IsLine self.now i) }
    {
        self.lines.as_slice().get(i as usize).copied()
    }

    /// Its side.
    pub fn side(&self) -> Side
        ensures { result ≡ self.now.side }
    {
        self.side
    }

    /// The parts, in their order.
    pub fn parts(&self) -> &[CodePart]
        ensures same { result.now ≡ self.now.parts }
        ensures few { length self.now.parts ≤ 0xffff }
    {
        self.parts.as_slice()
    }

    /// The parts, handed back. It takes no memory.
    pub fn into_parts(self) -> Vec<CodePart>
        ensures { result.items ≡ self.parts }
    {
        self.parts
    }

    // ---- finding a class

    fn is_named(&self, i: u32, name: &[u8]) -> bool
        ensures { result ≡ NameSlots.is_named name.now (slice_get self.now.parts i) }
    {
        match self.parts.as_slice().get(i as usize) {
            Some(part) => this_name(part.class.parts()) == name,
            None => false,
        }
    }

    fn noted_place(&self, name: &[u8]) -> Option<u32>
        ensures { result ≡ ProgramClasses.place_of self.now.parts name.now }
    {
        self.places.get(name).copied()
    }

    /// The place of the first class of a name. It stands in the slot of the name, or else another of that slot stands in front of it.
    #[tactic(auto, using(crate::proofs::JprogramProofs::NameSlots::none_slotted, crate::proofs::JprogramProofs::NameSlots::first_slotted))]
    pub(crate) fn place_of(&self, name: &[u8]) -> Option<u32>
        ensures { result ≡ ProgramClasses.place_of self.now.parts name.now }
    {
        let first = place_in(&self.slots, name)?;
        if self.is_named(first, name) {
            return Some(first);
        }
        self.noted_place(name)
    }

    /// The number of a part's class, where this is an interface, among the interfaces.
    pub(crate) fn face_number(&self, i: u32) -> Option<u32>
        ensures { result ≡ InterfaceNumbers.face_number self.now.parts i }
    {
        face_at(&self.faces, i as usize)
    }

    pub(crate) fn user_at(&self, i: u32) -> Option<FoundClass<'_>>
        ensures { option_map seen result ≡ ProgramClasses.user_at self.now i }
    {
        match self.parts.as_slice().get(i as usize) {
            Some(part) => Some(FoundClass::User(i, &part.class)),
            None => None,
        }
    }

    /// A part's class by its place, with its first members.
    #[tactic(auto, using(crate::proofs::JprogramProofs::DigestTables::told_are, crate::proofs::JprogramProofs::DigestTables::told_there))]
    pub(crate) fn user(&self, i: u32) -> Option<(&ClassFile, &Firsts)>
        ensures class { option_map (λ x. ProgramClasses.User i x.0.now) result ≡ ProgramClasses.user_at self.now i }
        ensures firsts { IfSome result (λ x. AreFirsts x.0.now x.1.now) }
    {
        let part = self.parts.as_slice().get(i as usize)?;
        let firsts = self.firsts.as_slice().get(i as usize)?;
        Some((&part.class, firsts))
    }

    pub(crate) fn library_class(&self, name: &[u8]) -> Option<FoundClass<'_>>
        ensures { option_map seen result ≡ ProgramClasses.found_at self.now name.now None }
    {
        match class_named(self.side, name) {
            Some(class) => Some(FoundClass::Lib(class)),
            None => None,
        }
    }

    /// The class of a name: a user's first, else the library's.
    #[tactic(auto, unfolding(crate::specs::jprogram::ProgramClasses::find))]
    pub(crate) fn find(&self, name: &[u8]) -> Option<FoundClass<'_>>
        ensures { option_map seen result ≡ ProgramClasses.find self.now name.now }
    {
        match self.place_of(name) {
            Some(i) => self.user_at(i),
            None => self.library_class(name),
        }
    }

    /// The class of a number.
    pub(crate) fn class_at(&self, class: ClassRef) -> Option<FoundClass<'_>>
        ensures { option_map seen result ≡ ProgramClasses.class_at self.now class }
    {
        match class {
            ClassRef::User(i) => self.user_at(i),
            ClassRef::Lib(class) => Some(FoundClass::Lib(class)),
        }
    }

    /// The number of the class of a name: a user's, the first of that name, or else one of the side's library.
    pub fn class_of(&self, name: &[u8]) -> Option<ClassRef>
        ensures { result ≡ option_map ProgramClasses.ref_of (ProgramClasses.find self.now name.now) }
    {
        match self.find(name) {
            Some(found) => Some(found.number()),
            None => None,
        }
    }

    /// The name of the class of a number, empty where no part has it.
    pub fn name_of(&self, class: ClassRef) -> &[u8]
        ensures { result.now ≡ ProgramClasses.name_at self.now class }
    {
        match self.class_at(class) {
            Some(found) => found.name(),
            None => &[],
        }
    }

    // ---- upwards

    /// The name of the class above the class of a name.
    pub fn above_name(&self, name: &[u8]) -> Option<&[u8]>
        ensures { option_map (λ name. name.now) result ≡ ProgramClasses.above_name self.now name.now }
    {
        match self.find(name) {
            Some(found) => found.above(),
            None => None,
        }
    }

    /// The number of the class above the class of a number. None where there is no such class, or none above it, or where what stands
    /// above isn't found.
    pub fn super_of(&self, class: ClassRef) -> Option<ClassRef>
        ensures { result ≡ ProgramClasses.super_at self.now class }
    {
        let found = self.class_at(class)?;
        let name = found.above()?;
        self.class_of(name)
    }

    /// How many steps a walk upwards takes at most: as many as there are classes known, and one more.
    #[tactic(auto, using(crate::proofs::JprogramProofs::Chains::known_count))]
    pub fn most_steps(&self) -> usize
        ensures { result ≡ length (ProgramClasses.known self.now) + 1 }
    {
        self.parts.len() + LIBRARY_CLASSES as usize + 1
    }

    /// Whether the second name is that of the first class or of one above it.
    #[tactic(auto, using(crate::proofs::JprogramProofs::Chains::chain_at, crate::proofs::JprogramProofs::Chains::chain_end))]
    fn is_upwards(&self, c: &[u8], d: &[u8]) -> bool
        ensures { result ≡ list_any (bytes_eq d.now) (ProgramClasses.up self.now c.now) }
    {
        let mut at = c;
        let steps = self.most_steps();
        for step in 0..steps {
            if d == at {
                return true;
            }
            match self.above_name(at) {
                None => return false,
                Some(above) => at = above,
            }
        }
        false
    }

    /// Whether the class of the first name is that of the second or stands below it (JVMS 4.1). Every name stands below Object.
    #[tactic(auto, unfolding(crate::specs::jprogram::ProgramClasses::extends))]
    pub fn extends(&self, c: &[u8], d: &[u8]) -> bool
        ensures { result ≡ ProgramClasses.extends self.now c.now d.now }
    {
        if d == OBJECT {
            return true;
        }
        self.is_upwards(c, d)
    }

    /// Whether the class of a name is an interface; it isn't where there is none.
    pub fn is_interface(&self, name: &[u8]) -> bool
        ensures { result ≡ ProgramClasses.holds ProgramClasses.is_interface (ProgramClasses.find self.now name.now) }
    {
        match self.find(name) {
            Some(found) => found.is_interface(),
            None => false,
        }
    }
}
