ghost use Rattle.std.specs.Prelude.{◌≡◌, IfOk};
ghost use Rattle.jresolution.specs.jprogram.ClassFileParts;
ghost use Rattle.jlinking.specs.jmembers.MemberDeclarations;
ghost use Rattle.jlinking.specs.jmembers.PoolTexts.{declaring, marks_of, number_of};

use crate::jmembers::descs::{DescMarks, desc_marks, marks_at};
use crate::jmembers::numbers::Numbers;
use jclass::{ClassParts, MemberInfo};
use jresolution::jprogram::{LinkKind, NamedProgram};
use std::alloc::{AllocError, Global};
use std::marker::Model;

/// A class of a program by its place, with what is known of its pool's texts. Contracts see the program, the place and the class.
#[derive(Drop)]
pub struct ClassTexts<'a> {
    program: &'a NamedProgram,
    place: u32,
    class: &'a ClassParts,
    numbers: Numbers<'a>,
    marks: Vec<DescMarks>,
}

impl<'a> Model for ClassTexts<'a> {
    ghost use Rattle.std.specs.Prelude.{◌≡◌};
    ghost use Rattle.jlinking.specs.jmembers.PoolTexts.{Declaring, declaring, desc_marks};

    ghost Value = { Declaring };

    ghost view = { λ t. declaring t.program.now t.place t.class.now };

    ghost invariant = { λ t. (t.numbers ≡ t.class.now.pool) × (t.marks.items ≡ desc_marks t.program.now t.class.now.pool) };
}

impl<'a> ClassTexts<'a> {
    /// A class of a program, and what is known of its texts.
    pub fn of(
        alloc: Global,
        program: &'a NamedProgram,
        place: u32,
        class: &'a ClassParts,
    ) -> Result<ClassTexts<'a>, AllocError>
        ensures { IfOk result (λ t. t ≡ declaring program.now place class.now) }
    {
        let entries = class.pool.entries();
        let numbers = Numbers::of(alloc, entries)?;
        let marks = desc_marks(alloc, program, entries)?;
        Ok(ClassTexts {
            program,
            place,
            class,
            numbers,
            marks,
        })
    }

    /// The program.
    pub fn program(&self) -> &'a NamedProgram
        ensures { result.now ≡ self.now.program }
    {
        self.program
    }

    /// The place of the class among the program's parts.
    pub fn place(&self) -> u32
        ensures { result ≡ self.now.place }
    {
        self.place
    }

    /// The class.
    pub fn class(&self) -> &'a ClassParts
        ensures { result.now ≡ self.now.class }
    {
        self.class
    }

    /// The number of the text at an index.
    pub fn number(&self, i: u16) -> usize
        ensures { result ≡ number_of self.now.class.pool (ClassFileParts.text self.now.class.pool i) }
    {
        self.numbers.at(i)
    }

    /// What is known of a member's descriptor.
    pub fn marks_of(&self, member: &MemberInfo) -> DescMarks
        ensures { result ≡ marks_of self.now.program (ClassFileParts.member_desc self.now.class member.now) }
    {
        marks_at(
            self.program,
            self.class.pool.entries(),
            self.marks.as_slice(),
            member.desc,
        )
    }

    /// NoClass where a member's descriptor names a class that isn't there, an array's by its elements.
    #[tactic(auto, unfolding(crate::specs::jmembers::MemberDeclarations::types_test))]
    pub fn types_test(&self, member: &MemberInfo) -> Option<LinkKind>
        ensures { result ≡ MemberDeclarations.types_test self.now.program self.now.class member.now }
    {
        if self.marks_of(member).missing {
            return Some(LinkKind::NoClass);
        }
        None
    }
}
