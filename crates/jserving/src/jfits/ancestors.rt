ghost use Rattle.std.specs.Prelude.{◌≡◌, IfOk, true};
ghost use Rattle.std.specs.List.{list_any};
ghost use Rattle.std.specs.Str.{bytes_eq};
ghost use Rattle.jlib.specs.LibraryClasses as library;
ghost use Rattle.jresolution.specs.jprogram.ProgramClasses;
ghost use Rattle.jresolution.specs.jprogram.ProgramClasses.{name_at, tree};
ghost use Rattle.jresolution.specs.jprogram.ImplementedInterfaces.{IsNumber};
ghost use Rattle.jresolution.specs.jprogram.OrderedPrograms.{StandsInOrder};
ghost use Rattle.jresolution.specs.juses.InternedTypes.{class_named};

use crate::jfits::columns;
use crate::jfits::lines::{Line, lines_of};
use jground::jbase::Seq;
use jlib::LibClass;
use jlinking::jlink::LinkedProgram;
use jresolution::jprogram::{ClassRef, NamedProgram};
use std::alloc::{AllocError, Global};
use std::marker::Model;

/// What stands above the classes of a program that links: classes, and interfaces, each by its number. Contracts see the program.
#[derive(Drop)]
pub struct Ancestors<'p> {
    program: &'p LinkedProgram,
    lines: Seq<Line>,
}

impl<'p> Model for Ancestors<'p> {
    ghost use Rattle.jresolution.specs.jprogram.ProgramClasses.{Program};
    ghost use Rattle.jserving.specs.jfits.SubtypeTables.{AreLines};

    ghost Value = { Program };

    ghost view = { λ a. a.program.now };

    ghost invariant = { λ a. AreLines a.program.now a.lines };
}

impl<'p> Ancestors<'p> {
    /// Those of a program.
    pub fn of(alloc: Global, program: &'p LinkedProgram) -> Result<Ancestors<'p>, AllocError>
        ensures { IfOk result (λ a. a ≡ program.now) }
    {
        let lines = lines_of(alloc, program.in_order())?;
        Ok(Ancestors { program, lines })
    }

    /// The program with its names.
    pub(crate) fn named(&self) -> &NamedProgram
        ensures same { result.now ≡ self.now }
        ensures order { StandsInOrder self.now }
    {
        self.program.in_order()
    }

    /// The law that its classes stand in order. It has no body to run; its contract is the law.
    fn order_law(&self)
        ensures { StandsInOrder self.now }
    {
        self.program.in_order();
    }

    /// Whether a number is that of a class of the program.
    pub(crate) fn is_known(&self, c: ClassRef) -> bool
        ensures { result ≡ true → IsNumber self.now c }
    {
        self.program.is_known(c)
    }

    /// Whether two classes of the program are one.
    #[tactic(auto, using(crate::proofs::JfitsProofs::SuperclassWalks::one_if, crate::proofs::JfitsProofs::SuperclassWalks::two_if))]
    fn are_same(&self, c: ClassRef, d: ClassRef) -> bool
        requires first { IsNumber self.now c }
        requires second { IsNumber self.now d }
        ensures { result ≡ bytes_eq (name_at self.now d) (name_at self.now c) }
    {
        if c == d {
            return true;
        }
        false
    }

    /// Whether a class of the program is this one of its library.
    pub(crate) fn is_lib(&self, d: ClassRef, of: LibClass) -> bool
        requires known { IsNumber self.now d }
        requires there { library.stands_on self.now.side of ≡ true }
        ensures { result ≡ bytes_eq (name_at self.now d) (library.name_of of) }
    {
        self.order_law();
        self.are_same(ClassRef::Lib(of), d)
    }

    /// The class above a class of the program.
    fn above(&self, c: ClassRef) -> Option<ClassRef>
        requires { IsNumber self.now c }
        ensures { result ≡ ProgramClasses.super_at self.now c }
    {
        self.order_law();
        match c {
            ClassRef::User(i) => match self.lines.as_slice().get(i as usize) {
                Some(line) => line.above,
                None => None,
            },
            ClassRef::Lib(c) => match columns::above(c) {
                Some(above) => Some(ClassRef::Lib(above)),
                None => None,
            },
        }
    }

    /// Whether a class of the program is an interface.
    pub(crate) fn is_interface(&self, d: ClassRef) -> bool
        requires { IsNumber self.now d }
        ensures { result ≡ (tree self.now).is_interface (class_named self.now d) }
    {
        match d {
            ClassRef::User(i) => match self.lines.as_slice().get(i as usize) {
                Some(line) => line.is_interface,
                None => false,
            },
            ClassRef::Lib(d) => columns::is_interface(d),
        }
    }

    /// Whether a class of the program is another one, or stands below it by superclasses.
    fn is_upwards(&self, c: ClassRef, d: ClassRef) -> bool
        requires first { IsNumber self.now c }
        requires second { IsNumber self.now d }
        ensures { result ≡ list_any (bytes_eq (name_at self.now d)) (ProgramClasses.up self.now (name_at self.now c)) }
    {
        let mut at = c;
        let steps = self.named().most_steps();
        for step in 0..steps {
            if self.are_same(at, d) {
                return true;
            }
            match self.above(at) {
                None => return false,
                Some(above) => at = above,
            }
        }
        false
    }

    /// Whether a class of the program is another one or stands below it (JVMS 4.1). Each stands below Object.
    #[tactic(auto, unfolding(jresolution::specs::jprogram::ProgramClasses::extends))]
    pub(crate) fn extends(&self, c: ClassRef, d: ClassRef) -> bool
        requires first { IsNumber self.now c }
        requires second { IsNumber self.now d }
        ensures { result ≡ ProgramClasses.extends self.now (name_at self.now c) (name_at self.now d) }
    {
        if self.is_lib(d, LibClass::Object) {
            return true;
        }
        self.is_upwards(c, d)
    }

    /// Whether a class has an interface, itself or by a class above it, directly or through others, of any two numbers.
    pub(crate) fn implements(&self, c: ClassRef, d: ClassRef) -> bool
        ensures { result ≡ ProgramClasses.implements self.now (name_at self.now c) (name_at self.now d) }
    {
        self.program.implements_at(c, d)
    }
}
