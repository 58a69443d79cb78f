ghost use Rattle.std.specs.Prelude.{◌≡◌, Some, None};
ghost use Rattle.jlib.specs.LibraryClasses;
ghost use Rattle.jlib.specs.declared.classes.ClassKind.TheVariants as kinds;
ghost use Rattle.jlib.specs.declared.side.Sides.TheVariants as sides;

use crate::classes::{ClassKind, LibClass};
use crate::side::{Side, Sides};
use std::marker::Model;

/// A row of the table of classes: a name, what it extends, what it is to users, the interface that it implements, and the sides
/// that have it.
#[derive(Drop)]
pub(crate) struct ClassRow {
    name: &'static [u8],
    superclass: Option<LibClass>,
    kind: ClassKind,
    implemented: Option<LibClass>,
    sides: Sides,
}

impl Model for ClassRow {
    ghost use Rattle.jlib.specs.LibraryClasses.{Class};

    ghost Value = { Class };

    ghost view = { λ r. record { name = r.name.now; superclass = r.superclass; kind = r.kind; implemented = r.implemented; sides = r.sides } };
}

fn plain(kind: ClassKind, name: &'static [u8], superclass: LibClass) -> ClassRow
    ensures { result ≡ LibraryClasses.plain kind name.now superclass }
{
    ClassRow {
        name,
        superclass: Some(superclass),
        kind,
        implemented: None,
        sides: Sides::Both,
    }
}

pub(crate) fn open(name: &'static [u8], superclass: LibClass) -> ClassRow
    ensures { result ≡ LibraryClasses.plain kinds.Open name.now superclass }
{
    plain(ClassKind::Open, name, superclass)
}

pub(crate) fn open_abstract(name: &'static [u8], superclass: LibClass) -> ClassRow
    ensures { result ≡ LibraryClasses.plain kinds.OpenAbstract name.now superclass }
{
    plain(ClassKind::OpenAbstract, name, superclass)
}

pub(crate) fn closed(name: &'static [u8], superclass: LibClass) -> ClassRow
    ensures { result ≡ LibraryClasses.plain kinds.Closed name.now superclass }
{
    plain(ClassKind::Closed, name, superclass)
}

pub(crate) fn closed_abstract(name: &'static [u8], superclass: LibClass) -> ClassRow
    ensures { result ≡ LibraryClasses.plain kinds.ClosedAbstract name.now superclass }
{
    plain(ClassKind::ClosedAbstract, name, superclass)
}

/// An interface, whose class file names Object as its superclass (JVMS 4.1).
pub(crate) fn interface(name: &'static [u8]) -> ClassRow
    ensures { result ≡ LibraryClasses.an_interface name.now }
{
    plain(ClassKind::Interface, name, LibClass::Object)
}

/// The row of Object, which extends nothing.
pub(crate) fn top(name: &'static [u8]) -> ClassRow
    ensures { result ≡ record { name = name.now; superclass = None; kind = kinds.Open; implemented = None; sides = sides.Both } }
{
    ClassRow {
        name,
        superclass: None,
        kind: ClassKind::Open,
        implemented: None,
        sides: Sides::Both,
    }
}

impl ClassRow {
    /// The row of a class that implements an interface besides.
    pub(crate) fn implementing(self, interface: LibClass) -> ClassRow
        ensures { result ≡ record self { implemented = Some interface } }
    {
        ClassRow {
            name: self.name,
            superclass: self.superclass,
            kind: self.kind,
            implemented: Some(interface),
            sides: self.sides,
        }
    }

    /// The row of a class that one side alone has.
    pub(crate) fn limit_to_side(self, side: Side) -> ClassRow
        ensures { result ≡ LibraryClasses.alone side self }
    {
        ClassRow {
            name: self.name,
            superclass: self.superclass,
            kind: self.kind,
            implemented: self.implemented,
            sides: Sides::Alone(side),
        }
    }

    pub(crate) fn name(self) -> &'static [u8]
        ensures { result.now ≡ self.name }
    {
        self.name
    }

    pub(crate) fn superclass(self) -> Option<LibClass>
        ensures { result ≡ self.superclass }
    {
        self.superclass
    }

    pub(crate) fn kind(self) -> ClassKind
        ensures { result ≡ self.kind }
    {
        self.kind
    }

    pub(crate) fn implemented(self) -> Option<LibClass>
        ensures { result ≡ self.implemented }
    {
        self.implemented
    }

    pub(crate) fn sides(self) -> Sides
        ensures { result ≡ self.sides }
    {
        self.sides
    }
}
