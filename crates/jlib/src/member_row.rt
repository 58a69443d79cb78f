ghost use Rattle.std.specs.Prelude.{◌≡◌};
ghost use Rattle.jlib.specs.LibraryMembers;
ghost use Rattle.jlib.specs.declared.calls.MemberKind.TheVariants as kinds;
ghost use Rattle.jlib.specs.declared.side.Sides.TheVariants as sided;

use crate::calls::MemberKind;
use crate::classes::LibClass;
use crate::side::{Side, Sides};
use std::marker::Model;

/// A row of the table of members: the class that declares it, its name and descriptor, what it is, and the sides that have it.
#[derive(Drop)]
pub(crate) struct MemberRow {
    owner: LibClass,
    name: &'static [u8],
    desc: &'static [u8],
    kind: MemberKind,
    sides: Sides,
}

impl Model for MemberRow {
    ghost use Rattle.jlib.specs.LibraryMembers.{Member};

    ghost Value = { Member };

    ghost view = { λ r. record { owner = r.owner; name = r.name.now; desc = r.desc.now; kind = r.kind; sides = r.sides } };
}

pub(crate) fn static_field(owner: LibClass, name: &'static [u8], desc: &'static [u8]) -> MemberRow
    ensures { result ≡ LibraryMembers.a_member sided.Both kinds.StaticField owner name.now desc.now }
{
    MemberRow {
        owner,
        name,
        desc,
        kind: MemberKind::StaticField,
        sides: Sides::Both,
    }
}

fn constructor_of(sides: Sides, owner: LibClass, desc: &'static [u8]) -> MemberRow
    ensures { result ≡ LibraryMembers.constructor_of sides owner desc.now }
{
    MemberRow {
        owner,
        name: b"<init>",
        desc,
        kind: MemberKind::Constructor,
        sides,
    }
}

pub(crate) fn constructor(owner: LibClass, desc: &'static [u8]) -> MemberRow
    ensures { result ≡ LibraryMembers.constructor owner desc.now }
{
    constructor_of(Sides::Both, owner, desc)
}

/// A constructor that one side alone has.
pub(crate) fn constructor_on(side: Side, owner: LibClass, desc: &'static [u8]) -> MemberRow
    ensures { result ≡ LibraryMembers.constructor_of (sided.Alone side) owner desc.now }
{
    constructor_of(Sides::Alone(side), owner, desc)
}

pub(crate) fn method(owner: LibClass, name: &'static [u8], desc: &'static [u8]) -> MemberRow
    ensures { result ≡ LibraryMembers.method owner name.now desc.now }
{
    MemberRow {
        owner,
        name,
        desc,
        kind: MemberKind::Method,
        sides: Sides::Both,
    }
}

pub(crate) fn static_method(owner: LibClass, name: &'static [u8], desc: &'static [u8]) -> MemberRow
    ensures { result ≡ LibraryMembers.a_member sided.Both kinds.StaticMethod owner name.now desc.now }
{
    MemberRow {
        owner,
        name,
        desc,
        kind: MemberKind::StaticMethod,
        sides: Sides::Both,
    }
}

/// A static method that one side alone has.
pub(crate) fn static_on(
    side: Side,
    owner: LibClass,
    name: &'static [u8],
    desc: &'static [u8],
) -> MemberRow
    ensures { result ≡ LibraryMembers.static_on side owner name.now desc.now }
{
    MemberRow {
        owner,
        name,
        desc,
        kind: MemberKind::StaticMethod,
        sides: Sides::Alone(side),
    }
}

/// A method that an interface declares, on one side alone.
pub(crate) fn abstract_on(
    side: Side,
    owner: LibClass,
    name: &'static [u8],
    desc: &'static [u8],
) -> MemberRow
    ensures { result ≡ LibraryMembers.abstract_on side owner name.now desc.now }
{
    MemberRow {
        owner,
        name,
        desc,
        kind: MemberKind::AbstractMethod,
        sides: Sides::Alone(side),
    }
}

impl MemberRow {
    pub(crate) fn owner(self) -> LibClass
        ensures { result ≡ self.owner }
    {
        self.owner
    }

    pub(crate) fn name(self) -> &'static [u8]
        ensures { result.now ≡ self.name }
    {
        self.name
    }

    pub(crate) fn desc(self) -> &'static [u8]
        ensures { result.now ≡ self.desc }
    {
        self.desc
    }

    pub(crate) fn kind(self) -> MemberKind
        ensures { result ≡ self.kind }
    {
        self.kind
    }

    pub(crate) fn sides(self) -> Sides
        ensures { result ≡ self.sides }
    {
        self.sides
    }
}
