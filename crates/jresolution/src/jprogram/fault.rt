/// Which rule of linking a class or a member breaks.
#[derive(Clone, Copy, Debug, PartialEq, Eq)]
pub enum LinkKind {
    /// A class of this name stands already, or a member of this name and descriptor.
    Twice,
    /// A class that is named isn't there.
    NoClass,
    /// A class stands among its own superclasses and superinterfaces.
    Circular,
    /// What a class extends or lists may not be extended or listed.
    BadSuper,
    /// A method overrides a final one.
    FinalMethod,
    /// A field or a method that is named isn't there.
    NoMember,
    /// A class or a member that is named may not be used from there.
    NotAccessible,
    /// A method overrides one of the library's.
    OverridesLibrary,
    /// A name that the passing library keeps for itself.
    ReservedName,
    /// What is left out of the machine.
    LeftOut,
    /// A member or a class is used in another way than it is declared.
    BadUse,
}

/// The first broken rule: the place of the class among the parts, and where a member breaks it its place among the methods, or past
/// them among the fields.
#[rattlefmt::skip]
#[derive(Clone, Copy, Debug, PartialEq, Eq)]
pub struct LinkFault { pub class: u32, pub member: Option<u32>, pub kind: LinkKind }
