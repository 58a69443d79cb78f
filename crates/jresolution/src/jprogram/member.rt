use jlib::{LibCall, LibClass};

/// A user's method: the place of its class among the parts, and its place among the methods.
#[rattlefmt::skip]
#[derive(Clone, Copy, Debug, PartialEq, Eq)]
pub struct MethodId { pub class: u32, pub method: u32 }

/// A class at which a method is looked for: a user's, one of the library, or that of an array, whose methods are Object's.
#[rattlefmt::skip]
#[derive(Clone, Copy, Debug, PartialEq, Eq)]
pub enum ClassId { User(u32), Lib(LibClass), Array }

/// What a reference to a field or a method stands for (JVMS 5.4.3).
#[derive(Clone, Copy, Debug, PartialEq, Eq)]
pub enum Member {
    /// A user's field: the place of its class among the parts, and its place among the fields.
    Field { class: u32, field: u32 },
    Method(MethodId),
    /// The library's one field, `java/lang/System.out`.
    LibField,
    LibMethod(LibCall),
}

/// How a method is selected: by `invokevirtual`, by `invokeinterface`, or from the class above on by `invokespecial`.
#[rattlefmt::skip]
#[derive(Clone, Copy, Debug, PartialEq, Eq)]
pub enum CallKind { Virtual, Interface, Special }

/// What is selected where a method is called on an object (JVMS 5.4.6).
#[derive(Clone, Copy, Debug, PartialEq, Eq)]
pub enum Selected {
    Method(MethodId),
    Lib(LibCall),
    /// A method without code: a user's, or one of an interface of the library.
    Abstract(Member),
    Missing,
}
