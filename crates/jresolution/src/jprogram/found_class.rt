ghost use Rattle.std.specs.Prelude.{◌≡◌, length, option_map, slice_get};
ghost use Rattle.jresolution.specs.jprogram.ProgramClasses;
ghost use Rattle.jresolution.specs.jprogram.ClassFileParts;
ghost use Rattle.jresolution.specs.jprogram.FoundClasses.{seen};

use crate::jprogram::part::ClassRef;
use crate::jprogram::parts::{class_text, super_name, this_name};
use bitflags::Flags;
use jclass::{Access, ClassFile, ClassParts};
use jlib::LibClass;

/// A class that was found: a user's, with its place among the parts, or one of the library.
#[derive(Clone, Copy)]
pub enum FoundClass<'a> {
    User(u32, &'a ClassFile),
    Lib(LibClass),
}

impl<'a> FoundClass<'a> {
    /// Its number.
    pub fn number(self) -> ClassRef
        ensures { result ≡ ProgramClasses.ref_of (seen self.entry) }
    {
        match self {
            FoundClass::User(i, _) => ClassRef::User(i),
            FoundClass::Lib(class) => ClassRef::Lib(class),
        }
    }

    /// Its name.
    pub fn name(self) -> &'a [u8]
        ensures { result.now ≡ ProgramClasses.name_of (seen self.entry) }
    {
        match self {
            FoundClass::User(_, class) => this_name(class.parts()),
            FoundClass::Lib(class) => class.name(),
        }
    }

    /// The name of the class that it extends.
    pub fn above(self) -> Option<&'a [u8]>
        ensures { option_map (λ name. name.now) result ≡ ProgramClasses.above (seen self.entry) }
    {
        match self {
            FoundClass::User(_, class) => super_name(class.parts()),
            FoundClass::Lib(class) => match class.superclass() {
                Some(above) => Some(above.name()),
                None => None,
            },
        }
    }

    /// The name of an interface that it lists, by its place in the list.
    pub fn face(self, k: usize) -> Option<&'a [u8]>
        ensures { option_map (λ name. name.now) result ≡ slice_get (ProgramClasses.faces (seen self.entry)) k }
    {
        match self {
            FoundClass::User(_, class) => user_face(class.parts(), k),
            FoundClass::Lib(class) => lib_face(class, k),
        }
    }

    /// How many interfaces it lists.
    pub fn face_count(self) -> usize
        ensures { result ≡ length (ProgramClasses.faces (seen self.entry)) }
    {
        match self {
            FoundClass::User(_, class) => class.parts().interfaces.as_slice().len(),
            FoundClass::Lib(class) => match class.implemented() {
                Some(_) => 1,
                None => 0,
            },
        }
    }

    /// Whether it is an interface.
    pub fn is_interface(self) -> bool
        ensures { result ≡ ProgramClasses.is_interface (seen self.entry) }
    {
        match self {
            FoundClass::User(_, class) => class.parts().flags.contains(Access::INTERFACE),
            FoundClass::Lib(class) => class.is_interface(),
        }
    }

    /// Whether users may not extend it.
    pub fn is_closed(self) -> bool
        ensures { result ≡ ProgramClasses.is_closed (seen self.entry) }
    {
        match self {
            FoundClass::User(_, class) => class.parts().flags.contains(Access::FINAL),
            FoundClass::Lib(class) => !class.is_open(),
        }
    }

    /// Whether it is abstract, interfaces aside.
    pub fn is_abstract(self) -> bool
        ensures { result ≡ ProgramClasses.is_abstract (seen self.entry) }
    {
        match self {
            FoundClass::User(_, class) => class.parts().flags.contains(Access::ABSTRACT),
            FoundClass::Lib(class) => class.is_abstract(),
        }
    }

    /// Whether it is public.
    pub fn is_public(self) -> bool
        ensures { result ≡ ProgramClasses.is_public (seen self.entry) }
    {
        match self {
            FoundClass::User(_, class) => class.parts().flags.contains(Access::PUBLIC),
            FoundClass::Lib(_) => true,
        }
    }
}

fn user_face(class: &ClassParts, k: usize) -> Option<&[u8]>
    ensures { option_map (λ name. name.now) result ≡ slice_get (ClassFileParts.interface_names class.now) k }
{
    match class.interfaces.as_slice().get(k) {
        Some(i) => Some(class_text(&class.pool, *i)),
        None => None,
    }
}

fn lib_face(class: LibClass, k: usize) -> Option<&'static [u8]>
    ensures { option_map (λ name. name.now) result ≡ slice_get (ProgramClasses.faces (ProgramClasses.Lib class)) k }
{
    if 0 < k {
        return None;
    }
    match class.implemented() {
        Some(face) => Some(face.name()),
        None => None,
    }
}
