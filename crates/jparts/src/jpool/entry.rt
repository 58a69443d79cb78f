ghost use Rattle.std.specs.Prelude.{◌≡◌, IfOk};

use jground::jbase::{Seq, TryClone};
use std::alloc::{AllocError, Global};

/// An entry of the constant pool (JVMS 4.4). Numbers are indices of other entries, unless said otherwise.
#[derive(Debug, Drop)]
pub enum Entry {
    /// The index 0, and the second index of a `Long` or a `Double`.
    Unused,
    /// A text's bytes, which should be modified UTF-8.
    Utf8(Seq<u8>),
    Integer(i32),
    /// The bits of a number.
    Float(u32),
    Long(i64),
    /// The bits of a number.
    Double(u64),
    /// A class or an array type: its name.
    Class(u16),
    /// A string: its text.
    Str(u16),
    /// A field: its class, and its name and type.
    Field(u16, u16),
    /// A method of a class: its class, and its name and type.
    Method(u16, u16),
    /// A method of an interface: its interface, and its name and type.
    InterfaceMethod(u16, u16),
    /// A member's name and descriptor.
    NameAndType(u16, u16),
    /// A kind from 1 to 9, which isn't looked at, and a member.
    MethodHandle(u8, u16),
    /// A descriptor.
    MethodType(u16),
    /// A number of a bootstrap method, which isn't looked at, and a name and type.
    InvokeDynamic(u16, u16),
}

impl Entry {
    /// The same entry again.
    pub fn copy(&self, alloc: Global) -> Result<Entry, AllocError>
        ensures { IfOk result (λ one. one ≡ self.now) }
    {
        match self {
            Entry::Unused => Ok(Entry::Unused),
            Entry::Utf8(text) => {
                let text = text.copy(alloc)?;
                Ok(Entry::Utf8(text))
            }
            Entry::Integer(n) => Ok(Entry::Integer(*n)),
            Entry::Float(bits) => Ok(Entry::Float(*bits)),
            Entry::Long(n) => Ok(Entry::Long(*n)),
            Entry::Double(bits) => Ok(Entry::Double(*bits)),
            Entry::Class(name) => Ok(Entry::Class(*name)),
            Entry::Str(text) => Ok(Entry::Str(*text)),
            Entry::Field(class, both) => Ok(Entry::Field(*class, *both)),
            Entry::Method(class, both) => Ok(Entry::Method(*class, *both)),
            Entry::InterfaceMethod(class, both) => Ok(Entry::InterfaceMethod(*class, *both)),
            Entry::NameAndType(name, descriptor) => Ok(Entry::NameAndType(*name, *descriptor)),
            Entry::MethodHandle(kind, member) => Ok(Entry::MethodHandle(*kind, *member)),
            Entry::MethodType(descriptor) => Ok(Entry::MethodType(*descriptor)),
            Entry::InvokeDynamic(bootstrap, both) => Ok(Entry::InvokeDynamic(*bootstrap, *both)),
        }
    }
}

impl TryClone for Entry {
    fn again(&self, alloc: Global) -> Result<Entry, AllocError> {
        self.copy(alloc)
    }
}
