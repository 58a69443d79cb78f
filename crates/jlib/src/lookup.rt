ghost use Rattle.std.specs.Prelude.{◌≡◌, ◌&&◌, get_or};
ghost use Rattle.std.specs.Str.{bytes_eq};
ghost use Rattle.jlib.specs.NamePrefixes;
ghost use Rattle.jlib.specs.LibraryClasses;
ghost use Rattle.jlib.specs.LibraryPlaces;

use crate::classes::{LibClass, PermissionClass, Thrown};
use crate::side::Side;

/// The classes that users may extend.
const OPEN: [LibClass; 25] = [
    LibClass::Object,
    LibClass::Thrown(Thrown::Throwable),
    LibClass::Thrown(Thrown::Exception),
    LibClass::Thrown(Thrown::Error),
    LibClass::Thrown(Thrown::RuntimeException),
    LibClass::Thrown(Thrown::InterruptedException),
    LibClass::Thrown(Thrown::ArithmeticException),
    LibClass::Thrown(Thrown::NullPointerException),
    LibClass::Thrown(Thrown::ClassCastException),
    LibClass::Thrown(Thrown::NegativeArraySizeException),
    LibClass::Thrown(Thrown::ArrayStoreException),
    LibClass::Thrown(Thrown::IllegalArgumentException),
    LibClass::Thrown(Thrown::IllegalStateException),
    LibClass::Thrown(Thrown::IndexOutOfBoundsException),
    LibClass::Thrown(Thrown::SecurityException),
    LibClass::Thrown(Thrown::IllegalThreadStateException),
    LibClass::Thrown(Thrown::ArrayIndexOutOfBoundsException),
    LibClass::Thrown(Thrown::StringIndexOutOfBoundsException),
    LibClass::Thrown(Thrown::LinkageError),
    LibClass::Thrown(Thrown::VirtualMachineError),
    LibClass::Thrown(Thrown::IncompatibleClassChangeError),
    LibClass::Thrown(Thrown::AbstractMethodError),
    LibClass::Thrown(Thrown::IllegalAccessError),
    LibClass::Thrown(Thrown::StackOverflowError),
    LibClass::AccessControlException,
];

/// The classes by the places of their names.
static PLACES: [Option<LibClass>; 128] = [
    Some(LibClass::Thread),
    None,
    Some(LibClass::Permission(PermissionClass::SecurityPermission)),
    None,
    Some(LibClass::AccessControlContext),
    None,
    Some(LibClass::Thrown(Thrown::InterruptedException)),
    None,
    None,
    Some(LibClass::PrintStream),
    Some(LibClass::Permission(PermissionClass::PropertyPermission)),
    None,
    None,
    None,
    Some(LibClass::Rt),
    None,
    Some(LibClass::Object),
    None,
    Some(LibClass::Runnable),
    Some(LibClass::Thrown(Thrown::Exception)),
    Some(LibClass::Permission(PermissionClass::FilePermission)),
    Some(LibClass::Thrown(Thrown::VirtualMachineError)),
    Some(LibClass::AccessControlException),
    Some(LibClass::Ctx),
    Some(LibClass::Thrown(Thrown::ArrayIndexOutOfBoundsException)),
    None,
    Some(LibClass::Thrown(Thrown::RuntimeException)),
    None,
    Some(LibClass::Thrown(Thrown::IllegalAccessError)),
    None,
    None,
    None,
    Some(LibClass::System),
    None,
    Some(LibClass::Permission(PermissionClass::Permission)),
    Some(LibClass::Permission(PermissionClass::RuntimePermission)),
    None,
    None,
    Some(LibClass::Thrown(Thrown::IncompatibleClassChangeError)),
    Some(LibClass::StringBuilder),
    None,
    None,
    None,
    None,
    None,
    Some(LibClass::Thrown(Thrown::ArithmeticException)),
    None,
    None,
    None,
    None,
    None,
    None,
    None,
    Some(LibClass::Thrown(Thrown::ArrayStoreException)),
    Some(LibClass::Thrown(Thrown::LinkageError)),
    Some(LibClass::Thrown(Thrown::IllegalStateException)),
    None,
    None,
    Some(LibClass::Serializable),
    Some(LibClass::Cloneable),
    Some(LibClass::Thrown(Thrown::StackOverflowError)),
    None,
    None,
    None,
    None,
    None,
    None,
    None,
    None,
    Some(LibClass::Permission(PermissionClass::AllPermission)),
    None,
    None,
    None,
    Some(LibClass::Thrown(Thrown::StringIndexOutOfBoundsException)),
    None,
    Some(LibClass::Thrown(Thrown::Throwable)),
    Some(LibClass::Thrown(Thrown::NegativeArraySizeException)),
    None,
    None,
    None,
    None,
    None,
    Some(LibClass::Thrown(Thrown::IllegalArgumentException)),
    None,
    None,
    None,
    None,
    None,
    Some(LibClass::PrivilegedAction),
    None,
    None,
    None,
    None,
    None,
    None,
    Some(LibClass::Permission(PermissionClass::BasicPermission)),
    Some(LibClass::AccessController),
    None,
    None,
    Some(LibClass::Thrown(Thrown::IndexOutOfBoundsException)),
    None,
    None,
    Some(LibClass::Void),
    None,
    Some(LibClass::String),
    None,
    None,
    Some(LibClass::Thrown(Thrown::SecurityException)),
    None,
    Some(LibClass::Thrown(Thrown::IllegalThreadStateException)),
    None,
    None,
    None,
    None,
    None,
    None,
    None,
    None,
    Some(LibClass::Thrown(Thrown::NullPointerException)),
    None,
    None,
    None,
    None,
    None,
    Some(LibClass::Thrown(Thrown::ClassCastException)),
    Some(LibClass::Thrown(Thrown::AbstractMethodError)),
    None,
    Some(LibClass::Thrown(Thrown::Error)),
];

/// Whether a name begins as the names of the library's classes do.
fn begins_so(name: &[u8]) -> bool
    ensures { result ≡ NamePrefixes.begins_so name.now }
{
    name.starts_with(b"java/") || name.starts_with(b"sps/")
}

/// A byte of a name, and 0 past its end.
fn byte_at(name: &[u8], at: usize) -> u8
    ensures { result ≡ get_or name.now at 0 }
{
    match name.get(at) {
        Some(byte) => *byte,
        None => 0,
    }
}

/// The place that a name has in the table, below 128: by its length and two of its bytes, so that no two classes share one.
fn place(name: &[u8]) -> usize
    ensures { result ≡ LibraryPlaces.place name.now }
{
    let fifth = usize::from(byte_at(name, 5));
    let later = usize::from(byte_at(name, 14));
    (9 * (name.len() % 128) + 14 * fifth + 8 * later) % 128
}

/// The only class of either side that may have this name.
#[tactic(auto, using(crate::proofs::ClassPlaces::table_at))]
fn candidate(name: &[u8]) -> Option<LibClass>
    ensures { result ≡ LibraryPlaces.candidate name.now }
{
    PLACES[place(name)]
}

/// Whether a side's library has a class, and by this name.
fn is_named(class: LibClass, side: Side, name: &[u8]) -> bool
    ensures { result ≡ (LibraryClasses.stands_on side class && bytes_eq name.now (LibraryClasses.name_of class)) }
{
    class.stands_on(side) && name == class.name()
}

/// The class of a side's library that has this name, with `/` between packages (JVMS 4.2.1); None exactly where the side has
/// none.
#[tactic(auto, using(crate::proofs::NamePrefixes::none_named, crate::proofs::ClassPlaces::none_else, crate::proofs::ClassPlaces::this_one, crate::proofs::ClassPlaces::not_this,),)]
pub fn class(side: Side, name: &[u8]) -> Option<LibClass>
    ensures { result ≡ LibraryClasses.class_named side name.now }
{
    if !begins_so(name) {
        return None;
    }
    let class = candidate(name)?;
    if is_named(class, side, name) {
        return Some(class);
    }
    None
}

/// The classes that users may extend, which both sides have.
pub fn open_classes() -> &'static [LibClass]
    ensures { result.now ≡ LibraryClasses.open_classes }
{
    &OPEN
}
