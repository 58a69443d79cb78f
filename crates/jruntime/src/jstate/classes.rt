ghost use Rattle.std.specs.Prelude.{◌≡◌};
ghost use Rattle.jruntime.specs.jstate.ObjectCells;
ghost use Rattle.jruntime.specs.jstate.ClassNumbers;

use jlib::{LIBRARY_CLASSES, LibClass, PermissionClass, Thrown};
use jresolution::jprogram::ClassRef;

/// The heap's number for a class of what can be thrown.
#[inline]
pub fn thrown_number(c: Thrown) -> u32
    ensures { result ≡ ClassNumbers.thrown_number c }
{
    match c {
        Thrown::Throwable => 0,
        Thrown::Exception => 1,
        Thrown::Error => 2,
        Thrown::RuntimeException => 3,
        Thrown::InterruptedException => 4,
        Thrown::ArithmeticException => 5,
        Thrown::NullPointerException => 6,
        Thrown::ClassCastException => 7,
        Thrown::NegativeArraySizeException => 8,
        Thrown::ArrayStoreException => 9,
        Thrown::IllegalArgumentException => 10,
        Thrown::IllegalStateException => 11,
        Thrown::IndexOutOfBoundsException => 12,
        Thrown::SecurityException => 13,
        Thrown::IllegalThreadStateException => 14,
        Thrown::ArrayIndexOutOfBoundsException => 15,
        Thrown::StringIndexOutOfBoundsException => 16,
        Thrown::LinkageError => 17,
        Thrown::VirtualMachineError => 18,
        Thrown::IncompatibleClassChangeError => 19,
        Thrown::AbstractMethodError => 20,
        Thrown::IllegalAccessError => 21,
        Thrown::StackOverflowError => 22,
    }
}

/// The heap's number for a class of permissions.
#[inline]
fn permission_number(c: PermissionClass) -> u32
    ensures { result ≡ ClassNumbers.permission_number c }
{
    match c {
        PermissionClass::Permission => 23,
        PermissionClass::BasicPermission => 24,
        PermissionClass::AllPermission => 25,
        PermissionClass::RuntimePermission => 26,
        PermissionClass::SecurityPermission => 27,
        PermissionClass::PropertyPermission => 28,
        PermissionClass::FilePermission => 29,
    }
}

/// The heap's number for a class of the library.
#[inline]
pub fn library_number(c: LibClass) -> u32
    ensures { result ≡ ClassNumbers.library_number c }
{
    match c {
        LibClass::Thrown(c) => thrown_number(c),
        LibClass::Permission(c) => permission_number(c),
        LibClass::Object => 30,
        LibClass::AccessControlException => 31,
        LibClass::String => 32,
        LibClass::StringBuilder => 33,
        LibClass::System => 34,
        LibClass::PrintStream => 35,
        LibClass::Void => 36,
        LibClass::Cloneable => 37,
        LibClass::Serializable => 38,
        LibClass::Runnable => 39,
        LibClass::Thread => 40,
        LibClass::PrivilegedAction => 41,
        LibClass::AccessController => 42,
        LibClass::AccessControlContext => 43,
        LibClass::Rt => 44,
        LibClass::Ctx => 45,
    }
}

/// The cells of an object of a class of the library: one for a message, a last piece or a number, where such objects have it.
#[inline]
pub fn cells_of(c: LibClass) -> u32
    ensures { result ≡ ObjectCells.cells_of c }
{
    match c {
        LibClass::Thrown(_) => 1,
        LibClass::Permission(_) => 1,
        LibClass::Object => 0,
        LibClass::AccessControlException => 1,
        LibClass::String => 0,
        LibClass::StringBuilder => 1,
        LibClass::System => 0,
        LibClass::PrintStream => 0,
        LibClass::Void => 0,
        LibClass::Cloneable => 0,
        LibClass::Serializable => 0,
        LibClass::Runnable => 0,
        LibClass::Thread => 1,
        LibClass::PrivilegedAction => 0,
        LibClass::AccessController => 0,
        LibClass::AccessControlContext => 1,
        LibClass::Rt => 0,
        LibClass::Ctx => 0,
    }
}

/// The classes of the library, in the order of the heap's numbers for them.
const LIBRARY: [LibClass; LIBRARY_CLASSES as usize] = [
    LibClass::Thrown(Thrown::Throwable),
    LibClass::Thrown(Thrown::Exception),
    LibClass::Thrown(Thrown::Error),
    LibClass::Thrown(Thrown::RuntimeException),
    LibClass::Thrown(Thrown::InterruptedException),
    LibClass::Thrown(Thrown::ArithmeticException),
    LibClass::Thrown(Thrown::NullPointerException),
    LibClass::Thrown(Thrown::ClassCastException),
    LibClass::Thrown(Thrown::NegativeArraySizeException),
    LibClass::Thrown(Thrown::ArrayStoreException),
    LibClass::Thrown(Thrown::IllegalArgumentException),
    LibClass::Thrown(Thrown::IllegalStateException),
    LibClass::Thrown(Thrown::IndexOutOfBoundsException),
    LibClass::Thrown(Thrown::SecurityException),
    LibClass::Thrown(Thrown::IllegalThreadStateException),
    LibClass::Thrown(Thrown::ArrayIndexOutOfBoundsException),
    LibClass::Thrown(Thrown::StringIndexOutOfBoundsException),
    LibClass::Thrown(Thrown::LinkageError),
    LibClass::Thrown(Thrown::VirtualMachineError),
    LibClass::Thrown(Thrown::IncompatibleClassChangeError),
    LibClass::Thrown(Thrown::AbstractMethodError),
    LibClass::Thrown(Thrown::IllegalAccessError),
    LibClass::Thrown(Thrown::StackOverflowError),
    LibClass::Permission(PermissionClass::Permission),
    LibClass::Permission(PermissionClass::BasicPermission),
    LibClass::Permission(PermissionClass::AllPermission),
    LibClass::Permission(PermissionClass::RuntimePermission),
    LibClass::Permission(PermissionClass::SecurityPermission),
    LibClass::Permission(PermissionClass::PropertyPermission),
    LibClass::Permission(PermissionClass::FilePermission),
    LibClass::Object,
    LibClass::AccessControlException,
    LibClass::String,
    LibClass::StringBuilder,
    LibClass::System,
    LibClass::PrintStream,
    LibClass::Void,
    LibClass::Cloneable,
    LibClass::Serializable,
    LibClass::Runnable,
    LibClass::Thread,
    LibClass::PrivilegedAction,
    LibClass::AccessController,
    LibClass::AccessControlContext,
    LibClass::Rt,
    LibClass::Ctx,
];

/// The class of one of the heap's numbers.
#[inline(always)]
#[tactic(auto, using(crate::proofs::JstateProofs::ClassNumbers::users_class))]
pub fn class_numbered(n: u32) -> ClassRef
    ensures { result ≡ ClassNumbers.class_numbered n }
{
    if n >= LIBRARY_CLASSES {
        return ClassRef::User(n - LIBRARY_CLASSES);
    }
    ClassRef::Lib(LIBRARY[n as usize])
}
